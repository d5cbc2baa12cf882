ghost use Rattle.std.specs.Prelude.{◌≡◌, ◌<◌, ◌^◌, Some, None, if◌then◌else◌};
ghost use Rattle.std.specs.Str.Parse.{digits_value};
ghost use Rattle.dsu_cli.specs.Words.{is_number};

/// The most digits of a number that is no seed.
pub const DIGITS: usize = 7;

/// The number that a word writes, where it is one of at most so many digits and within these bounds.
pub fn number(word: &str, digits: usize, least: u64, most: u64) -> Option<u64>
    ensures { result ≡ (if is_number digits least most word.now then Some (digits_value 10 word.now) else None) }
{
    // `parse` alone takes a `+` in front.
    if word.len() > digits || word.starts_with('+') {
        return None;
    }
    let Ok(number) = word.parse::<u64>() else {
        return None;
    };
    if least <= number && number <= most {
        Some(number)
    } else {
        None
    }
}

/// Whether the word is such a number.
pub fn is_number(word: &str, digits: usize, least: u64, most: u64) -> bool
    ensures { result ≡ is_number digits least most word.now }
{
    number(word, digits, least, most).is_some()
}
