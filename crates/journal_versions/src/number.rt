//! Numbers in decimal.
ghost use Rattle.std.specs.Prelude.{◌≡◌, ◌≤◌, ◌<◌, ◌+◌, ◌&&◌, nat_lt, if◌then◌else◌, IfSome, Some, None};
ghost use Rattle.std.specs.Str.{all_ascii_digits};
ghost use Rattle.journal_versions.specs.Journals.{leads, most_events, number, value};

/// The number that a text writes in decimal without a leading zero, if it is at least `low` and below `end`.
pub(crate) fn number(low: u32, end: u32, text: &[u8]) -> Option<u32>
    requires some { 0 < end }
    requires small { end ≤ most_events + 1 }
    ensures value { result ≡ number low end text.now }
    ensures within { IfSome result (λ n. n < end) }
{
    if !leads(text) {
        return None;
    }
    let n = value_below(end, text)?;
    if low <= n { Some(n) } else { None }
}

/// Whether a number can begin so: not with `0`, unless that is all of it.
fn leads(text: &[u8]) -> bool
    ensures { result ≡ leads text.now }
{
    match text {
        [] => false,
        [_] => true,
        [first, ..] => *first != b'0',
    }
}

/// The number that digits write, if it is below `end`. It stops at the digit that goes past it.
fn value_below(end: u32, text: &[u8]) -> Option<u32>
    requires some { 0 < end }
    requires small { end ≤ most_events + 1 }
    ensures value { result ≡ (if all_ascii_digits text.now && nat_lt (value text.now) end then Some (value text.now) else None) }
    ensures within { IfSome result (λ n. n < end) }
{
    let mut n = 0;
    for byte in text {
        if !byte.is_ascii_digit() {
            return None;
        }
        n = n * 10 + u32::from(*byte - b'0');
        if end <= n {
            return None;
        }
    }
    Some(n)
}

/// The same of a number below 256.
pub(crate) fn small_number(low: u8, end: u8, text: &[u8]) -> Option<u8>
    requires { 0 < end }
    ensures { result ≡ number low end text.now }
{
    let n = number(u32::from(low), u32::from(end), text)?;
    Some(n as u8)
}
