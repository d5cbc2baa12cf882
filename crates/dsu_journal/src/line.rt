//! One line of a journal.
ghost use Rattle.std.specs.Prelude.{◌≡◌, ◌<◌, ◌∷◌, length};
ghost use Rattle.dsu_journal.specs.Journals.{event_of, event_with, in_range, is_comment, is_digit, lines, number};

use memchr::memchr;
use run_types::Event;

/// The first line of a text without its newline, and the text after it.
pub(crate) fn split_line(text: &[u8]) -> (&[u8], &[u8])
    requires { 0 < length text.now }
    ensures lines { lines text.now ≡ result.0.now ∷ lines result.1.now }
    ensures shorter { length result.1.now < length text.now }
{
    match memchr(b'\n', text) {
        Some(len) => (&text[..len], &text[len + 1..]),
        None => (text, &[]),
    }
}

/// Whether a line is a comment.
pub(crate) fn is_comment(line: &[u8]) -> bool
    ensures { result ≡ is_comment line.now }
{
    match line {
        [first, ..] => *first == b'#',
        [] => false,
    }
}

/// The event that a line is, if it is one.
pub(crate) fn event_of(line: &[u8]) -> Option<Event>
    ensures { result ≡ event_of line.now }
{
    let (letter, rest) = line.split_first()?;
    let (space, digits) = rest.split_first()?;
    if *space != b' ' {
        return None;
    }
    in_range(event_with(*letter, number(digits)?)?)
}

/// The event of a letter and a number.
fn event_with(letter: u8, n: u8) -> Option<Event>
    ensures { result ≡ event_with letter n }
{
    match letter {
        b's' => Some(Event::Move(n)),
        b'c' => Some(Event::CheckIn(n)),
        b'o' => Some(Event::Offer(n)),
        b'd' => Some(Event::Decide(n)),
        b'w' => Some(Event::Withdraw(n)),
        _ => None,
    }
}

/// The event, where it may be in a journal: a slot is from 0 to 15, an offer from 1 to 63.
fn in_range(event: Event) -> Option<Event>
    ensures { result ≡ in_range event }
{
    let may_be = match event {
        Event::Move(slot) | Event::CheckIn(slot) => slot < 16,
        Event::Offer(offer) | Event::Decide(offer) | Event::Withdraw(offer) => {
            0 < offer && offer < 64
        }
    };
    if may_be { Some(event) } else { None }
}

/// The number that one or two digits without a leading zero write.
fn number(digits: &[u8]) -> Option<u8>
    ensures { result ≡ number digits.now }
{
    match digits {
        [ones] if is_digit(*ones) => Some(*ones - b'0'),
        [tens, ones] if *tens > b'0' && is_digit(*tens) && is_digit(*ones) => {
            Some(10 * (*tens - b'0') + (*ones - b'0'))
        }
        _ => None,
    }
}

/// Whether a byte is a digit.
fn is_digit(byte: u8) -> bool
    ensures { result ≡ is_digit byte }
{
    b'0' <= byte && byte <= b'9'
}
