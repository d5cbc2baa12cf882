//! One line of a journal.
ghost use Rattle.std.specs.Prelude.{◌≡◌, ◌<◌, ◌∷◌, length, MatchOption, Some, None};
ghost use Rattle.journal_versions.specs.Journals.{after_word, event_with, first_word, group_of, group_with, is_comment, lines, moves_of, moves_with, once};

use crate::MOST_EVENTS;
use crate::form::Form;
use crate::number::{number, small_number};
use memchr::memchr;
use run_types::Event;

/// The first line of a text without its newline, and the text after it.
pub(crate) fn split_line(text: &[u8]) -> (&[u8], &[u8])
    requires { 0 < length text.now }
    ensures lines { lines text.now ≡ result.0.now ∷ lines result.1.now }
    ensures shorter { length result.1.now < length text.now }
{
    match memchr(b'\n', text) {
        Some(len) => (&text[..len], &text[len + 1..]),
        None => (text, &[]),
    }
}

/// Whether a line is a comment.
pub(crate) fn is_comment(line: &[u8]) -> bool
    ensures { result ≡ is_comment line.now }
{
    match line {
        [first, ..] => *first == b'#',
        [] => false,
    }
}

/// The event that a line is, and how many times, if it is one.
pub(crate) fn group_of(form: Form, line: &[u8]) -> Option<(Event, u32)>
    ensures { result ≡ group_of form line.now }
{
    let (letter, rest) = line.split_first()?;
    let (space, text) = rest.split_first()?;
    if *space != b' ' {
        return None;
    }
    group_with(form, *letter, text)
}

/// The same of the line's letter and what comes after it and a space.
fn group_with(form: Form, letter: u8, text: &[u8]) -> Option<(Event, u32)>
    ensures { result ≡ group_with form letter text.now }
{
    if letter == b's' && form.has_counts() {
        return moves_of(form.slots(), text);
    }
    once(event_with(form.slots(), letter, text))
}

/// The moves of a slot's number, and after a space their own; without one it is one move.
fn moves_of(slots: u8, text: &[u8]) -> Option<(Event, u32)>
    requires { 0 < slots }
    ensures { result ≡ moves_of slots text.now (after_word text.now) }
{
    match split_word(text) {
        Some(words) => moves_with(
            small_number(0, slots, words.0),
            number(2, MOST_EVENTS + 1, words.1),
        ),
        None => once(event_with(slots, b's', text)),
    }
}

/// The bytes before the first space of a text, and those after it, if it has one.
fn split_word(text: &[u8]) -> Option<(&[u8], &[u8])>
    ensures { MatchOption result (after_word text.now ≡ None)
        (λ words. (first_word text.now ≡ words.0.now) × (after_word text.now ≡ Some words.1.now)) }
{
    match memchr(b' ', text) {
        Some(len) => Some((&text[..len], &text[len + 1..])),
        None => None,
    }
}

/// So many moves of the thread in a slot.
fn moves_with(slot: Option<u8>, times: Option<u32>) -> Option<(Event, u32)>
    ensures { result ≡ moves_with slot times }
{
    match (slot, times) {
        (Some(slot), Some(times)) => Some((Event::Move(slot), times)),
        _ => None,
    }
}

/// An event that comes once.
fn once(event: Option<Event>) -> Option<(Event, u32)>
    ensures { result ≡ once event }
{
    match event {
        Some(event) => Some((event, 1)),
        None => None,
    }
}

/// The event of a letter and the number after it: a slot, or an offer from 1 to 63.
fn event_with(slots: u8, letter: u8, text: &[u8]) -> Option<Event>
    requires { 0 < slots }
    ensures { result ≡ event_with slots letter text.now }
{
    let event = match letter {
        b's' => Event::Move(small_number(0, slots, text)?),
        b'c' => Event::CheckIn(small_number(0, slots, text)?),
        b'o' => Event::Offer(small_number(1, 64, text)?),
        b'd' => Event::Decide(small_number(1, 64, text)?),
        b'w' => Event::Withdraw(small_number(1, 64, text)?),
        _ => return None,
    };
    Some(event)
}
