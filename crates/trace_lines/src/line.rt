//! The line of an event.
ghost use Rattle.std.specs.Prelude.{◌≡◌, ◌++◌, OnOk};
ghost use Rattle.std.specs.List.{flat_map};
ghost use Rattle.std.specs.String.{string_bytes};
ghost use Rattle.trace_lines.specs.Lines.{answer_words, check_in_line, doing_words, facts_words, head, line_text, moved_words, opened_words, pin_words, place_words, point_words, thread_words, trap_words, version_words};

use crate::facts::{Act, After, Facts, Where};
use crate::words::{add_act, add_after, check_in_words};
use run_types::Event;
use skeletons::CheckInKind;
use std::alloc::AllocError;

/// Adds the line of an event, which has that number in its journal, by what is known of it. Its newline is added too.
pub fn add_line(
    text: &mut String,
    line: u32,
    event: Event,
    facts: Facts<'_>,
) -> Result<(), AllocError>
    ensures { OnOk result (string_bytes text.new ≡ string_bytes text.old ++ line_text line event facts.entry) }
{
    add_head(text, line, event)?;
    add_facts(text, facts)?;
    text.push_str("\n")
}

/// Adds the number of a line and its event.
fn add_head(text: &mut String, line: u32, event: Event) -> Result<(), AllocError>
    ensures { OnOk result (string_bytes text.new ≡ string_bytes text.old ++ head line event) }
{
    match event {
        Event::Move(slot) => write!(text, "{line} s {slot}"),
        Event::CheckIn(slot) => write!(text, "{line} c {slot}"),
        Event::Offer(offer) => write!(text, "{line} o {offer}"),
        Event::Decide(offer) => write!(text, "{line} d {offer}"),
        Event::Withdraw(offer) => write!(text, "{line} w {offer}"),
    }
}

/// Adds what is known of an event.
fn add_facts(text: &mut String, facts: Facts<'_>) -> Result<(), AllocError>
    ensures { OnOk result (string_bytes text.new ≡ string_bytes text.old ++ facts_words facts.entry) }
{
    match facts {
        Facts::Bare => Ok(()),
        Facts::Moved(at, act, after) => add_moved(text, at, act, after),
        Facts::TrappedAfter(at, word) => add_trap(text, at, word),
        Facts::CheckedIn(at, kind) => add_check_in(text, at, kind),
        Facts::Opened(offer) => add_opened(text, offer),
        Facts::Closed(offer, answer, pinned) => add_answer(text, offer, answer, pinned),
    }
}

/// Adds the move of a thread.
fn add_moved(
    text: &mut String,
    at: Where<'_>,
    act: Act<'_>,
    after: After<'_>,
) -> Result<(), AllocError>
    ensures { OnOk result (string_bytes text.new ≡ string_bytes text.old ++ moved_words at.entry act.entry after.entry) }
{
    add_place(text, at, "at")?;
    add_doing(text, act, after)?;
    add_version(text, at.version)
}

/// Adds what a thread does at a stop, and what came of it.
fn add_doing(text: &mut String, act: Act<'_>, after: After<'_>) -> Result<(), AllocError>
    ensures { OnOk result (string_bytes text.new ≡ string_bytes text.old ++ doing_words act.entry after.entry) }
{
    add_act(text, act)?;
    add_after(text, after)
}

/// Adds the check-in of a thread.
fn add_check_in(text: &mut String, at: Where<'_>, kind: CheckInKind) -> Result<(), AllocError>
    ensures { OnOk result (string_bytes text.new ≡ string_bytes text.old ++ check_in_line at.entry kind) }
{
    add_place(text, at, "at")?;
    text.push_str(check_in_words(kind))?;
    add_version(text, at.version)
}

/// Adds where a thread is: at a place, or after one.
fn add_place(text: &mut String, at: Where<'_>, stand: &str) -> Result<(), AllocError>
    ensures { OnOk result (string_bytes text.new ≡ string_bytes text.old ++ place_words at.entry stand.now) }
{
    add_thread(text, at.thread, at.function)?;
    add_point(text, stand, at.line, at.column)
}

/// Adds a thread and its function.
fn add_thread(text: &mut String, thread: u8, function: &str) -> Result<(), AllocError>
    ensures { OnOk result (string_bytes text.new ≡ string_bytes text.old ++ thread_words thread function.now) }
{
    write!(text, ": thread {thread} {function} ")
}

/// Adds a line and a column.
fn add_point(text: &mut String, stand: &str, line: usize, column: u128) -> Result<(), AllocError>
    ensures { OnOk result (string_bytes text.new ≡ string_bytes text.old ++ point_words stand.now line column) }
{
    write!(text, "{stand} {line}:{column}: ")
}

/// Adds a version.
fn add_version(text: &mut String, version: usize) -> Result<(), AllocError>
    ensures { OnOk result (string_bytes text.new ≡ string_bytes text.old ++ version_words version) }
{
    write!(text, " (version {version})")
}

/// Adds a trap after a thread's last stop.
fn add_trap(text: &mut String, at: Where<'_>, word: &str) -> Result<(), AllocError>
    ensures { OnOk result (string_bytes text.new ≡ string_bytes text.old ++ trap_words at.entry word.now) }
{
    add_place(text, at, "after")?;
    write!(text, "traps: {word}")?;
    add_version(text, at.version)
}

/// Adds that an offer was opened.
fn add_opened(text: &mut String, offer: u8) -> Result<(), AllocError>
    ensures { OnOk result (string_bytes text.new ≡ string_bytes text.old ++ opened_words offer) }
{
    write!(text, ": offer {offer} is opened")
}

/// Adds the answer to an offer, and the threads that it pinned.
fn add_answer(text: &mut String, offer: u8, answer: &str, pinned: &[u8]) -> Result<(), AllocError>
    ensures { OnOk result (string_bytes text.new ≡ string_bytes text.old ++ answer_words offer answer.now pinned.now) }
{
    write!(text, ": offer {offer} {answer}")?;
    add_pins(text, pinned)
}

/// Adds the threads that were pinned.
fn add_pins(text: &mut String, pinned: &[u8]) -> Result<(), AllocError>
    ensures { OnOk result (string_bytes text.new ≡ string_bytes text.old ++ flat_map pin_words pinned.now) }
{
    for slot in pinned {
        add_pin(text, *slot)?;
    }
    Ok(())
}

/// Adds a thread that was pinned.
fn add_pin(text: &mut String, slot: u8) -> Result<(), AllocError>
    ensures { OnOk result (string_bytes text.new ≡ string_bytes text.old ++ pin_words slot) }
{
    write!(text, ", pins thread {slot}")
}
