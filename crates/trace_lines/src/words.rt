//! What a thread does, in words.
ghost use Rattle.std.specs.Prelude.{◌≡◌, ◌++◌, OnOk, codes};
ghost use Rattle.std.specs.String.{string_bytes};
ghost use Rattle.trace_lines.specs.Lines.{act_words, after_words, bytes_words, check_in_words, verb};

use crate::facts::{Act, After};
use skeletons::{CheckInKind, Use};
use std::alloc::AllocError;

/// What a thread does with the name that a stop uses.
fn verb(action: Use) -> &'static str
    ensures { result.now ≡ verb action }
{
    match action {
        Use::ReadGlobal => "reads",
        Use::WriteGlobal => "writes",
        Use::ReadElement => "reads an element of",
        Use::WriteElement => "writes an element of",
        Use::ReadField => "reads a field of",
        Use::WriteField => "writes a field of",
        Use::New => "allocates",
        Use::Free => "frees",
        Use::InitMutex => "initialises",
        Use::Lock => "locks",
        Use::Unlock => "unlocks",
        Use::Spawn => "starts",
        Use::Call => "calls",
    }
}

/// Which check-in a thread passes.
pub(crate) fn check_in_words(kind: CheckInKind) -> &'static str
    ensures { result.now ≡ check_in_words kind }
{
    match kind {
        CheckInKind::Entry => "checks in at the entry",
        CheckInKind::Call => "checks in after the call",
        CheckInKind::Begin => "checks in after the begin",
        CheckInKind::End => "checks in after the end",
        CheckInKind::Update => "checks in at the update point",
    }
}

/// Adds how much a thread prints.
fn add_prints(text: &mut String, count: u64) -> Result<(), AllocError>
    ensures { OnOk result (string_bytes text.new ≡ string_bytes text.old ++ bytes_words count) }
{
    if count == 1 {
        text.push_str("prints 1 byte")
    } else {
        write!(text, "prints {count} bytes")
    }
}

/// Adds what a thread does at a stop.
pub(crate) fn add_act(text: &mut String, act: Act<'_>) -> Result<(), AllocError>
    ensures { OnOk result (string_bytes text.new ≡ string_bytes text.old ++ act_words act.entry) }
{
    match act {
        Act::Enters(function) => write!(text, "enters {function}"),
        Act::Uses(action, name) => add_use(text, action, name),
        Act::Prints(count) => add_prints(text, count),
        Act::Joins => text.push_str("joins a thread"),
        Act::Returns => text.push_str("returns"),
        Act::Repeats => text.push_str("repeats its loop"),
        Act::Begins => text.push_str("begins a transaction"),
        Act::Ends => text.push_str("ends a transaction"),
        Act::Updates => text.push_str("reaches an update point"),
    }
}

/// Adds how a thread uses a name.
fn add_use(text: &mut String, action: Use, name: &str) -> Result<(), AllocError>
    ensures { OnOk result (string_bytes text.new ≡ string_bytes text.old ++ (verb action ++ codes " " ++ name.now)) }
{
    let verb = verb(action);
    write!(text, "{verb} {name}")
}

/// Adds what came of it.
pub(crate) fn add_after(text: &mut String, after: After<'_>) -> Result<(), AllocError>
    ensures { OnOk result (string_bytes text.new ≡ string_bytes text.old ++ after_words after.entry) }
{
    match after {
        After::Nothing => Ok(()),
        After::Started(slot) => write!(text, " as thread {slot}"),
        After::NotStarted => text.push_str(", but no slot is free"),
        After::ThreadEnded => text.push_str(" and ends its thread"),
        After::RunEnded => text.push_str(" and ends the run"),
        After::Trapped(word) => write!(text, " and traps: {word}"),
    }
}
