ghost use Rattle.std.specs.Prelude.{◌≡◌, ◌⊎◌, ◌≤◌, ℕ, List, length, IfOk, IfErr, IsErrOf, MatchResult, Some, Ok, Err};
ghost use Rattle.dsu_io.specs.Causes.{NoneFailed, ReadFailed};
ghost use Rattle.run_types.specs.declared.run.Event.{Event as Made};
ghost use Rattle.dsu_journal.specs.Journals.{journal_in};
ghost use Rattle.dsu_journal.specs.declared.fault.JournalFault.{JournalFault as Fault};
ghost use Rattle.input_files.specs.Files.{Exceeds, IsShort};
ghost use Rattle.input_files.specs.Journals.{HoldsEvents, IsOfJournal, journal_limit, line_of_journal};

use crate::bytes::bytes_of;
use dsu_io::Files;
use dsu_journal::{JournalFault, read_journal};
use dsu_report::{FaultLine, LineWord};
use run_types::Event;
use std::alloc::Global;

/// How many bytes a journal may have.
pub const JOURNAL_LIMIT: usize = 16 * 1024 * 1024;

/// The line of why a text is no journal.
fn line_of_journal(fault: JournalFault) -> FaultLine
    ensures { result ≡ line_of_journal fault }
{
    match fault {
        JournalFault::Header => FaultLine::Line(1, LineWord::Header),
        JournalFault::NoEvent(line) => FaultLine::Line(line, LineWord::NoEvent),
        JournalFault::Memory => FaultLine::Memory,
    }
}

/// Reads the file, and its events, each with the number of its line.
pub fn journal_of<F: Files>(
    alloc: Global,
    files: &mut F,
    file: &str,
) -> Result<Vec<(u32, Event)>, FaultLine>
    ensures read { IfOk result (λ events. HoldsEvents (F.content files.old file.now) events.items) }
    ensures unread { IsErrOf result FaultLine.Unread → ReadFailed file.now (F.faults files.old) (F.faults files.new) }
    ensures none_failed { (IsErrOf result FaultLine.Unread → ⊥) → NoneFailed (F.faults files.old) (F.faults files.new) }
    ensures too_long { IsErrOf result FaultLine.TooLong → Exceeds journal_limit (F.content files.old file.now) }
    ensures others { IfErr result (λ line. IsOfJournal (F.content files.old file.now) line) }
    ensures same { (other : List ℕ) → F.content files.new other ≡ F.content files.old other }
    // The events of a known journal are read, if the file and memory don't fail.
    ensures complete { (text : List ℕ) (events : List (ℕ × Made)) → F.content files.old file.now ≡ Some text
        → length text ≤ journal_limit → journal_in text ≡ Ok events
        → MatchResult result (λ read. read.items ≡ events) IsShort }
    // And the fault of a known text that is no journal is answered.
    ensures first { (text : List ℕ) (fault : Fault) → F.content files.old file.now ≡ Some text
        → length text ≤ journal_limit → journal_in text ≡ Err fault
        → IsErrOf result (line_of_journal fault) ⊎ IsErrOf result FaultLine.Unread ⊎ IsErrOf result FaultLine.Memory }
{
    let text = bytes_of(alloc, files, file, JOURNAL_LIMIT)?;
    match read_journal(alloc, &text) {
        Ok(events) => Ok(events),
        Err(fault) => Err(line_of_journal(fault)),
    }
}
