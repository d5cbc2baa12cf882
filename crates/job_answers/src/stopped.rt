ghost use Rattle.std.specs.Prelude.{◌≡◌, ℕ, List, None, []};
ghost use Rattle.dsu_report.specs.Statuses.{status_of_line};
ghost use Rattle.dsu_report.specs.Faults.{fault_line};
ghost use Rattle.job_answers.specs.Calls.{Stopped, call_of, output_of, Writes};

use crate::outcome::{Outcome, without_end};
use dsu_io::Sink;
use dsu_report::{FaultLine, write_fault};
use run_types::Event;
use std::alloc::Global;

/// Reports a fault, by which a command comes to nothing. Standard output stays as it was.
pub fn stop<O: Sink, E: Sink>(
    alloc: Global,
    fault: FaultLine,
    file: &str,
    out: O,
    err: &mut E,
) -> Outcome<O>
    ensures { Stopped fault file.now (call_of result (output_of O.told O.faults out result.out) (output_of E.told E.faults err.old err.new)) }
{
    stop_after(alloc, Vec::new(alloc), fault, file, out, err)
}

/// Reports a fault after some events.
pub fn stop_after<O, E: Sink>(
    alloc: Global,
    history: Vec<Event>,
    fault: FaultLine,
    file: &str,
    out: O,
    err: &mut E,
) -> Outcome<O>
    ensures status { result.status ≡ status_of_line fault }
    ensures history { result.history ≡ history }
    ensures ending { result.ending ≡ None }
    ensures answers { result.answers.items ≡ [] }
    ensures installed { result.installed ≡ None }
    ensures out { result.out ≡ out }
    ensures err { Writes (output_of E.told E.faults err.old err.new) (fault_line fault file.now) }
{
    let _ = write_fault(file, fault, err);
    without_end(alloc, fault.status(), out, history)
}
