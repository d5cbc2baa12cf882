ghost use Rattle.std.specs.Prelude.{◌≡◌, []};
ghost use Rattle.job_answers.specs.Calls.{Stopped, call_of, output_of};

use dsu_io::Sink;
use dsu_report::FaultLine;
use installed_versions::FirstFault;
use job_answers::{Outcome, stop};
use std::alloc::Global;

/// Reports that a run of an accepted text didn't start, which is so only where memory ran out.
pub fn stop_before<O: Sink, E: Sink>(
    alloc: Global,
    why: FirstFault,
    out: O,
    err: &mut E,
) -> Outcome<O>
    requires { why ≡ FirstFault.Memory }
    ensures { Stopped FaultLine.Memory [] (call_of result (output_of O.told O.faults out result.out) (output_of E.told E.faults err.old err.new)) }
{
    match why {
        FirstFault::Memory => stop(alloc, FaultLine::Memory, "", out, err),
        FirstFault::UndefinedName | FirstFault::StoreFull => unreachable!(),
    }
}
