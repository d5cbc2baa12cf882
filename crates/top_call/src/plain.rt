//! A job as it is.
ghost use Rattle.std.specs.Prelude.{◌⊎◌, ℕ, List};
ghost use Rattle.dsu_report.specs.declared.fault.FaultLine.{FaultLine as Line};
ghost use Rattle.job_answers.specs.Answers.{Answers, IsDone, IsExcused};
ghost use Rattle.job_answers.specs.Calls.{Stopped, call_of, output_of};
ghost use Rattle.job_answers.specs.Jobs.{IsKnownFault, IsReady};
ghost use Rattle.top_call.specs.Words.{IsInRange};

use dsu_cli::Job;
use dsu_io::{Files, Sink};
use gen_job::run_generated;
use job_answers::Outcome;
use run_jobs::{replay_file, run_file};
use std::alloc::Global;
use text_jobs::{admits_files, changes_files, check_file, effects_file};

/// Does a job. `run FILE` runs the program of the file, `replay FILE JOURNAL` makes the events of the journal, and both print on
/// `out` and report on `err`; `check FILE` prints on `out` how many names the text has, `effects FILE` what its threads may use,
/// `changes OLD NEW` what changes from one text to another, `admits OLD NEW` where a run of the one could take the other, and
/// `gen SEED SIZE` a summary of the run of a program that it makes.
pub(crate) fn done<F: Files, O: Sink, E: Sink>(
    alloc: Global,
    job: &Job,
    files: &mut F,
    out: O,
    err: &mut E,
) -> Outcome<O>
    requires range { IsInRange job.now }
    ensures answers { Answers job.now (F.content files.old) (F.faults files.old) (F.faults files.new)
        (call_of result (output_of O.told O.faults out result.out) (output_of E.told E.faults err.old err.new)) }
    ensures complete { IsReady job.now (F.content files.old) → IsDone result.status ⊎ IsExcused result.status }
    ensures first { (line : Line) (file : List ℕ) → IsKnownFault job.now (F.content files.old) line file
        → IsExcused result.status ⊎ Stopped line file
        (call_of result (output_of O.told O.faults out result.out) (output_of E.told E.faults err.old err.new)) }
{
    match job {
        Job::Run(job) => run_file(alloc, job, files, out, err),
        Job::Replay(job) => replay_file(alloc, job, files, out, err),
        Job::Check(file) => check_file(alloc, file.as_str(), files, out, err),
        Job::Effects(file) => effects_file(alloc, file.as_str(), files, out, err),
        Job::Changes(old, new) => {
            changes_files(alloc, old.as_str(), new.as_str(), files, out, err)
        }
        Job::Admits(old, new) => {
            admits_files(alloc, old.as_str(), new.as_str(), files, out, err)
        }
        Job::Gen(seed, size, engine) => run_generated(alloc, *seed, *size, *engine, out, err),
    }
}
