//! What the words ask for.
ghost use Rattle.std.specs.Prelude.{◌≡◌, ◌⊎◌, IfOk, IfErr, IsErrOf, None, Some};
ghost use Rattle.dsu_cli.specs.Words.{detail_of, job_of};
ghost use Rattle.job_answers.specs.Jobs.{is_built};
ghost use Rattle.top_call.specs.Words.{IsInRange, asked};

use dsu_cli::{CliFault, Job, Request, read_words};
use dsu_io::Text;
use dsu_report::FaultLine;
use std::alloc::Global;

/// The job that words ask for, where it is built, and whether it is explained. Words that fit no command, and those with an
/// option that isn't built, are `Usage`.
#[tactic(auto, using(crate::proofs::Ranges::in_range))]
pub(crate) fn request_in(alloc: Global, words: &[Text]) -> Result<Request, FaultLine>
    ensures job { IfOk result (λ request. asked words.now ≡ Some request.job) }
    ensures detail { IfOk result (λ request. detail_of words.now ≡ request.detail) }
    ensures range { IfOk result (λ request. IsInRange request.job) }
    ensures unfit { job_of words.now ≡ None → IsErrOf result FaultLine.Usage }
    ensures usage { IsErrOf result FaultLine.Usage → asked words.now ≡ None }
    ensures faults { IfErr result (λ fault. (fault ≡ FaultLine.Usage) ⊎ (fault ≡ FaultLine.Memory)) }
{
    match read_words(alloc, words) {
        Ok(request) => {
            if is_built(&request.job) {
                Ok(request)
            } else {
                Err(FaultLine::Usage)
            }
        }
        Err(CliFault::Usage) => Err(FaultLine::Usage),
        Err(CliFault::Memory) => Err(FaultLine::Memory),
    }
}

/// Whether a job is built.
fn is_built(job: &Job) -> bool
    ensures { result ≡ is_built job.now }
{
    match job {
        Job::Run(job) => job.workers.is_none(),
        Job::Replay(_)
        | Job::Check(_)
        | Job::Effects(_)
        | Job::Changes(_, _)
        | Job::Admits(_, _)
        | Job::Gen(_, _, _) => true,
    }
}
