//! What the threads of runs do, each as the contract of a call that does nothing but cite what it rests on.

ghost use Rattle.progress_laws.specs.ProgressLaws.{RunsAddUp, ThreadsOfRunsGoOn};

use c_semantics::frames_go_along_skeletons;
use typed_transformers::transformed_values_are_typed;

/// In each world that a run of accepted texts comes to, each thread is in as many transactions as its frames began and didn't end.
pub fn depths_add_up()
    ensures { RunsAddUp }
{
    frames_go_along_skeletons();
}

/// In each world that a run of accepted texts comes to and that isn't over, each thread that lives makes its next move or waits.
pub fn threads_of_runs_go_on()
    ensures { ThreadsOfRunsGoOn }
{
    frames_go_along_skeletons();
    transformed_values_are_typed();
}
