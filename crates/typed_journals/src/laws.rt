//! What legal journals keep of types, each as the contract of a call that does nothing but cite what it rests on.

ghost use Rattle.typed_journals.specs.TypedJournals.{DeadlockedThreadsWait, JournalsAreTyped, MainsResultIsAnInt, ThreadsOfJournalsGoOn};

use accepted_runs::accepted_runs_misuse_nothing;
use c_semantics::frames_go_along_skeletons;
use returned_ints::returns_are_ints;
use typed_transformers::transformed_values_are_typed;

/// The world of each guard that a legal journal of accepted texts comes to is typed by the versions so far.
pub fn journals_are_typed()
    ensures { JournalsAreTyped }
{
    transformed_values_are_typed();
}

/// What main returned is an int.
pub fn mains_result_is_an_int()
    ensures { MainsResultIsAnInt }
{
    frames_go_along_skeletons();
    transformed_values_are_typed();
    returns_are_ints();
}

/// As long as it isn't over, each thread that lives makes its next move or waits.
pub fn threads_of_journals_go_on()
    ensures { ThreadsOfJournalsGoOn }
{
    frames_go_along_skeletons();
    transformed_values_are_typed();
}

/// In a deadlock each thread that lives waits.
pub fn deadlocked_threads_wait()
    ensures { DeadlockedThreadsWait }
{
    accepted_runs_misuse_nothing();
    threads_of_journals_go_on();
}
