//! What accepted texts promise of a run, each as the contract of a call that does nothing but cite what it rests on.

ghost use Rattle.accepted_runs.specs.AcceptedRuns.{AcceptedRunsAreSound, NoRunMisuses, TransactionsShareAVersion};

use admission_laws::{nothing_is_misused, transactions_share_a_version};

/// Where the first text of a run and those of its offers are accepted, the texts of its versions are sound.
pub fn accepted_runs_are_sound()
    ensures { AcceptedRunsAreSound }
{}

/// No move of such a run misuses a definition, over rules whose rows are those of the definitions of effects.
pub fn accepted_runs_misuse_nothing()
    ensures { NoRunMisuses }
{
    nothing_is_misused();
}

/// The definitions of each transaction of such a run share a version, of those that ended and of those in progress.
pub fn accepted_runs_are_version_consistent()
    ensures { TransactionsShareAVersion }
{
    transactions_share_a_version();
}
