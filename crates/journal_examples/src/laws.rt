//! What the runs of examples come to, each as the contract of a call that does nothing but cite what it rests on.

ghost use Rattle.journal_examples.specs.PinnedRun.{TransactionKeepsItsVersion};

use effects::{each_mark_has_one_row, effects_grow};

/// A function that a transaction has used is replaced while the transaction is open, and what it uses from then on is of the
/// old version still; so a second replacement is refused, for the pinned thread, and is admitted after the transaction.
pub fn transaction_keeps_its_version()
    ensures { TransactionKeepsItsVersion }
{
    each_mark_has_one_row();
    effects_grow();
}
