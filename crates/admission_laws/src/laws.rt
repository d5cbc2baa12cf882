//! What the admission test promises of a run, each as the contract of a call that does nothing but cite what it rests on.

ghost use Rattle.admission_laws.specs.AdmissionLaws.{EachPointIsCovered, EachStartIsMarked, EachThreadStands, NothingIsMisused, RecordedArePrior, TransactionsShareAVersion, UsesAreConcrete};
ghost use Rattle.admission_laws.specs.RefusalLaws.{AnsweredRefusalsNameTheLeast, RefusalsNameTheLeast};
ghost use Rattle.admission_laws.specs.TransactionLaws.{AheadIsFuture, DeepIsInside, KnownIsPrior, LeftEntriesFollow, RecordsStayConsistent, VersionedIsConsistent};

use c_semantics::frames_go_along_skeletons;
use con_freeness::{least_slot_refuses, rows_admit_without_obstacle};

/// At each moment of a run, the point at which the innermost frame of a live thread stands is covered by the mark of its row
/// in force. For a thread that was started and hasn't entered its function, the row of the start is in force.
pub fn threads_are_covered()
    ensures stands { EachThreadStands }
    ensures covered { EachPointIsCovered }
    ensures started { EachStartIsMarked }
{
    frames_go_along_skeletons();
    least_slot_refuses();
}

/// What the active frames of a thread may still use directly is in the concrete effect of the point where it stands.
pub fn uses_are_concrete()
    ensures { UsesAreConcrete }
{}

/// No move of a run misuses a definition: neither one that is gone, nor one at another interface than that of the version on
/// whose behalf it is used.
pub fn nothing_is_misused()
    ensures { NothingIsMisused }
{
    frames_go_along_skeletons();
    least_slot_refuses();
}

/// The definitions that a transaction uses share a version: in a world that a run comes to, those of each record, of the
/// transactions that ended and of those in progress, also of a run that has ended.
pub fn transactions_share_a_version()
    ensures { TransactionsShareAVersion }
{
    frames_go_along_skeletons();
    least_slot_refuses();
}

/// What a thread may still use in its transaction is in the future effect of its point, and what it recorded is in the prior
/// effect of each next point; so as long as a run goes on it is in the prior set of the thread's row in force.
pub fn transactions_are_in_their_effects()
    ensures ahead { AheadIsFuture }
    ensures inside { DeepIsInside }
    ensures recorded { KnownIsPrior }
    ensures rows { RecordedArePrior }
{
    frames_go_along_skeletons();
    least_slot_refuses();
}

/// A record that is consistent stays so at each install; entries that are current, of names that a text doesn't change, are
/// current after it. A record so versioned is consistent.
pub fn records_stay_consistent()
    ensures stay { RecordsStayConsistent }
    ensures follow { LeftEntriesFollow }
    ensures versioned { VersionedIsConsistent }
{}

/// A refusal names the least slot whose row doesn't admit the patch, and the least names by bytes for which it doesn't, those
/// that active code uses first. So does each refusal that a run answers, by the rows in force when it decided the offer, and
/// by what the offered text changes of the text in force then.
pub fn refusals_name_the_least()
    ensures verdicts { RefusalsNameTheLeast }
    ensures answers { AnsweredRefusalsNameTheLeast }
{
    least_slot_refuses();
    rows_admit_without_obstacle();
}
