//! What the admission test promises of a run, whatever was installed and when: no move misuses a definition, and the
//! definitions that a transaction uses share a version.
//!
//! It is definitions with their laws, above the source machine and the effects. The laws go over all legal journals, over
//! rules whose rows are those of the definitions of effects, and over texts of which is known what acceptance gives
//! (`specs/SoundTexts`). The invariant is said on points of the store, apart from trees: a thread's frames as a stack
//! of sites with what they may still use (`specs/Stacks`); the transactions that it is in, what it recorded there and may
//! still use until the outermost ends (`specs/Transactions`, `Closures`, `InTransactions`); where each thread stands and what
//! its mark covers (`specs/Standing`). `specs/AdmissionLaws` has the laws on runs, `specs/TransactionLaws` those on points,
//! `specs/RefusalLaws` what a refusal names, and the calls of `laws` carry them.
//!
//! The proof reads in this order: what a move makes (`proofs/Outcomes`, `Turns`), points and stacks (`PointFacts`,
//! `StackUses`, `LargerStores`, `Covering`, `Depths`), texts (`LaterTexts`, `Interfaces`, `RightUses`, `AdmittedRows`), what
//! is known of a thread in a transaction where it goes on (`RecordedNames`, `ClosureFacts`, `TransactionSteps`,
//! `TransactionMoves`) and where a patch is installed (`EntryVersions`, `InstallSteps`, `LaterTransactions`), records
//! (`WholeRecords`), where a thread stands after a stop, an enter and an install (`FrameSteps`, `Enters`, `LaterStands`),
//! slots and seats (`SeatsAfter`, `MovedSlots`, `MovesStand`), and the induction over the events (`EachEvent`, `Induction`,
//! `Covered`). Refusals stand apart (`NamedRefusals`, `AnsweredRefusals`, `RefusalExamples`).
#![tactic(auto)]

mod laws;

pub use laws::{
    nothing_is_misused, records_stay_consistent, refusals_name_the_least, threads_are_covered,
    transactions_are_in_their_effects, transactions_share_a_version, uses_are_concrete,
};
