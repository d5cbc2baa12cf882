//! What is decided, or why nothing is.
use con_freeness::Refusal;
use dsu_runs::Undecided;
use patch_build::Patch;
use source_model::NotPatch;
use std::alloc::AllocError;

/// What is decided on an offer.
#[derive(Drop)]
pub enum Decision {
    /// The text may be installed: what the install needs, and of which slots the thread is pinned after it.
    Admitted(Patch, [bool; 16]),
    /// A row in force doesn't admit the text. The ids are those of the names of the versions so far.
    Refused(Refusal),
    /// The text isn't a patch of the versions so far, for this first cause.
    NotPatch(NotPatch),
}

/// Why nothing is decided.
#[derive(Clone, Copy, Debug, PartialEq, Eq)]
pub enum DecisionFault {
    /// A function of the text uses a name that the text doesn't define.
    UndefinedName,
    /// There was no memory, or a function has 2^32 points or more.
    Memory,
}

impl From<AllocError> for DecisionFault {
    ghost use Rattle.std.specs.Prelude.{◌≡◌};
    ghost use Rattle.offer_decision.specs.declared.answer.DecisionFault.TheVariants.{Memory};

    ghost from_gives = { λ _ fault. fault ≡ Memory };

    fn from(_: AllocError) -> DecisionFault {
        DecisionFault::Memory
    }
}

impl From<DecisionFault> for Undecided {
    ghost use Rattle.std.specs.Prelude.{◌≡◌};
    ghost use Rattle.offer_decision.specs.Faults.{undecided_by};

    ghost from_gives = { λ fault why. why ≡ undecided_by fault };

    fn from(fault: DecisionFault) -> Undecided {
        match fault {
            DecisionFault::UndefinedName => Undecided::UndefinedName,
            DecisionFault::Memory => Undecided::Memory,
        }
    }
}

/// What the test of the rows answers.
#[derive(Drop)]
pub(crate) enum Tested {
    /// The rows admit the patch: of which slots the thread is pinned after it.
    Admitted([bool; 16]),
    /// A row doesn't.
    Refused(Refusal),
}
