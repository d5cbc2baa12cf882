//! Why a text has no first version.
use brought_bodies::BodyFault;
use std::alloc::AllocError;

/// Why a text has no first version.
#[derive(Clone, Copy, Debug, PartialEq, Eq)]
pub enum FirstFault {
    /// A function of the text uses a name that the text doesn't define.
    UndefinedName,
    /// The functions of the text have more check-ins or more tokens than a store has room for.
    StoreFull,
    /// There was no memory, or a function has 2^32 points or more.
    Memory,
}

impl From<AllocError> for FirstFault {
    ghost use Rattle.std.specs.Prelude.{◌≡◌};
    ghost use Rattle.installed_versions.specs.declared.fault.FirstFault.TheVariants.{Memory};

    ghost from_gives = { λ _ fault. fault ≡ Memory };

    fn from(_: AllocError) -> FirstFault {
        FirstFault::Memory
    }
}

impl From<BodyFault> for FirstFault {
    ghost use Rattle.std.specs.Prelude.{◌≡◌};
    ghost use Rattle.installed_versions.specs.Firsts.{fault_of};

    ghost from_gives = { λ bodies fault. fault ≡ fault_of bodies };

    fn from(fault: BodyFault) -> FirstFault {
        match fault {
            BodyFault::Unknown => FirstFault::UndefinedName,
            BodyFault::Memory => FirstFault::Memory,
        }
    }
}
