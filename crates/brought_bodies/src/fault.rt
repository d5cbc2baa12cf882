//! Why a text's bodies aren't given.
use skeleton_gen::SkeletonFault;
use std::alloc::AllocError;

/// Why a text's bodies aren't given.
#[derive(Clone, Copy, Debug, PartialEq, Eq)]
pub enum BodyFault {
    /// A function of the text, or a name that one uses, isn't in the table of names.
    Unknown,
    /// There was no memory, or a function has 2^32 points or more.
    Memory,
}

impl From<AllocError> for BodyFault {
    ghost use Rattle.std.specs.Prelude.{◌≡◌};
    ghost use Rattle.brought_bodies.specs.declared.fault.BodyFault.TheVariants.{Memory};

    ghost from_gives = { λ _ fault. fault ≡ Memory };

    fn from(_: AllocError) -> BodyFault {
        BodyFault::Memory
    }
}

impl From<SkeletonFault> for BodyFault {
    ghost use Rattle.std.specs.Prelude.{◌≡◌};
    ghost use Rattle.brought_bodies.specs.Unknown.{fault_of};

    ghost from_gives = { λ skeleton fault. fault ≡ fault_of skeleton };

    fn from(fault: SkeletonFault) -> BodyFault {
        match fault {
            SkeletonFault::Unknown => BodyFault::Unknown,
            SkeletonFault::Memory => BodyFault::Memory,
        }
    }
}
