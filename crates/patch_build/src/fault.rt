//! Why there is no patch.
use brought_bodies::BodyFault;
use name_sets::NamesFault;
use patch_compare::CompareFault;
use patch_faults::TransformFault;
use source_model::NotPatch;
use std::alloc::AllocError;

/// Why there is no patch.
#[derive(Debug, Drop)]
pub enum PatchFault {
    /// The text isn't a patch, for this first cause.
    Not(NotPatch),
    /// A function of the text uses a name that the text doesn't define.
    UndefinedName,
    /// There was no memory.
    Memory,
}

impl From<AllocError> for PatchFault {
    ghost use Rattle.std.specs.Prelude.{◌≡◌};
    ghost use Rattle.patch_build.specs.declared.fault.PatchFault.TheVariants.{Memory};

    ghost from_gives = { λ _ fault. fault ≡ Memory };

    fn from(_: AllocError) -> PatchFault {
        PatchFault::Memory
    }
}

impl From<NamesFault> for PatchFault {
    ghost use Rattle.std.specs.Prelude.{◌≡◌};
    ghost use Rattle.patch_build.specs.Faults.{fault_of_names};

    ghost from_gives = { λ names fault. fault ≡ fault_of_names names };

    fn from(fault: NamesFault) -> PatchFault {
        match fault {
            NamesFault::Full => PatchFault::Not(NotPatch::Names),
            NamesFault::Memory => PatchFault::Memory,
        }
    }
}

impl From<CompareFault> for PatchFault {
    ghost use Rattle.std.specs.Prelude.{◌≡◌};
    ghost use Rattle.patch_build.specs.Faults.{fault_of_comparison};

    ghost from_gives = { λ comparison fault. fault ≡ fault_of_comparison comparison };

    fn from(fault: CompareFault) -> PatchFault {
        match fault {
            CompareFault::Kind(name) => PatchFault::Not(NotPatch::Kind(name)),
            CompareFault::Memory => PatchFault::Memory,
        }
    }
}

impl From<TransformFault> for PatchFault {
    ghost use Rattle.std.specs.Prelude.{◌≡◌};
    ghost use Rattle.patch_build.specs.Faults.{fault_of_transformer};

    ghost from_gives = { λ transformer fault. fault ≡ fault_of_transformer transformer };

    fn from(fault: TransformFault) -> PatchFault {
        match fault {
            TransformFault::NotChanged(place)
            | TransformFault::OldField(place)
            | TransformFault::Wrong(place) => PatchFault::Not(NotPatch::Transform(place)),
            TransformFault::Memory => PatchFault::Memory,
        }
    }
}

impl From<BodyFault> for PatchFault {
    ghost use Rattle.std.specs.Prelude.{◌≡◌};
    ghost use Rattle.patch_build.specs.Faults.{fault_of_bodies};

    ghost from_gives = { λ bodies fault. fault ≡ fault_of_bodies bodies };

    fn from(fault: BodyFault) -> PatchFault {
        match fault {
            BodyFault::Unknown => PatchFault::UndefinedName,
            BodyFault::Memory => PatchFault::Memory,
        }
    }
}
