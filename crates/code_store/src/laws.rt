//! What each store says of the bodies of the definitions, as the contract of a call that does nothing.

ghost use Rattle.code_store.specs.StoreLaws.{StoresStay, UsesAreDirect};

/// Names that are added to the table change nothing, and the texts of the ids that a function's bodies use are the direct
/// uses of the bodies.
pub fn stores_are_exact()
    ensures names { StoresStay }
    ensures uses { UsesAreDirect }
{}
