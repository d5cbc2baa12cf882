//! What equal stores have in common, as the contract of a call that does nothing.
ghost use Rattle.version_copies.specs.SameBodies.{SameMeaning, SameStores, SameWithMore};

/// Lists with the same bodies mean the same bodies of the definitions, and are stores of the same bodies; with some more bodies they
/// still have the same.
pub fn copies_serve()
    ensures meaning { SameMeaning }
    ensures stores { SameStores }
    ensures more { SameWithMore }
{}
