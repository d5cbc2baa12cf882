//! What is known of the shapes of code, as the contract of a call that does nothing.

ghost use Rattle.formed_code.specs.FormedLaws.{CodeIsWellFormed};

/// A function's code is well formed, if its tree is typed, has room for its variables and for the words on its stack, and
/// leaves transactions at their ends.
pub fn code_is_well_formed()
    ensures formed { CodeIsWellFormed }
{}
