//! What returns give, as the contract of a call that does nothing.

ghost use Rattle.returned_ints.specs.ReturnedInts.{ReturnsAreInts};

/// Where a function returns whose result is an int, its newest value is one, with a number in the range of int.
pub fn returns_are_ints()
    ensures { ReturnsAreInts }
{}
