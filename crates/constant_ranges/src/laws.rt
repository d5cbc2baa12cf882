//! What is known of constants, as the contract of a call that does nothing.

ghost use Rattle.constant_ranges.specs.Ranges.{ConstantsAreInRange};

/// Each constant in the resolved body of a function of an accepted text is in the range of its kind.
pub fn constants_are_in_range()
    ensures { ConstantsAreInRange }
{}
