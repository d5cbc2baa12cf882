//! What the definition of the texts promises, as the contract of a call that does nothing.
ghost use Rattle.program_gen.specs.Laws.{CallsAreDefined};

/// Each function but the first calls an earlier one, and main calls functions of the program only.
pub fn calls_are_defined()
    ensures { CallsAreDefined }
{}
