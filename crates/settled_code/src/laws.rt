//! What holds of settled states by their definition.
ghost use Rattle.settled_code.specs.Laws.{BurstsSettle, SoundCodeSettles};

/// A burst ends in the settled state: there is one end of private instructions, however they are executed. It does nothing.
pub fn bursts_come_to_settled_states()
    ensures { BurstsSettle }
{}

/// From each place of code whose heights are right, with a stack of that height, a burst comes to the settled state. It does nothing.
pub fn sound_code_settles()
    ensures { SoundCodeSettles }
{}
