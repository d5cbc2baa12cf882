//! What the limits of a text mean for its code, as the contract of a call that does nothing.

ghost use Rattle.tree_limits.specs.LimitLaws.{RoomIsEnough, WordsAreFew};

/// The code of a body has at most one word more on its stack than the body's statements need, and a body's tree has room for
/// its variables where all that the text declares have.
pub fn limits_of_texts_are_enough()
    ensures few { WordsAreFew }
    ensures room { RoomIsEnough }
{}
