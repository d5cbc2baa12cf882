//! What accepted texts promise of their bodies, each as the contract of a call that does nothing.

ghost use Rattle.accepted_bodies.specs.BodyRoom.{AcceptedTextsHaveRoom};
ghost use Rattle.accepted_bodies.specs.DefinedUses.{AcceptedTextsAreKnown, AcceptedTextsDefineEachUse};

/// No function of an accepted text uses a name at its points that the text doesn't define. So where a table has the names of the
/// text, it has each function of the text and each name that one uses.
pub fn accepted_texts_define_each_use()
    ensures each { AcceptedTextsDefineEachUse }
    ensures known { AcceptedTextsAreKnown }
{}

/// A store has room for the bodies of an accepted text as the first version: the text has at most 65,536 tokens, and three of them
/// make two check-ins at most.
pub fn accepted_texts_have_room()
    ensures { AcceptedTextsHaveRoom }
{}
