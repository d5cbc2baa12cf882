//! What accepted texts promise of bodies, each as the contract of a call that does nothing.

ghost use Rattle.frame_bodies.specs.AcceptedTexts.{TextsOfProgramsAreAccepted};
ghost use Rattle.frame_bodies.specs.ByUses.{ResolvedByUses};
ghost use Rattle.frame_bodies.specs.CalledFunctions.{CalledAreFunctions, SpawnedAreFunctions};
ghost use Rattle.frame_bodies.specs.Ends.{AcceptedLeaveAtEnds};
ghost use Rattle.frame_bodies.specs.FramesOfTexts.{FramesHaveBodiesInForce, FramesHaveBodiesOfTexts};
ghost use Rattle.frame_bodies.specs.InForce.{EachHasABody, LaterTextsLeave};
ghost use Rattle.frame_bodies.specs.Shapes.{BeginsAndEnds, EachDepthFollows, EachGoesOn};
ghost use Rattle.frame_bodies.specs.Unchanged.{OldBodiesStay};

/// The text of a program that is accepted is an accepted one.
pub fn texts_of_programs_are_accepted()
    ensures { TextsOfProgramsAreAccepted }
{}

/// Definitions that agree with a text on the names that a function uses directly resolve it as the text does.
pub fn bodies_resolve_by_their_uses()
    ensures { ResolvedByUses }
{}

/// A function of a newer text that brings no new body has the definition and the resolved body that it had.
pub fn old_bodies_stay()
    ensures { OldBodiesStay }
{}

/// The last body of a function that was brought by a version has the skeleton that the function has in that version's text.
pub fn bodies_in_force_are_those_of_texts()
    ensures { EachHasABody }
{}

/// Later texts change neither which body is in force in a version nor the text of the version.
pub fn later_texts_leave_bodies()
    ensures { LaterTextsLeave }
{}

/// The body of a frame is that of its function in the text of its version, and its skeleton is that of the body in force.
pub fn frames_have_bodies_in_force()
    ensures texts { FramesHaveBodiesOfTexts }
    ensures bodies { FramesHaveBodiesInForce }
{}

/// In an accepted text no return, break or continue leads out of a transaction.
pub fn accepted_functions_leave_at_ends()
    ensures { AcceptedLeaveAtEnds }
{}

/// In an accepted text what is called and what is spawned is a function of the text.
pub fn accepted_functions_call_functions()
    ensures called { CalledAreFunctions }
    ensures spawned { SpawnedAreFunctions }
{}

/// A skeleton begins with the entry check-in and ends with the closing return, each in no transaction.
pub fn bodies_begin_and_end()
    ensures { BeginsAndEnds }
{}

/// From a stop that leads to a check-in control goes there alone, from a return nowhere, and from each other point somewhere.
pub fn each_point_goes_on()
    ensures { EachGoesOn }
{}

/// Control goes from a point only to points that as many transactions enclose as a thread is in after it; an end is in one, and
/// a return in none.
pub fn transactions_enclose_where_control_goes()
    ensures { EachDepthFollows }
{}
