//! What ties code to local evaluation, as the contract of a call that does nothing.

ghost use Rattle.tree_code.specs.CodeLaws.{CodeDoesLocalEvaluation, CodeGoesOnAfterStops, EnteredFramesMatch};

/// A frame of code that matches one of the source machine comes to the same stop, with the same operands and the same
/// variables, and matches there; or it comes to the same trap. From after the stop, and after its check-in where it has
/// one, the code goes on with what comes after it. A function that is entered matches after its entry check-in.
pub fn code_does_what_trees_do()
    ensures local { CodeDoesLocalEvaluation }
    ensures resumed { CodeGoesOnAfterStops }
    ensures entered { EnteredFramesMatch }
{}
