//! What ties types to local evaluation, as the contract of a call that does nothing.

ghost use Rattle.typed_trees.specs.TypeLaws.{BodiesGoOn, LocalEvaluationKeepsTypes};

/// From well-typed values and variables, pending pieces come to a stop that has what it takes, or to an operator's trap;
/// they never lack a value or a variable. A body does so from arguments of its parameters' types.
pub fn local_evaluation_keeps_types()
    ensures local { LocalEvaluationKeepsTypes }
    ensures bodies { BodiesGoOn }
{}
