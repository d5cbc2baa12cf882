//! What an accepted text promises of its functions and expressions, as the contracts of calls that do nothing.

ghost use Rattle.typed_texts.specs.TypedTexts.{ExpressionsHaveOneType, FunctionsAreTyped};

/// The body of each function of an accepted text is a typed tree.
pub fn functions_are_typed()
    ensures { FunctionsAreTyped }
{}

/// Each expression of an accepted text has one type: the one that the rules of types find, to which it is resolved, and that its
/// tree has.
pub fn expressions_have_one_type()
    ensures { ExpressionsHaveOneType }
{}
