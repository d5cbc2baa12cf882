//! What the definitions promise, each as the contract of a call that does nothing.

ghost use Rattle.patch_faults.specs.TransformLaws.{CellsHaveTypes, FieldsHaveTypes, FirstIsLeast, GlobalsAreAsFound, GlobalsConvert, NoneWhereNone, ObjectsAreAsFound, ObjectsConvert};

/// Where the old values have the types of the old text, each field of a new object and each cell of a new global has its type
/// of the new text, with a transformer and without one.
pub fn transformed_values_have_their_types()
    ensures fields { FieldsHaveTypes }
    ensures cells { CellsHaveTypes }
{}

/// The fault that is reported is one of the faults of the text's transformers, and none of them is before it. Where none is
/// reported, there is none.
pub fn first_fault_is_least()
    ensures first { FirstIsLeast }
    ensures none { NoneWhereNone }
{}

/// The value of a transformer's expression is one of the type that the expression is found to have, where `old` has the types of
/// the old text; and where it has no fault, it is converted as by assignment. So in texts that fit, the values that are defined
/// for operands and conversions that don't fit are never met.
pub fn faultless_values_have_their_types()
    ensures objects { ObjectsAreAsFound }
    ensures globals { GlobalsAreAsFound }
    ensures objects_convert { ObjectsConvert }
    ensures globals_convert { GlobalsConvert }
{}
