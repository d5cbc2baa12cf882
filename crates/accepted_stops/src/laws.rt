//! What is known of the stops of accepted texts, each as the contract of a call that does nothing but cite what it rests on.

ghost use Rattle.accepted_stops.specs.FittingCode.{AcceptedCodeFits, AcceptedNamesAreFew, AcceptedStructsAreSmall};

use accepted_code::accepted_functions_have_fine_code;

/// Each instruction of the code of an accepted text fits the text and the code.
pub fn accepted_code_fits()
    ensures { AcceptedCodeFits }
{
    accepted_functions_have_fine_code();
}

/// An accepted text has a function `main`, and no more mutexes or tags than a text may have names.
pub fn accepted_names_are_few()
    ensures { AcceptedNamesAreFew }
{}

/// What an accepted text defines as the name of a struct is a struct, with no more members than an object may have fields.
pub fn accepted_structs_are_small()
    ensures { AcceptedStructsAreSmall }
{}
