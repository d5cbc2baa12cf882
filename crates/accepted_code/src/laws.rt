//! What is known of the code of accepted texts, each as the contract of a call that does nothing but cite what it rests on.

ghost use Rattle.accepted_code.specs.AcceptedCode.{CodeIsThatOfFunctions, CodeIsVerified, FunctionsHaveFineCode};

use constant_ranges::constants_are_in_range;
use formed_code::code_is_well_formed;
use frame_bodies::accepted_functions_leave_at_ends;
use tree_limits::limits_of_texts_are_enough;
use typed_texts::functions_are_typed;

/// The code of each function of an accepted text is well formed, and does what the function's tree does.
pub fn accepted_functions_have_fine_code()
    ensures { FunctionsHaveFineCode }
{
    accepted_functions_leave_at_ends();
    code_is_well_formed();
    constants_are_in_range();
    functions_are_typed();
    limits_of_texts_are_enough();
}

/// No instruction breaks it, so the verifier can only run out of memory.
pub fn accepted_code_is_verified()
    ensures { CodeIsVerified }
{
    accepted_functions_have_fine_code();
}

/// The code of an accepted text is that of its functions: each body is that of the function with its name, and each function
/// is found by its name.
pub fn code_of_texts_is_that_of_their_functions()
    ensures { CodeIsThatOfFunctions }
{}
