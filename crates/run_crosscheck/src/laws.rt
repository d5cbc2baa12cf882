//! What a comparison says, as the contracts of calls that do nothing.

ghost use Rattle.run_crosscheck.specs.ComparisonLaws.{AgreementIsEquality, DifferencesAreFirst};

/// Two lists of bytes have no first difference exactly where they are equal.
pub fn agreement_is_equality()
    ensures { AgreementIsEquality }
{}

/// Before their first difference two lists of bytes are the same, and there they aren't.
pub fn differences_are_first()
    ensures { DifferencesAreFirst }
{}
