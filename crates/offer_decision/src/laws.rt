//! That a decision says what the definitions decide, as the contracts of calls that do nothing.
ghost use Rattle.offer_decision.specs.Laws.{NoPatchIsDecided, RefusalIsDecided, AdmissionIsDecided, RefusalsStay};

/// At a guard whose versions and seats a decision is about, the definitions decide what it says.
pub fn decisions_are_decided()
    ensures no_patch { NoPatchIsDecided }
    ensures refusal { RefusalIsDecided }
    ensures admission { AdmissionIsDecided }
{}

/// A refusal whose ids a table has means the same where the table has more names.
pub fn refusals_stay()
    ensures { RefusalsStay }
{}
