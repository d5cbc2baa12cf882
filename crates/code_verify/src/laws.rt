ghost use Rattle.code_kinds.specs.WellFormed.{FunctionCode};
ghost use Rattle.code_verify.specs.Laws.{Excludes, IsOnce};

/// A body is well formed, or one instruction is the first that breaks it; not both, and no two.
pub fn a_body_breaks_at_one_place()
    ensures excludes { (u : FunctionCode) → Excludes u }
    ensures once { (u : FunctionCode) → IsOnce u }
{}
