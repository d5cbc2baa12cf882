//! What the rules of a run are, as the contract of a call that does nothing.
ghost use Rattle.dsu_runs.specs.Rows.{RulesExist};

/// There are rules whose rows are those of the definitions of effects, so what contracts say of all such rules isn't empty.
pub fn rules_exist()
    ensures { RulesExist }
{}
