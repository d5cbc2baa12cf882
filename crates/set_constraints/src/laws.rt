//! What shows that the definition of the least sets says what is meant: the call does nothing, and its contract is the
//! law.
ghost use Rattle.set_constraints.specs.Laws.{ContainsSeeds, MeetsEdges, IsLeast};

/// The sets of reached names contain the seeds and meet each edge, and each family of sets that does contains them.
pub fn sets_are_least()
    ensures seeds { ContainsSeeds }
    ensures edges { MeetsEdges }
    ensures least { IsLeast }
{}
