//! What ties the points of code to those of trees, as the contract of a call that does nothing.

ghost use Rattle.code_points.specs.PointLaws.{CodeHasPointsOfTree, CodeGoesAlongSkeleton, PointsAreNumbered, StepsGoAlongWays};

/// A function's code has the points of its tree, in order, each in as many transactions; they are numbered from the entry
/// on, one after the other. Control may go from one of them to another without a point between exactly where the skeleton
/// of the body says so, if no `break` or `continue` leads out of the body. The steps of any code go along its ways.
pub fn code_has_points_of_trees()
    ensures points { CodeHasPointsOfTree }
    ensures numbers { PointsAreNumbered }
    ensures ways { CodeGoesAlongSkeleton }
    ensures steps { StepsGoAlongWays }
{}
