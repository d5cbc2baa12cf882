//! What ties local evaluation and places to skeletons, each as the contract of a call that does nothing.

ghost use Rattle.c_semantics.specs.SkeletonLaws.{DepthIsLexical, EachHasAPlace, EachHasItsWays, GoesAlong, WaysAscend};

/// Local evaluation stops only at points of the body's skeleton to which control may go from the point before, with a
/// check-in after exactly where the skeleton has one; and each stop is in the transactions that enclose it in the text.
pub fn frames_go_along_skeletons()
    ensures along { GoesAlong }
    ensures depth { DepthIsLexical }
{}

/// A skeleton lists for each of its points in ascending order where control may go from it, and each has a place in the
/// text.
pub fn each_point_has_ways_and_a_place()
    ensures ways { EachHasItsWays }
    ensures ascend { WaysAscend }
    ensures place { EachHasAPlace }
{}
