//! What each flow of some bodies says of them, as the contract of a call that does nothing.

ghost use Rattle.effect_flow.specs.FlowLaws.{OnePoint, PlacesAreAll, PointsAreSites, WaysAreNext, WaysHaveEnds, FlowsStay};

/// Points of the bodies and places of the flow are in one to one correspondence, the flow has at each place what the
/// definitions of `effects` say of the point, and its ways are exactly the pairs of points that are next to each other.
/// Names that are added to the table change nothing.
pub fn flows_are_exact()
    ensures one_point { OnePoint }
    ensures places { PlacesAreAll }
    ensures points { PointsAreSites }
    ensures ways { WaysAreNext }
    ensures ends { WaysHaveEnds }
    ensures names { FlowsStay }
{}
