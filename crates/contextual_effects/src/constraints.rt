//! The edges of each system of constraints.
ghost use Rattle.std.specs.Prelude.{◌≡◌, ◌+◌, ◌^◌, ◌<◌, ◌++◌, length, slice_get, IfOk, OnOk};
ghost use Rattle.std.specs.Option.{option_to_list};
ghost use Rattle.contextual_effects.specs.Edges.{is_inside, goes_on, enters, continues, edge_if, present, standard_of_point, nested_of_point, prior_of_point, future_of_point, concrete_of_point, of_point, prior_of_way, back_of_way, of_way, edges_of_points, edges_of_ways, edges_of};
ghost use Rattle.contextual_effects.specs.Steps.{Numbers};

use crate::nodes::Nodes;
use effect_flow::{Flow, FlowPoint, Way};
use name_sets::NameSet;
use set_constraints::{Edge, Order};
use std::alloc::{AllocError, Global};

/// What is asked for: the standard effects of functions, which functions are nested, or a kind of effect of points.
#[derive(Clone, Copy)]
pub(crate) enum System {
    Standard,
    Nested,
    Prior,
    Future,
    Concrete,
}

/// The point at a place.
fn point_at(points: &[FlowPoint], place: usize) -> Option<FlowPoint>
    ensures { result ≡ slice_get points.now place }
{
    points.get(place).copied()
}

/// Whether a transaction encloses the point, in the text or at a call of its function.
fn is_inside(nested: &NameSet, point: &FlowPoint) -> bool
    ensures { result ≡ is_inside nested.now point.now }
{
    point.point.is_enclosed() || nested.holds(point.function)
}

/// Whether the point isn't the end of an outermost transaction.
fn goes_on(nested: &NameSet, point: &FlowPoint) -> bool
    ensures { result ≡ goes_on nested.now point.now }
{
    !point.point.is_outer_end() || nested.holds(point.function)
}

/// Whether the point is the entry of a nested function.
fn enters(nested: &NameSet, point: &FlowPoint) -> bool
    ensures { result ≡ enters nested.now point.now }
{
    point.number == 0 && nested.holds(point.function)
}

/// Whether a body goes on at a place.
fn continues_at(points: &[FlowPoint], place: usize) -> bool
    ensures { result ≡ continues (slice_get points.now place) }
{
    match point_at(points, place) {
        Some(point) => point.number != 0,
        None => false,
    }
}

/// The edge between two nodes, if both are there and a condition holds.
fn edge_if(condition: bool, from: Option<usize>, to: Option<usize>) -> Option<Edge>
    ensures { result ≡ edge_if condition from to }
{
    if !condition {
        return None;
    }
    match (from, to) {
        (Some(from), Some(to)) => Some(Edge { from, to }),
        _ => None,
    }
}

/// To the set of a function: the names that its bodies use, and the sets of the functions that they call.
fn standard_of_point(nodes: &Nodes, point: &FlowPoint) -> [Option<Edge>; 4]
    ensures { result ≡ standard_of_point nodes.now.points nodes.now.names point.now }
{
    let own = nodes.whole(Some(point.function));
    [
        edge_if(true, nodes.name(point.point.kind.used()), own),
        edge_if(true, nodes.whole(point.point.kind.called()), own),
        None,
        None,
    ]
}

/// To a function that is called: from the caller, and from the transactions where one encloses the call.
fn nested_of_point(nodes: &Nodes, point: &FlowPoint) -> [Option<Edge>; 4]
    ensures { result ≡ nested_of_point nodes.now.names point.now }
{
    let own = nodes.alone(Some(point.function));
    let called = nodes.alone(point.point.kind.called());
    [
        edge_if(true, own, called),
        edge_if(point.point.is_enclosed(), Some(nodes.names), called),
        None,
        None,
    ]
}

/// To the entry of a nested function: its name, and the set of its calls. To the set of the calls: from a call inside.
fn prior_of_point(
    nodes: &Nodes,
    nested: &NameSet,
    place: usize,
    point: &FlowPoint,
) -> [Option<Edge>; 4]
    ensures { result ≡ prior_of_point nodes.now.points nodes.now.names nested.now place point.now }
{
    let enters = enters(nested, point);
    let called = nodes.calls(point.point.kind.called());
    [
        edge_if(enters, nodes.name(Some(point.function)), Some(place)),
        edge_if(enters, nodes.calls(Some(point.function)), Some(place)),
        edge_if(is_inside(nested, point), Some(place), called),
        None,
    ]
}

/// To a point that goes on: what is used there, and the set of the function that is called there. To a return: the set
/// of the calls of its function. To the set of the calls: from the point after a call.
fn future_of_point(
    nodes: &Nodes,
    nested: &NameSet,
    points: &[FlowPoint],
    place: usize,
    point: &FlowPoint,
) -> [Option<Edge>; 4]
    requires { place + 1 < 2 ^ 64 }
    ensures { result ≡ future_of_point nodes.now.points nodes.now.names nested.now points.now place point.now }
{
    let goes = goes_on(nested, point);
    let continues = continues_at(points, place + 1);
    [
        edge_if(goes, nodes.name(point.point.kind.used()), Some(place)),
        edge_if(goes, nodes.whole(point.point.kind.called()), Some(place)),
        edge_if(
            point.point.kind.is_return(),
            nodes.calls(Some(point.function)),
            Some(place),
        ),
        edge_if(
            continues,
            Some(place + 1),
            nodes.calls(point.point.kind.called()),
        ),
    ]
}

/// The same where each point goes on and what is called is left out.
fn concrete_of_point(
    nodes: &Nodes,
    points: &[FlowPoint],
    place: usize,
    point: &FlowPoint,
) -> [Option<Edge>; 4]
    requires { place + 1 < 2 ^ 64 }
    ensures { result ≡ concrete_of_point nodes.now.points nodes.now.names points.now place point.now }
{
    let returns = point.point.kind.is_return();
    let continues = continues_at(points, place + 1);
    [
        edge_if(true, nodes.name(point.point.kind.used()), Some(place)),
        None,
        edge_if(returns, nodes.calls(Some(point.function)), Some(place)),
        edge_if(
            continues,
            Some(place + 1),
            nodes.calls(point.point.kind.called()),
        ),
    ]
}

/// To the point at the end of a way, if it is inside: from the point at its beginning, what is used there, and the set of
/// the function that is called there.
fn prior_of_way(
    nodes: &Nodes,
    nested: &NameSet,
    way: Way,
    from: &FlowPoint,
    to: &FlowPoint,
) -> [Option<Edge>; 3]
    ensures { result ≡ prior_of_way nodes.now.points nodes.now.names nested.now way from.now to.now }
{
    let inside = is_inside(nested, to);
    [
        edge_if(inside, Some(way.from), Some(way.to)),
        edge_if(inside, nodes.name(from.point.kind.used()), Some(way.to)),
        edge_if(inside, nodes.whole(from.point.kind.called()), Some(way.to)),
    ]
}

/// Against a way, if control goes on at its beginning.
fn back_of_way(goes: bool, way: Way) -> [Option<Edge>; 3]
    ensures { result ≡ back_of_way goes way }
{
    [edge_if(goes, Some(way.to), Some(way.from)), None, None]
}

impl System {
    /// The order in which most edges lead.
    pub(crate) fn order(self) -> Order {
        match self {
            System::Prior => Order::Rising,
            _ => Order::Falling,
        }
    }

    /// The edges of a point, which is at a place.
    fn of_point(
        self,
        nodes: &Nodes,
        nested: &NameSet,
        points: &[FlowPoint],
        place: usize,
        point: &FlowPoint,
    ) -> [Option<Edge>; 4]
        requires { place + 1 < 2 ^ 64 }
        ensures { result ≡ of_point self nodes.now.points nodes.now.names nested.now points.now place point.now }
    {
        match self {
            System::Standard => standard_of_point(nodes, point),
            System::Nested => nested_of_point(nodes, point),
            System::Prior => prior_of_point(nodes, nested, place, point),
            System::Future => future_of_point(nodes, nested, points, place, point),
            System::Concrete => concrete_of_point(nodes, points, place, point),
        }
    }

    /// The edges of a way. One whose ends are no points has none.
    fn of_way(
        self,
        nodes: &Nodes,
        nested: &NameSet,
        points: &[FlowPoint],
        way: Way,
    ) -> [Option<Edge>; 3]
        ensures { result ≡ of_way self nodes.now.points nodes.now.names nested.now points.now way }
    {
        let Some(from) = point_at(points, way.from) else {
            return [None; 3];
        };
        let Some(to) = point_at(points, way.to) else {
            return [None; 3];
        };
        match self {
            System::Standard | System::Nested => [None; 3],
            System::Prior => prior_of_way(nodes, nested, way, &from, &to),
            System::Future => back_of_way(goes_on(nested, &from), way),
            System::Concrete => back_of_way(true, way),
        }
    }

    /// Adds the edges of all points.
    fn add_points(
        self,
        edges: &mut Vec<Edge>,
        nodes: &Nodes,
        nested: &NameSet,
        points: &[FlowPoint],
    ) -> Result<(), AllocError>
        requires { length points.now ≡ nodes.now.points }
        ensures { OnOk result (edges.new.items ≡ edges.old.items
            ++ edges_of_points self nodes.now.points nodes.now.names nested.now points.now points.now) }
    {
        for (place, point) in points.iter().enumerate() {
            let found = self.of_point(nodes, nested, points, place, point);
            add_present(edges, &found)?;
        }
        Ok(())
    }

    /// Adds the edges of all ways.
    fn add_ways(
        self,
        edges: &mut Vec<Edge>,
        nodes: &Nodes,
        nested: &NameSet,
        points: &[FlowPoint],
        ways: &[Way],
    ) -> Result<(), AllocError>
        ensures { OnOk result (edges.new.items ≡ edges.old.items
            ++ edges_of_ways self nodes.now.points nodes.now.names nested.now points.now ways.now) }
    {
        for way in ways {
            add_present(edges, &self.of_way(nodes, nested, points, *way))?;
        }
        Ok(())
    }

    /// The edges of a flow.
    pub(crate) fn edges(
        self,
        alloc: Global,
        nodes: &Nodes,
        nested: &NameSet,
        flow: &Flow,
    ) -> Result<Vec<Edge>, AllocError>
        requires { Numbers nodes.now.points nodes.now.names flow.now }
        ensures { IfOk result (λ edges. edges.items ≡ edges_of self nodes.now.points nodes.now.names nested.now flow.now) }
    {
        let mut edges = Vec::new(alloc);
        self.add_points(&mut edges, nodes, nested, flow.points())?;
        self.add_ways(&mut edges, nodes, nested, flow.points(), flow.ways())?;
        Ok(edges)
    }
}

/// Adds an edge, if it is there.
fn add(edges: &mut Vec<Edge>, edge: Option<Edge>) -> Result<(), AllocError>
    ensures { OnOk result (edges.new.items ≡ edges.old.items ++ option_to_list edge) }
{
    if let Some(edge) = edge {
        edges.push(edge)?;
    }
    Ok(())
}

/// Adds the edges that are there.
fn add_present(edges: &mut Vec<Edge>, found: &[Option<Edge>]) -> Result<(), AllocError>
    ensures { OnOk result (edges.new.items ≡ edges.old.items ++ present found.now) }
{
    for edge in found {
        add(edges, *edge)?;
    }
    Ok(())
}
