//! The edges of the system of constraints.
ghost use Rattle.std.specs.Prelude.{◌≡◌, ℕ, ◌+◌, ◌^◌, ◌<◌, ◌≤◌, ◌++◌, length, slice_get, IfOk, OnOk, OnSome};
ghost use Rattle.std.specs.Option.{option_to_list};
ghost use Rattle.contextual_effects.specs.Edges.{edge_if, present};
ghost use Rattle.contextual_effects.specs.Steps.{Numbers};
ghost use Rattle.checkin_rows.specs.Edges.{stays, landing, landing_after, of_point, of_way, of_ends, edges_of_points, edges_of_ways, edges_of};

use crate::nodes::Nodes;
use effect_flow::{Flow, FlowPoint, Way};
use set_constraints::Edge;
use std::alloc::{AllocError, Global};

/// The point at a place.
fn point_at(points: &[FlowPoint], place: usize) -> Option<FlowPoint>
    ensures point { result ≡ slice_get points.now place }
    ensures within { OnSome result (place < length points.now) }
{
    points.get(place).copied()
}

/// Whether control goes on from a point in its own body.
fn stays(point: &FlowPoint) -> bool
    ensures { result ≡ stays point.now.point.kind }
{
    if point.point.kind.is_return() {
        return false;
    }
    match point.point.kind.called() {
        Some(_) => false,
        None => true,
    }
}

/// The node of the point at a place where a body goes on.
fn landing_after(nodes: &Nodes, points: &[FlowPoint], place: usize) -> Option<usize>
    requires { length points.now ≡ nodes.now.points }
    ensures { result ≡ landing_after nodes.now.points place (slice_get points.now place) }
{
    match point_at(points, place) {
        Some(point) => {
            if point.number == 0 {
                None
            } else {
                Some(nodes.landing(place, &point))
            }
        }
        None => None,
    }
}

/// The edge between two nodes, if both are there and a condition holds.
fn edge_if(condition: bool, from: Option<usize>, to: Option<usize>) -> Option<Edge>
    ensures { result ≡ edge_if condition from to }
{
    if !condition {
        return None;
    }
    match (from, to) {
        (Some(from), Some(to)) => Some(Edge { from, to }),
        _ => None,
    }
}

/// To a call: from the entries of the function. To the entries and the starts of the point's function: from the point, if
/// it is an entry. To a return: from the points after the calls of its function. To the points after the calls: from the
/// one after a call.
fn of_point(
    nodes: &Nodes,
    points: &[FlowPoint],
    place: usize,
    point: &FlowPoint,
) -> [Option<Edge>; 5]
    requires many { length points.now ≡ nodes.now.points }
    requires within { place < nodes.now.points }
    ensures { result ≡ of_point nodes.now.points nodes.now.names points.now place point.now }
{
    let is_entry = point.number == 0;
    let is_return = point.point.kind.is_return();
    let landing = nodes.landing(place, point);
    let after = landing_after(nodes, points, place + 1);
    let returns = nodes.returns(point.point.kind.called());
    [
        edge_if(true, nodes.entries(point.point.kind.called()), Some(place)),
        edge_if(is_entry, Some(landing), nodes.entries(Some(point.function))),
        edge_if(is_return, nodes.returns(Some(point.function)), Some(place)),
        edge_if(true, after, returns),
        edge_if(
            is_entry,
            Some(nodes.end(place)),
            nodes.starts(Some(point.function)),
        ),
    ]
}

/// Against a way, if control goes on at its beginning. One whose ends are no points has none.
fn of_way(nodes: &Nodes, points: &[FlowPoint], way: Way) -> Option<Edge>
    requires { length points.now ≡ nodes.now.points }
    ensures { result
        ≡ of_ends nodes.now.points way (slice_get points.now way.from) (slice_get points.now way.to) }
{
    let from = point_at(points, way.from)?;
    let to = point_at(points, way.to)?;
    edge_if(
        stays(&from),
        Some(nodes.landing(way.to, &to)),
        Some(way.from),
    )
}

/// Adds an edge that is there.
fn add(edges: &mut Vec<Edge>, found: Option<Edge>) -> Result<(), AllocError>
    ensures { OnOk result (edges.new.items ≡ edges.old.items ++ option_to_list found) }
{
    if let Some(edge) = found {
        edges.push(edge)?;
    }
    Ok(())
}

/// Adds the edges that are there.
fn add_present(edges: &mut Vec<Edge>, found: &[Option<Edge>]) -> Result<(), AllocError>
    ensures { OnOk result (edges.new.items ≡ edges.old.items ++ present found.now) }
{
    for edge in found {
        add(edges, *edge)?;
    }
    Ok(())
}

/// Adds the edges of all points.
fn add_points(edges: &mut Vec<Edge>, nodes: &Nodes, points: &[FlowPoint]) -> Result<(), AllocError>
    requires { length points.now ≡ nodes.now.points }
    ensures { OnOk result (edges.new.items
        ≡ edges.old.items ++ edges_of_points nodes.now.points nodes.now.names points.now points.now) }
{
    for (place, point) in points.iter().enumerate() {
        let found = of_point(nodes, points, place, point);
        add_present(edges, &found)?;
    }
    Ok(())
}

/// Adds the edges of all ways.
fn add_ways(
    edges: &mut Vec<Edge>,
    nodes: &Nodes,
    points: &[FlowPoint],
    ways: &[Way],
) -> Result<(), AllocError>
    requires { length points.now ≡ nodes.now.points }
    ensures { OnOk result (edges.new.items
        ≡ edges.old.items ++ edges_of_ways nodes.now.points points.now ways.now) }
{
    for way in ways {
        add(edges, of_way(nodes, points, *way))?;
    }
    Ok(())
}

/// The edges of a flow.
pub(crate) fn edges(alloc: Global, nodes: &Nodes, flow: &Flow) -> Result<Vec<Edge>, AllocError>
    requires { Numbers nodes.now.points nodes.now.names flow.now }
    ensures { IfOk result (λ edges. edges.items ≡ edges_of nodes.now.points nodes.now.names flow.now) }
{
    let mut edges = Vec::new(alloc);
    add_points(&mut edges, nodes, flow.points())?;
    add_ways(&mut edges, nodes, flow.points(), flow.ways())?;
    Ok(edges)
}
