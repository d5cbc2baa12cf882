//! Copies of bodies.
ghost use Rattle.std.specs.Prelude.{◌≡◌, ◌↔◌, IfOk, IsTrue};
ghost use Rattle.version_copies.specs.SameBodies.{content_of, HaveSameBodies};

use code_store::StoredBody;
use dsu_io::List;
use skeletons::{Point, Skeleton};
use std::alloc::{AllocError, Global};

/// Copies of bodies, in their order.
pub(crate) fn copy_bodies(
    alloc: Global,
    bodies: &[StoredBody],
) -> Result<Vec<StoredBody>, AllocError>
    ensures { IfOk result (λ copies. HaveSameBodies bodies.now copies.items) }
{
    let mut copies = Vec::with_capacity(alloc, bodies.len())?;
    for body in bodies {
        let copy = copy_body(alloc, body)?;
        copies.push(copy)?;
    }
    Ok(copies)
}

/// A copy of a body.
fn copy_body(alloc: Global, body: &StoredBody) -> Result<StoredBody, AllocError>
    ensures { IfOk result (λ copy. content_of copy ≡ content_of body.now) }
{
    let points = Vec::from_slice(alloc, &body.skeleton.points)?;
    let next = Vec::from_clones(alloc, &body.skeleton.next)?;
    Ok(StoredBody {
        function: body.function,
        generation: body.generation,
        tokens: body.tokens,
        skeleton: Skeleton { points, next },
    })
}

/// Whether two lists have the same bodies in the same order.
pub(crate) fn same_bodies(bodies: &[StoredBody], others: &[StoredBody]) -> bool
    ensures { IsTrue result ↔ HaveSameBodies bodies.now others.now }
{
    let many = bodies.len();
    if many != others.len() {
        return false;
    }
    for index in 0..many {
        if !same_body(&bodies[index], &others[index]) {
            return false;
        }
    }
    true
}

/// Whether two bodies are the same.
fn same_body(body: &StoredBody, other: &StoredBody) -> bool
    ensures { IsTrue result ↔ (content_of body.now ≡ content_of other.now) }
{
    if body.function.index() != other.function.index() {
        return false;
    }
    if body.generation != other.generation {
        return false;
    }
    if body.tokens != other.tokens {
        return false;
    }
    same_code(&body.skeleton, &other.skeleton)
}

/// Whether two skeletons have the same points and the same ways.
fn same_code(code: &Skeleton, other: &Skeleton) -> bool
    ensures { IsTrue result
        ↔ ((code.now.points.items ≡ other.now.points.items) × (code.now.next.items ≡ other.now.next.items)) }
{
    if !same_points(&code.points, &other.points) {
        return false;
    }
    same_ways(&code.next, &other.next)
}

/// Whether two lists have the same points in the same order.
fn same_points(points: &[Point], others: &[Point]) -> bool
    ensures { IsTrue result ↔ (points.now ≡ others.now) }
{
    let many = points.len();
    if many != others.len() {
        return false;
    }
    for index in 0..many {
        if !same_point(points[index], others[index]) {
            return false;
        }
    }
    true
}

/// Whether two points are the same.
fn same_point(point: Point, other: Point) -> bool
    ensures { IsTrue result ↔ (point ≡ other) }
{
    point == other
}

/// Whether two lists have the same ways from each point.
fn same_ways(ways: &[List<u32>], others: &[List<u32>]) -> bool
    ensures { IsTrue result ↔ (ways.now ≡ others.now) }
{
    ways == others
}
