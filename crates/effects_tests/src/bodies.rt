//! Bodies as tables of their points, and what is made of them. Names and functions go by the numbers of their ids.
use code_store::{Store, StoredBody};
use contextual_effects::{Effects, solve};
use dsu_io::List;
use effect_flow::Flow;
use name_sets::{NameId, NameSet};
use skeletons::{CheckInKind, Point, PointKind, Skeleton, Use};
use std::alloc::{AllocError, Global};
use std::process::Abort;
use std::test::Fail;

/// What a point is.
#[derive(Clone, Copy)]
pub(crate) enum Kind {
    After(CheckInKind),
    Uses(Use, usize),
    Print,
    Back,
    Begin,
    Update,
    End,
    Return,
}

/// Where control goes from a point.
#[derive(Clone, Copy)]
pub(crate) enum Next {
    /// To the point after it.
    On,
    /// To one of two points.
    Either(u32, u32),
    /// To no point.
    Out,
}

/// A point: what it is, its depth, and where control goes from it.
pub(crate) type Drawn = (Kind, u32, Next);

/// A body of a function.
pub(crate) struct Body {
    pub function: usize,
    pub generation: u32,
    pub points: &'static [Drawn],
}

fn kind_of(kind: Kind) -> Result<PointKind, Fail> {
    Ok(match kind {
        Kind::After(what) => PointKind::CheckIn(what),
        Kind::Uses(action, name) => PointKind::Uses(action, NameId::new(name).ok_or("an id")?),
        Kind::Print => PointKind::Print,
        Kind::Back => PointKind::Back,
        Kind::Begin => PointKind::Begin,
        Kind::Update => PointKind::Update,
        Kind::End => PointKind::End,
        Kind::Return => PointKind::Return,
    })
}

/// The points to which control goes from the point before the number `after`.
fn targets(alloc: Global, after: u32, next: Next) -> Result<Vec<u32>, AllocError> {
    match next {
        Next::On => Vec::from_slice(alloc, &[after]),
        Next::Either(first, second) => Vec::from_slice(alloc, &[first, second]),
        Next::Out => Ok(Vec::new(alloc)),
    }
}

/// The skeleton with these points.
pub(crate) fn skeleton(alloc: Global, drawn: &[Drawn]) -> Result<Skeleton, Fail> {
    let mut points = Vec::new(alloc);
    let mut next = Vec::new(alloc);
    let mut after: u32 = 0;
    for (kind, depth, way) in drawn {
        after = after.wrapping_add(1);
        let kind = kind_of(*kind)?;
        points.push(Point {
            kind,
            depth: *depth,
        })?;
        next.push(List::of(targets(alloc, after, *way)?))?;
    }
    Ok(Skeleton { points, next })
}

/// The skeleton of a function that writes a global.
pub(crate) fn writer(alloc: Global, global: usize) -> Result<Skeleton, Fail> {
    let points = [
        (Kind::After(CheckInKind::Entry), 0, Next::On),
        (Kind::Uses(Use::WriteGlobal, global), 0, Next::On),
        (Kind::Return, 0, Next::Out),
    ];
    skeleton(alloc, &points)
}

/// These bodies, of one token each.
pub(crate) fn bodies_of(alloc: Global, drawn: &[Body]) -> Result<Vec<StoredBody>, Fail> {
    let mut bodies = Vec::new(alloc);
    for body in drawn {
        bodies.push(StoredBody {
            function: NameId::new(body.function).ok_or("an id")?,
            generation: body.generation,
            tokens: 1,
            skeleton: skeleton(alloc, body.points)?,
        })?;
    }
    Ok(bodies)
}

/// The flow of some bodies, in their order.
pub(crate) fn flow_of(alloc: Global, bodies: &[StoredBody]) -> Result<Flow, AllocError> {
    let mut flow = Flow::new(alloc);
    for body in bodies {
        flow.add(body.function, body.generation, &body.skeleton)?;
    }
    Ok(flow)
}

/// The effects over some bodies.
pub(crate) fn effects_over(alloc: Global, bodies: &[StoredBody]) -> Result<Effects, AllocError> {
    let flow = flow_of(alloc, bodies)?;
    let effects = solve(alloc, &flow);
    drop(flow);
    effects
}

/// The store of some bodies, in their order.
pub(crate) fn store_of(alloc: Global, bodies: Vec<StoredBody>) -> Result<Store, Fail> {
    let mut store = Store::new(alloc);
    if !store.has_room(&bodies) {
        return Err("room for the bodies".into());
    }
    store.add_all(bodies)?;
    Ok(store)
}

/// The set of the ids whose digits a text has.
fn set_of(digits: &str) -> NameSet {
    let mut set = NameSet::empty();
    for digit in digits.bytes() {
        if let Some(id) = NameId::new((digit as usize).wrapping_sub(b'0' as usize)) {
            set.add(id);
        }
    }
    set
}

/// A set has exactly the ids whose digits a text has.
pub(crate) fn has(rt: &impl Abort, set: &NameSet, digits: &str) {
    assert!(rt; *set == set_of(digits), "{digits}");
}

/// So have these sets; `|` separates the digits of one from those of the next.
pub(crate) fn have(rt: &impl Abort, sets: &[NameSet], digits: &str) {
    assert!(rt; digits.split('|').count() == sets.len(), "{digits}");
    for (set, digits) in sets.iter().zip(digits.split('|')) {
        has(rt, set, digits);
    }
}
