//! The flow of a body that writes a global, and of one that calls a function for ever.
use crate::bodies::Kind::{After, Uses};
use crate::bodies::Next::{Either, On};
use crate::bodies::{Drawn, skeleton, writer};
use dsu_io::List;
use effect_flow::{Flow, FlowPoint};
use name_sets::NameId;
use skeletons::{CheckInKind, Point, Use};
use std::process::Abort;
use std::test::Fail;

/// The second body: it has a target that is no point of it.
static CALLER: [Drawn; 3] = [
    (After(CheckInKind::Entry), 0, On),
    (Uses(Use::Call, 0), 0, On),
    (After(CheckInKind::Call), 0, Either(1, 3)),
];

fn has_ways(rt: &impl Abort, flow: &Flow, expected: &[(usize, usize)]) {
    assert_eq!(rt; flow.ways().len(), expected.len());
    for (way, (from, to)) in flow.ways().iter().zip(expected) {
        assert_eq!(rt; way.from, *from);
        assert_eq!(rt; way.to, *to);
    }
}

fn has_points(rt: &impl Abort, points: &[FlowPoint], body: (NameId, u32), expected: &[Point]) {
    assert_eq!(rt; points.len(), expected.len());
    for (number, (x, point)) in points.iter().zip(expected).enumerate() {
        assert_eq!(rt; (x.function, x.generation), body);
        assert_eq!(rt; x.number, number);
        assert_eq!(rt; x.point, *point);
    }
}

/// The second body has targets after its last point too.
#[test]
fn two_bodies(rt: HostRuntime) -> Result<(), Fail> {
    let alloc = rt.alloc();
    let f = NameId::new(0).ok_or("an id")?;
    let g = NameId::new(2).ok_or("an id")?;
    let first = writer(alloc, 5)?;
    let mut second = skeleton(alloc, &CALLER)?;
    second.next.push(List::of(Vec::from_slice(alloc, &[0])?))?;
    let mut flow = Flow::new(alloc);
    assert_eq!(rt; flow.ids_end(), 0);
    flow.add(f, 1, &first)?;
    flow.add(g, 4, &second)?;
    has_ways(&rt, &flow, &[(0, 1), (1, 2), (3, 4), (4, 5), (5, 4)]);
    assert_eq!(rt; flow.points().len(), 6);
    has_points(&rt, &flow.points()[..3], (f, 1), &first.points);
    has_points(&rt, &flow.points()[3..], (g, 4), &second.points);
    assert_eq!(rt; flow.ids_end(), 6);
    Ok(())
}
