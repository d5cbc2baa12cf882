//! The places of the text's `main`, counted by hand, and its skeleton, drawn by hand.
use crate::bodies::Kind::{After, Back, Begin, End, Return, Update, Uses};
use crate::bodies::Next::{Either, On, Out};
use crate::bodies::{Drawn, skeleton};
use crate::reading::points_of;
use name_sets::Names;
use skeleton_gen::SkeletonFault;
use skeletons::{CheckInKind, Use};
use std::alloc::Global;
use std::test::Fail;

/// The entry; the read of `g`, the call and its check-in; the write of the loop's body before the read and the write of its
/// step, and the way back; the begin of the transaction, the update point and the end, each with its check-in; both returns.
static PLACES: [usize; 16] = [
    42, 71, 69, 69, 94, 89, 89, 75, 101, 101, 110, 110, 124, 124, 126, 136,
];

/// The same points, where `f` is 0 and `g` 1. The loop has no point in its test, so control goes from the call, and on the
/// way back, to its body or past it.
static POINTS: [Drawn; 16] = [
    (After(CheckInKind::Entry), 0, On),
    (Uses(Use::ReadGlobal, 1), 0, On),
    (Uses(Use::Call, 0), 0, On),
    (After(CheckInKind::Call), 0, Either(4, 8)),
    (Uses(Use::WriteGlobal, 1), 0, On),
    (Uses(Use::ReadGlobal, 1), 0, On),
    (Uses(Use::WriteGlobal, 1), 0, On),
    (Back, 0, Either(4, 8)),
    (Begin, 0, On),
    (After(CheckInKind::Begin), 1, On),
    (Update, 1, On),
    (After(CheckInKind::Update), 1, On),
    (End, 1, On),
    (After(CheckInKind::End), 0, On),
    (Return, 0, Out),
    (Return, 0, Out),
];

/// The table of these names.
fn table(alloc: Global, texts: &[&str]) -> Result<Names, Fail> {
    let mut names = Names::new(alloc);
    for text in texts {
        if names.add(text).is_err() {
            return Err(Fail::new("a name has no room"));
        }
    }
    Ok(names)
}

#[test]
fn each_point_is_where_the_text_has_it(rt: HostRuntime) -> Result<(), Fail> {
    let alloc = rt.alloc();
    let names = Names::new(alloc);
    let points = points_of(alloc, &names)?;
    assert!(rt; points.places.as_slice() == PLACES.as_slice());
    Ok(())
}

#[test]
fn a_text_has_the_skeleton_that_is_drawn_by_hand(rt: HostRuntime) -> Result<(), Fail> {
    let alloc = rt.alloc();
    let names = table(alloc, &["f", "g"])?;
    let points = points_of(alloc, &names)?;
    let Ok(found) = &points.skeleton else {
        return Err(Fail::new("there is no skeleton"));
    };
    let drawn = skeleton(alloc, &POINTS)?;
    assert!(rt; found.points == drawn.points);
    assert!(rt; found.next == drawn.next);
    Ok(())
}

#[test]
fn a_name_that_the_table_lacks_is_unknown(rt: HostRuntime) -> Result<(), Fail> {
    let alloc = rt.alloc();
    let names = table(alloc, &["f"])?;
    let points = points_of(alloc, &names)?;
    assert!(rt; matches!(&points.skeleton, Err(SkeletonFault::Unknown)));
    Ok(())
}
