//! What the lines of the offers look like, written out by hand.

use crate::fixtures::sink_of;
use con_freeness::{Effect, Refusal};
use dsu_io::{List, Text};
use dsu_report::write_answers;
use name_sets::{NameId, Names};
use source_model::{NotPatch, OfferAnswer};
use std::alloc::{AllocError, Global};

/// The transformer's fault of the second offer is at the `x` of its second line.
const LATER_TEXT: &str = "int g;\n dsu_transform x = 1;\n";

const REPORT: &str = "\
# offer 1 refused: thread 15 concrete g
# offer 2 not a patch: transform 2:16
# offer 3 refused: thread 0 both struct s g
# offer 4 refused: thread 2 pinned struct s
# offer 5 installed as version 17
# offer 6 not a patch: kind struct s
# offer 7 not a patch: versions
# offer 8 not a patch: names
# offer 9 not a patch: store full
# offer 10 withdrawn
# offer 11 not offered
";

/// An answer to an offer, over the names `g` and `struct s`.
enum Given {
    /// A slot whose row uses `g` now.
    Concrete(u8),
    /// A slot whose row used `struct s` and may use `g`.
    Both(u8),
    /// A slot that is pinned and may use `struct s`.
    Pinned(u8),
    Installed(u32),
    Transform(usize),
    Kind(&'static str),
    Versions,
    Names,
    StoreFull,
    Withdrawn,
    NotOffered,
}

/// The answers of the report.
static GIVEN: [Given; 11] = [
    Given::Concrete(15),
    Given::Transform(22),
    Given::Both(0),
    Given::Pinned(2),
    Given::Installed(17),
    Given::Kind("struct s"),
    Given::Versions,
    Given::Names,
    Given::StoreFull,
    Given::Withdrawn,
    Given::NotOffered,
];

/// A refusal by the row of a slot.
fn refused(slot: u8, effect: Effect) -> OfferAnswer {
    OfferAnswer::Refused(Refusal { slot, effect })
}

/// An answer, with the ids of its names.
fn answer_of(
    alloc: Global,
    g: NameId,
    s: NameId,
    given: &Given,
) -> Result<OfferAnswer, AllocError> {
    Ok(match *given {
        Given::Concrete(slot) => refused(slot, Effect::Concrete(g)),
        Given::Both(slot) => refused(slot, Effect::Both(s, g)),
        Given::Pinned(slot) => refused(slot, Effect::Pinned(s)),
        Given::Installed(version) => OfferAnswer::Installed(version),
        Given::Transform(place) => OfferAnswer::NotPatch(NotPatch::Transform(place)),
        Given::Kind(name) => OfferAnswer::NotPatch(NotPatch::Kind(Text::of(alloc, name)?)),
        Given::Versions => OfferAnswer::NotPatch(NotPatch::Versions),
        Given::Names => OfferAnswer::NotPatch(NotPatch::Names),
        Given::StoreFull => OfferAnswer::NotPatch(NotPatch::StoreFull),
        Given::Withdrawn => OfferAnswer::Withdrawn,
        Given::NotOffered => OfferAnswer::NotOffered,
    })
}

/// The answers of the report, whose names are added.
fn answers_of(alloc: Global, names: &mut Names) -> Result<Vec<OfferAnswer>, AllocError> {
    let (Ok(g), Ok(s)) = (names.add("g"), names.add("struct s")) else {
        return Err(AllocError);
    };
    let mut answers = Vec::new(alloc);
    for given in &GIVEN {
        answers.push(answer_of(alloc, g, s, given)?)?;
    }
    Ok(answers)
}

#[test]
fn each_answer_has_its_line(rt: HostRuntime) -> Result<(), AllocError> {
    let mut names = Names::new(rt.alloc());
    let answers = answers_of(rt.alloc(), &mut names)?;
    let first = List::of(b"int g;".to_vec(rt.alloc())?);
    let later = List::of(LATER_TEXT.as_bytes().to_vec(rt.alloc())?);
    let texts = vec![in rt.alloc(); first, later]?;
    let mut sink = sink_of(rt.alloc(), 1000, &[])?;
    assert!(rt; write_answers(&answers, &texts, &names, &mut sink).is_ok());
    assert!(rt; sink.bytes() == REPORT.as_bytes());
    Ok(())
}

#[test]
fn a_full_sink_has_a_prefix_of_the_answers(rt: HostRuntime) -> Result<(), AllocError> {
    let mut names = Names::new(rt.alloc());
    let answers = answers_of(rt.alloc(), &mut names)?;
    let mut sink = sink_of(rt.alloc(), 50, &[])?;
    assert!(rt; write_answers(&answers, &[], &names, &mut sink).is_err());
    assert!(rt; sink.bytes() == &REPORT.as_bytes()[..50]);
    Ok(())
}
