//! Which check-ins of a function admit a text.
use crate::code::{Code, Site};
use crate::places::{points_of, say_kind, say_line_column};
use crate::position::text_of;
use crate::stand::Stand;
use checkin_rows::Rows;
use con_freeness::Row;
use offer_drafts::{Draft, RowFrom, SourceText, Thread};
use patch_build::{Patch, PatchFault, prepare};
use rows_in_force::rows;
use skeletons::{CheckInKind, PointKind};
use std::alloc::{AllocError, Global};

/// A check-in of a body.
#[derive(Clone, Copy)]
struct CheckIn {
    point: usize,
    kind: CheckInKind,
}

/// A check-in in a text: its byte, and its kind.
#[derive(Clone, Copy)]
struct Spot {
    at: usize,
    kind: CheckInKind,
}

/// At most so many check-ins are named.
const MOST_NAMED: usize = 8;

/// Whether a row admits a patch, as the test of an offer has it.
fn admits(row: &Row, patch: &Patch, is_pinned: bool) -> bool {
    if patch.interface.meets(&row.concrete) {
        return false;
    }
    !patch.changed.meets(&row.future) || !(is_pinned || patch.changed.meets(&row.prior))
}

/// The check-ins of a body whose rows admit a patch, in the order of its points.
fn check_ins(
    alloc: Global,
    code: &Code<'_>,
    rows: &Rows,
    patch: &Patch,
    place: usize,
    is_pinned: bool,
) -> Result<Vec<CheckIn>, AllocError> {
    let mut found = Vec::new(alloc);
    let Some(body) = code.body(place) else {
        return Ok(found);
    };
    let mut number: usize = 0;
    for point in 0..body.skeleton.points.len() {
        if let PointKind::CheckIn(kind) = body.skeleton.points[point].kind {
            let id = rows.row_id(body.function, body.generation, number);
            if admits(rows.row(id), patch, is_pinned) {
                found.push(CheckIn { point, kind })?;
            }
            number = number.saturating_add(1);
        }
    }
    Ok(found)
}

/// The same over the rows in force; none where the text is no patch.
fn check_ins_of(
    alloc: Global,
    stand: &Stand<'_>,
    code: &Code<'_>,
    place: usize,
    is_pinned: bool,
) -> Result<Vec<CheckIn>, AllocError> {
    match prepare(alloc, stand.versions, stand.offered.typed) {
        Ok(patch) => check_ins_in_force(alloc, stand, code, &patch, place, is_pinned),
        Err(PatchFault::Not(_) | PatchFault::UndefinedName) => Ok(Vec::new(alloc)),
        Err(PatchFault::Memory) => Err(AllocError),
    }
}

/// The check-ins of a body that admit a patch by the rows in force.
fn check_ins_in_force(
    alloc: Global,
    stand: &Stand<'_>,
    code: &Code<'_>,
    patch: &Patch,
    place: usize,
    is_pinned: bool,
) -> Result<Vec<CheckIn>, AllocError> {
    let rows = rows(alloc, stand.versions.store)?;
    check_ins(alloc, code, &rows, patch, place, is_pinned)
}

/// The first point of the body that the thread is in, and the name of its function.
fn body_of<'a>(code: &Code<'_>, thread: &Thread<'a>) -> Option<(Site, &'a str)> {
    match &thread.row {
        RowFrom::Start(function) => Some((code.site(function, code.version(), 0)?, function)),
        RowFrom::Passed(frame) => {
            let site = code.site(frame.function, frame.version, 0)?;
            Some((site, frame.function))
        }
    }
}

/// Says which check-ins of the thread's function admit the text.
pub(crate) fn say_admitting(
    draft: &mut Draft,
    stand: &Stand<'_>,
    code: &Code<'_>,
    thread: &Thread<'_>,
) {
    let Some((site, function)) = body_of(code, thread) else {
        return;
    };
    match check_ins_of(draft.alloc(), stand, code, site.body, thread.is_pinned) {
        Ok(found) => say_found(draft, stand, function, site.version, &found),
        Err(_) => draft.cut(),
    }
}

/// Says which check-ins were found.
fn say_found(
    draft: &mut Draft,
    stand: &Stand<'_>,
    function: &str,
    version: u32,
    found: &[CheckIn],
) {
    if found.is_empty() {
        draft.say("no check-in of ");
        draft.say(function);
        draft.say(" admits it");
    } else {
        draft.say("other check-ins of ");
        draft.say(function);
        draft.say(" that would admit it: ");
        say_each(draft, text_of(stand, version), function, found);
    }
    draft.end();
}

/// Says where some check-ins are, in a text.
fn say_each(draft: &mut Draft, text: Option<&SourceText<'_>>, function: &str, found: &[CheckIn]) {
    let Some(text) = text else {
        return draft.say("?");
    };
    match spots_in(draft.alloc(), text, function, found) {
        Ok(spots) => say_spots(draft, text.bytes, &spots),
        Err(_) => draft.cut(),
    }
}

/// Says some places, but not more than are named.
fn say_spots(draft: &mut Draft, bytes: &[u8], spots: &[Spot]) {
    for index in 0..spots.len().min(MOST_NAMED) {
        say_spot(draft, bytes, index, spots[index]);
    }
    if spots.len() > MOST_NAMED {
        draft.say(", ..");
    }
}

/// The places of check-ins of a function, in the order of the text.
fn spots_in(
    alloc: Global,
    text: &SourceText<'_>,
    function: &str,
    found: &[CheckIn],
) -> Result<Vec<Spot>, AllocError> {
    let points = points_of(alloc, text, function)?;
    spots_of(alloc, &points, found)
}

/// The places of check-ins in the order of the text, by those of the points of their body.
fn spots_of(alloc: Global, points: &[usize], found: &[CheckIn]) -> Result<Vec<Spot>, AllocError> {
    let mut spots = Vec::new(alloc);
    for one in found {
        if let Some(at) = points.get(one.point) {
            spots.push(Spot {
                at: *at,
                kind: one.kind,
            })?;
        }
    }
    spots.sort_by_key(|spot| spot.at)?;
    Ok(spots)
}

/// Says one of them, by its place among them.
fn say_spot(draft: &mut Draft, bytes: &[u8], index: usize, spot: Spot) {
    if index > 0 {
        draft.say(", ");
    }
    say_line_column(draft, bytes, spot.at);
    say_kind(draft, spot.kind);
}
