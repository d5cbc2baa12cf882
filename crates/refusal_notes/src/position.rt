//! Where a thread is.
use crate::code::{Code, Site};
use crate::places::{points_of, say_kind, say_place};
use crate::stand::Stand;
use offer_drafts::{Draft, Frame, RowFrom, SourceText, Thread};
use skeletons::{CheckInKind, Point, PointKind};

/// The text of a version.
pub(crate) fn text_of<'a>(stand: &Stand<'a>, version: u32) -> Option<&'a SourceText<'a>> {
    stand.texts.get((version as usize).checked_sub(1)?)
}

/// The point of a frame's last stop.
pub(crate) fn site_of(code: &Code<'_>, frame: &Frame<'_>) -> Option<Site> {
    code.site(frame.function, frame.version, frame.point)
}

/// The check-in that a frame passed, and its kind.
pub(crate) fn check_in_of(code: &Code<'_>, frame: &Frame<'_>) -> Option<(Site, CheckInKind)> {
    code.check_in_from(site_of(code, frame)?)
}

/// Whether a frame that last stopped at a point is in a transaction of its own text.
fn is_within(point: Point) -> bool {
    match point.kind {
        PointKind::Begin => true,
        PointKind::End => point.depth > 1,
        _ => point.is_enclosed(),
    }
}

/// Whether a frame is in a transaction of its own text.
fn begins_one(code: &Code<'_>, frame: &Frame<'_>) -> bool {
    let Some(site) = site_of(code, frame) else {
        return false;
    };
    match code.point(site) {
        Some(point) => is_within(point),
        None => false,
    }
}

/// The outermost frame that is in a transaction of its own text.
pub(crate) fn outermost(code: &Code<'_>, frames: &[Frame<'_>]) -> Option<usize> {
    let mut found = None;
    for index in 0..frames.len() {
        if begins_one(code, &frames[index]) {
            found = Some(index);
        }
    }
    found
}

/// Says where the thread is, and whether it is in a transaction.
pub(crate) fn say_position(
    draft: &mut Draft,
    stand: &Stand<'_>,
    code: &Code<'_>,
    thread: &Thread<'_>,
) {
    draft.say("thread ");
    draft.number(usize::from(thread.slot));
    say_row(draft, stand, code, &thread.row);
    if outermost(code, thread.frames.as_slice()).is_some() {
        draft.say(", and in a transaction");
    }
    draft.end();
}

/// Says where the row comes from.
fn say_row(draft: &mut Draft, stand: &Stand<'_>, code: &Code<'_>, row: &RowFrom<'_>) {
    match row {
        RowFrom::Start(function) => {
            draft.say(" is at the start of ");
            draft.say(function);
        }
        RowFrom::Passed(frame) => say_frame(draft, stand, code, frame),
    }
}

/// Says which check-in a frame passed.
fn say_frame(draft: &mut Draft, stand: &Stand<'_>, code: &Code<'_>, frame: &Frame<'_>) {
    draft.say(" is ");
    if let Some((site, kind)) = check_in_of(code, frame) {
        draft.say("behind ");
        say_site(draft, stand, frame.function, site);
        say_kind(draft, kind);
        draft.say(" of ");
    } else {
        draft.say("in ");
    }
    draft.say(frame.function);
    draft.say(", version ");
    draft.number(frame.version as usize);
}

/// Says the place of a point of a function.
pub(crate) fn say_site(draft: &mut Draft, stand: &Stand<'_>, function: &str, site: Site) {
    let Some(text) = text_of(stand, site.version) else {
        return draft.say("?");
    };
    match points_of(draft.alloc(), text, function) {
        Ok(points) => say_point(draft, text, points.get(site.point)),
        Err(_) => draft.cut(),
    }
}

/// Says the place of a point, if it has one.
fn say_point(draft: &mut Draft, text: &SourceText<'_>, at: Option<&usize>) {
    match at {
        Some(at) => say_place(draft, text, *at),
        None => draft.say("?"),
    }
}
