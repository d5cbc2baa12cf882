//! What a thread may use, and what its transaction may have used.
use crate::code::{Code, Site};
use crate::position::{check_in_of, outermost, say_site, site_of};
use crate::reversed::Backwards;
use crate::search::{Bound, Search};
use crate::stand::Stand;
use con_freeness::Effect;
use name_sets::NameId;
use offer_drafts::{Draft, Frame, RowFrom, Thread};
use std::alloc::{AllocError, Global};

/// Where the thread's code to come begins: after the check-in that its row comes from.
fn begin_of(code: &Code<'_>, thread: &Thread<'_>) -> Option<Site> {
    match &thread.row {
        RowFrom::Start(function) => code.site(function, code.version(), 0),
        RowFrom::Passed(frame) => Some(check_in_of(code, frame)?.0),
    }
}

/// The nearest use after a place, if there is one.
fn after(search: &mut Search<'_>, from: Option<Site>) -> Result<Option<Site>, AllocError> {
    match from {
        Some(from) => search.after(from, Bound::None),
        None => Ok(None),
    }
}

/// The same, or else one in the functions that are called there.
fn onward(search: &mut Search<'_>, from: Option<Site>) -> Result<Option<Site>, AllocError> {
    match after(search, from)? {
        Some(found) => Ok(Some(found)),
        None => search.in_called(),
    }
}

/// Where a search over frames looks first.
#[derive(Clone, Copy)]
enum First {
    /// In all frames, and then in the functions that they call.
    Frames,
    /// In a frame and the functions that it calls, and then in the frame that waits for it.
    Calls,
}

/// The nearest use after a place, and in the functions that are called there where they come first.
fn next_use(
    search: &mut Search<'_>,
    from: Option<Site>,
    first: First,
) -> Result<Option<Site>, AllocError> {
    match first {
        First::Frames => after(search, from),
        First::Calls => onward(search, from),
    }
}

/// The nearest use in what is left of the thread's frames, the innermost first.
fn in_frames(
    search: &mut Search<'_>,
    code: &Code<'_>,
    thread: &Thread<'_>,
    first: First,
) -> Result<Option<Site>, AllocError> {
    let found = next_use(search, begin_of(code, thread), first)?;
    if found.is_some() {
        return Ok(found);
    }
    for frame in &thread.frames {
        let found = next_use(search, site_of(code, frame), first)?;
        if found.is_some() {
            return Ok(found);
        }
    }
    Ok(None)
}

/// A use of a name in what is left of the thread's frames and in the functions that they may call.
fn coming_use(
    alloc: Global,
    code: &Code<'_>,
    thread: &Thread<'_>,
    name: NameId,
    first: First,
) -> Result<Option<Site>, AllocError> {
    let mut search = Search::new(alloc, code, name)?;
    in_frames_or_called(&mut search, code, thread, first)
}

/// The same by a search that looked at nothing yet.
fn in_frames_or_called(
    search: &mut Search<'_>,
    code: &Code<'_>,
    thread: &Thread<'_>,
    first: First,
) -> Result<Option<Site>, AllocError> {
    match in_frames(search, code, thread, first)? {
        Some(found) => Ok(Some(found)),
        None => search.in_called(),
    }
}

/// The use at a frame's last stop: of the innermost frame it is done; in another one a call is still in progress, whose
/// function's own frame is looked at before.
fn use_at(
    search: &mut Search<'_>,
    site: Site,
    is_innermost: bool,
) -> Result<Option<Site>, AllocError> {
    if is_innermost {
        return search.at(site);
    }
    if search.uses(site) {
        Ok(Some(site))
    } else {
        Ok(None)
    }
}

/// The nearest use in a frame up to its last stop, and in the functions that it called.
fn before(
    search: &mut Search<'_>,
    ways: &mut Backwards,
    site: Option<Site>,
    is_innermost: bool,
    bound: Bound,
) -> Result<Option<Site>, AllocError> {
    let Some(site) = site else {
        return Ok(None);
    };
    let found = use_at(search, site, is_innermost)?;
    if found.is_some() {
        return Ok(found);
    }
    match search.before(ways, site, bound)? {
        Some(found) => Ok(Some(found)),
        None => search.in_called(),
    }
}

/// A use of a name in the transaction so far, which the outermost of some frames began.
fn earlier_use(
    alloc: Global,
    code: &Code<'_>,
    frames: &[Frame<'_>],
    outermost: usize,
    name: NameId,
) -> Result<Option<Site>, AllocError> {
    let mut search = Search::new(alloc, code, name)?;
    use_before(alloc, &mut search, code, frames, outermost)
}

/// The same by a search that looked at nothing yet.
fn use_before(
    alloc: Global,
    search: &mut Search<'_>,
    code: &Code<'_>,
    frames: &[Frame<'_>],
    outermost: usize,
) -> Result<Option<Site>, AllocError> {
    let mut ways = Backwards::new(alloc, code.count())?;
    backwards(search, &mut ways, code, frames, outermost)
}

/// The same by ways backwards, frame by frame.
fn backwards(
    search: &mut Search<'_>,
    ways: &mut Backwards,
    code: &Code<'_>,
    frames: &[Frame<'_>],
    outermost: usize,
) -> Result<Option<Site>, AllocError> {
    for index in 0..frames.len() {
        if index > outermost {
            return Ok(None);
        }
        let bound = if index == outermost {
            Bound::Outside
        } else {
            Bound::None
        };
        let site = site_of(code, &frames[index]);
        let found = before(search, ways, site, index == 0, bound)?;
        if found.is_some() {
            return Ok(found);
        }
    }
    Ok(None)
}

/// A use of a name before the next check-in.
fn use_by_next(
    alloc: Global,
    code: &Code<'_>,
    thread: &Thread<'_>,
    name: NameId,
) -> Result<Option<Site>, AllocError> {
    let mut search = Search::new(alloc, code, name)?;
    match begin_of(code, thread) {
        Some(from) => search.after(from, Bound::CheckIns),
        None => Ok(None),
    }
}

/// Says that a name is used somewhere.
fn say_use(
    draft: &mut Draft,
    stand: &Stand<'_>,
    code: &Code<'_>,
    words: &str,
    name: NameId,
    site: Site,
) {
    let function = match code.body(site.body) {
        Some(body) => code.name(body.function),
        None => "",
    };
    draft.say(words);
    draft.say(code.name(name));
    draft.say(" at ");
    say_site(draft, stand, function, site);
    draft.say(" in ");
    draft.say(function);
    draft.end();
}

/// Says where the thread may still use a name, if that is found.
fn say_later(
    draft: &mut Draft,
    stand: &Stand<'_>,
    code: &Code<'_>,
    thread: &Thread<'_>,
    name: NameId,
    first: First,
) {
    match coming_use(draft.alloc(), code, thread, name, first) {
        Ok(Some(site)) => say_use(draft, stand, code, "it may still use ", name, site),
        Ok(None) => {}
        Err(_) => draft.cut(),
    }
}

/// What is said of a thread that is in no transaction.
const OUTSIDE: &str =
    "it is in no transaction now: its row covers all ways to that place, and from there to the next check-in";

/// Says where the transaction may have used a name, if that is found, or that there is none: a row joins the effects of all
/// ways to its check-in, also of those that are in a transaction.
fn say_earlier(
    draft: &mut Draft,
    stand: &Stand<'_>,
    code: &Code<'_>,
    thread: &Thread<'_>,
    name: NameId,
) {
    let frames = thread.frames.as_slice();
    let Some(outermost) = outermost(code, frames) else {
        draft.say(OUTSIDE);
        return draft.end();
    };
    let words = "its transaction may have used ";
    match earlier_use(draft.alloc(), code, frames, outermost, name) {
        Ok(Some(site)) => say_use(draft, stand, code, words, name, site),
        Ok(None) => say_by_next(draft, stand, code, thread, name),
        Err(_) => draft.cut(),
    }
}

/// Says where the transaction may use a name before its next check-in, if that is found.
fn say_by_next(
    draft: &mut Draft,
    stand: &Stand<'_>,
    code: &Code<'_>,
    thread: &Thread<'_>,
    name: NameId,
) {
    let words = "by its next check-in its transaction may have used ";
    match use_by_next(draft.alloc(), code, thread, name) {
        Ok(Some(site)) => say_use(draft, stand, code, words, name, site),
        Ok(None) => {}
        Err(_) => draft.cut(),
    }
}

/// Says where the thread uses the names of the effect by which its row refuses a text.
pub(crate) fn say_effect(
    draft: &mut Draft,
    stand: &Stand<'_>,
    code: &Code<'_>,
    thread: &Thread<'_>,
    effect: Effect,
) {
    match effect {
        Effect::Concrete(name) => say_later(draft, stand, code, thread, name, First::Frames),
        Effect::Both(prior, future) => {
            say_earlier(draft, stand, code, thread, prior);
            say_later(draft, stand, code, thread, future, First::Calls);
        }
        Effect::Pinned(name) => say_later(draft, stand, code, thread, name, First::Calls),
    }
}
