//! The places of points, by line and column.
use c_definitions::Known;
use c_tree::{DefKind, Function};
use check_in_places::kind_word;
use dsu_report::place_of;
use name_resolution::resolve_body;
use offer_drafts::{Draft, SourceText};
use point_places::places_of;
use resolved_tree::Trees;
use skeletons::CheckInKind;
use std::alloc::{AllocError, Global};

/// The bytes of a text at which the points of a function begin; none if the text doesn't define it.
pub(crate) fn points_of(
    alloc: Global,
    text: &SourceText<'_>,
    function: &str,
) -> Result<Vec<usize>, AllocError> {
    let known = Known::of(alloc, text.typed.program().definitions.as_slice())?;
    match function_in(&known, function) {
        Some(found) => points_in(alloc, &known, found),
        None => Ok(Vec::new(alloc)),
    }
}

/// The function that a text defines by a name.
fn function_in<'a>(known: &Known<'a>, name: &str) -> Option<&'a Function> {
    match known.definition_of(name) {
        Some(found) => match &found.kind {
            DefKind::Function(function) => Some(function),
            _ => None,
        },
        None => None,
    }
}

/// The bytes at which the points of a function begin.
fn points_in(
    alloc: Global,
    known: &Known<'_>,
    function: &Function,
) -> Result<Vec<usize>, AllocError> {
    let mut trees = Trees::new(alloc);
    let body = resolve_body(&mut trees, known, function)?;
    places_of(alloc, &trees, body, function)
}

/// Adds the line and the column of a byte.
pub(crate) fn say_line_column(draft: &mut Draft, bytes: &[u8], at: usize) {
    if at > bytes.len() || at >= u32::MAX as usize {
        return draft.say("?");
    }
    let place = place_of(bytes, at);
    draft.number(place.line as usize);
    draft.say(":");
    draft.number(place.column as usize);
}

/// Adds the file, the line and the column of a byte.
pub(crate) fn say_place(draft: &mut Draft, text: &SourceText<'_>, at: usize) {
    draft.show(text.file);
    draft.say(":");
    say_line_column(draft, text.bytes, at);
}

/// Adds a blank and the word of a kind of check-in.
pub(crate) fn say_kind(draft: &mut Draft, kind: CheckInKind) {
    draft.say(" ");
    draft.show(kind_word(kind));
}
