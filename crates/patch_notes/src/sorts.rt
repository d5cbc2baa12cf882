//! What a name is.
use c_definitions::Known;
use c_tree::DefKind;
use offer_drafts::{Draft, SourceText};

/// What a definition defines.
fn sort_of(kind: &DefKind) -> &'static str {
    match kind {
        DefKind::Function(_) | DefKind::Prototype(_) => "a function",
        DefKind::Global(_) => "a variable",
        DefKind::Array(_) => "an array",
        DefKind::Mutex(_) => "a mutex",
        DefKind::Struct(_, _)
        | DefKind::Forward(_)
        | DefKind::TransformStruct(_)
        | DefKind::TransformGlobal(_, _) => "a struct",
    }
}

/// Says what a name is in a text.
fn say_sort(draft: &mut Draft, text: &SourceText<'_>, name: &str) {
    match Known::of(draft.alloc(), text.typed.program().definitions.as_slice()) {
        Ok(known) => draft.say(sort_in(&known, name)),
        Err(_) => draft.cut(),
    }
}

/// What a name is among definitions.
fn sort_in(known: &Known<'_>, name: &str) -> &'static str {
    match known.definition_of(name) {
        Some(found) => sort_of(&found.kind),
        None => "not defined",
    }
}

/// Says what a name is in the text of a version, and what it is in one that was offered.
pub(crate) fn say_sorts(
    draft: &mut Draft,
    name: &str,
    version: u32,
    old: &SourceText<'_>,
    new: &SourceText<'_>,
) {
    draft.say(name);
    draft.say(" is ");
    say_sort(draft, old, name);
    draft.say(" in version ");
    draft.number(version as usize);
    draft.say("'s text and ");
    say_sort(draft, new, name);
    draft.say(" in ");
    draft.show(new.file);
    draft.end();
}
