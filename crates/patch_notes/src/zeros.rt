//! Data that became zero although the older text has its name.
use crate::types::{converts, say_type};
use c_definitions::Known;
use c_tree::{Array, Binding, CType, Def, DefKind};
use c_types::Typed;
use offer_drafts::Draft;
use type_transformers::{Change, GlobalChange, transforms};
use versioned_structs::FieldChange;

/// The definitions of both texts.
#[derive(Clone, Copy)]
struct Both<'a> {
    old: &'a Known<'a>,
    new: &'a Known<'a>,
}

/// Says which fields and globals became zero.
pub(crate) fn say_zeros(draft: &mut Draft, old: &Typed, new: &Typed) {
    match transforms(draft.alloc(), old, new) {
        Ok(changes) => say_changes(draft, old, new, &changes),
        Err(_) => draft.cut(),
    }
}

/// The same of some changes.
fn say_changes(draft: &mut Draft, old: &Typed, new: &Typed, changes: &[Change]) {
    match Known::of(draft.alloc(), old.program().definitions.as_slice()) {
        Ok(known) => say_after(draft, &known, new.program().definitions.as_slice(), changes),
        Err(_) => draft.cut(),
    }
}

/// The same after the definitions of the older text.
fn say_after(draft: &mut Draft, old: &Known<'_>, new: &[Def], changes: &[Change]) {
    match Known::of(draft.alloc(), new) {
        Ok(known) => say_each(draft, Both { old, new: &known }, changes),
        Err(_) => draft.cut(),
    }
}

/// The same one after the other.
fn say_each(draft: &mut Draft, both: Both<'_>, changes: &[Change]) {
    for change in changes {
        say_change(draft, both, change);
    }
}

/// Says what of a change became zero.
fn say_change(draft: &mut Draft, both: Both<'_>, change: &Change) {
    match change {
        Change::Struct(tag, transform) => say_fields(
            draft,
            both,
            tag.as_str(),
            transform.as_slice(),
        ),
        Change::Global(name, change) => say_global(draft, both, name.as_str(), change),
    }
}

/// Whether definitions have a transformer of the struct with a tag.
fn is_transformed(definitions: &[Def], tag: &str) -> bool {
    for one in definitions {
        if let DefKind::TransformStruct(transform) = &one.kind {
            if transform.name.text.as_str() == tag {
                return true;
            }
        }
    }
    false
}

/// The fields of the struct with a tag.
fn fields_of<'a>(known: &'a Known<'a>, tag: &str) -> &'a [Binding] {
    match known.members_of(tag) {
        Some(fields) => fields.as_slice(),
        None => &[],
    }
}

/// Says which fields of the struct with a tag became zero.
fn say_fields(draft: &mut Draft, both: Both<'_>, tag: &str, changes: &[FieldChange]) {
    let is_given = is_transformed(both.new.definitions(), tag);
    let old = fields_of(both.old, tag);
    let new = fields_of(both.new, tag);
    for index in 0..new.len().min(changes.len()) {
        if let FieldChange::Zero(_) = &changes[index] {
            say_field(draft, tag, old, &new[index], is_given);
        }
    }
}

/// The field of a name.
fn field_of<'a>(fields: &'a [Binding], name: &str) -> Option<&'a Binding> {
    for field in fields {
        if field.name.text.as_str() == name {
            return Some(field);
        }
    }
    None
}

/// Says that a field became zero, if the old layout has one of its name.
fn say_field(draft: &mut Draft, tag: &str, old: &[Binding], field: &Binding, is_given: bool) {
    let name = field.name.text.as_str();
    let Some(before) = field_of(old, name) else {
        return;
    };
    draft.say("struct ");
    draft.say(tag);
    draft.say(" field ");
    draft.say(name);
    say_became(draft, &before.declared, &field.declared);
    if converts(&before.declared, &field.declared) {
        say_remedy(draft, tag, name, is_given);
    }
    draft.end();
}

/// Says what a type became.
fn say_became(draft: &mut Draft, old: &CType, new: &CType) {
    draft.say(": ");
    say_type(draft, old);
    draft.say(" became ");
    say_type(draft, new);
    draft.say(", zero");
}

/// Says how the field would keep its value.
fn say_remedy(draft: &mut Draft, tag: &str, name: &str, is_given: bool) {
    draft.say("; to keep it: ");
    if is_given {
        say_assignment(draft, name);
        draft.say(" in dsu_transform struct ");
        draft.say(tag);
    } else {
        draft.say("dsu_transform struct ");
        draft.say(tag);
        draft.say(" { ");
        say_assignment(draft, name);
        draft.say(" }");
    }
}

/// Says the assignment of the field in a transformer.
fn say_assignment(draft: &mut Draft, name: &str) {
    draft.say(name);
    draft.say(" = old.");
    draft.say(name);
    draft.say(";");
}

/// Says that a global became zero, if it did.
fn say_global(draft: &mut Draft, both: Both<'_>, name: &str, change: &GlobalChange) {
    if !matches!(change, GlobalChange::Zero(_, _)) {
        return;
    }
    let Some(old) = both.old.definition_of(name) else {
        return;
    };
    let Some(new) = both.new.definition_of(name) else {
        return;
    };
    draft.say(name);
    draft.say(": ");
    say_cells(draft, &old.kind);
    draft.say(" became ");
    say_cells(draft, &new.kind);
    draft.say(", zero");
    say_transformer(draft, name, &old.kind, &new.kind);
    draft.end();
}

/// Says the type of a variable or an array.
fn say_cells(draft: &mut Draft, kind: &DefKind) {
    match kind {
        DefKind::Global(variable) => say_type(draft, &variable.declared),
        DefKind::Array(array) => say_array(draft, array),
        _ => draft.say("?"),
    }
}

/// Says the type of an array.
fn say_array(draft: &mut Draft, array: &Array) {
    say_type(draft, &array.element);
    draft.say(" [");
    draft.number(array.length.value.value().unsigned_abs() as usize);
    draft.say("]");
}

/// Says how a variable would keep its value.
fn say_transformer(draft: &mut Draft, name: &str, old: &DefKind, new: &DefKind) {
    let DefKind::Global(before) = old else {
        return;
    };
    let DefKind::Global(after) = new else {
        return;
    };
    if converts(&before.declared, &after.declared) {
        draft.say("; to keep it: dsu_transform ");
        draft.say(name);
        draft.say(" = old;");
    }
}
