//! The lines of structs and globals that change.
ghost use Rattle.std.specs.Prelude.{◌≡◌, ◌++◌, IfOk, OnOk, map, option_copied, option_map};
ghost use Rattle.std.specs.List.{flat_map};
ghost use Rattle.c_tree.specs.Bare.{bare_binding, bare_def};
ghost use Rattle.c_semantics.specs.Names.{struct_name};
ghost use Rattle.c_semantics.specs.Texts.{definition, members_of};
ghost use Rattle.type_transformers.specs.Hows.{how_of};
ghost use Rattle.changes_report.specs.Shown.{change_text, fields_text};

use crate::lines::{add_fields, add_global};
use c_definitions::Known;
use c_tree::{Binding, Def, DefKind};
use dsu_io::Text;
use std::alloc::{AllocError, Global};
use type_transformers::Change;
use versioned_structs::FieldChange;

/// Adds the lines of the changes to a text whose definitions are known.
pub(crate) fn add_changes(
    alloc: Global,
    text: &mut Vec<u8>,
    known: &Known,
    changes: &[Change],
) -> Result<(), AllocError>
    ensures { OnOk result (text.new.items
        ≡ text.old.items ++ flat_map (change_text (map bare_def known.now)) changes.now) }
{
    for change in changes {
        add_change(alloc, text, known, change)?;
    }
    Ok(())
}

/// Adds the lines of a change.
fn add_change(
    alloc: Global,
    text: &mut Vec<u8>,
    known: &Known,
    change: &Change,
) -> Result<(), AllocError>
    ensures { OnOk result (text.new.items
        ≡ text.old.items ++ change_text (map bare_def known.now) change.now) }
{
    match change {
        Change::Struct(tag, transform) => {
            add_struct(alloc, text, known, tag.as_str(), transform.as_slice())
        }
        Change::Global(name, change) => add_global(text, name.as_str(), change),
    }
}

/// Adds the lines of the struct with a tag.
fn add_struct(
    alloc: Global,
    text: &mut Vec<u8>,
    known: &Known,
    tag: &str,
    changes: &[FieldChange],
) -> Result<(), AllocError>
    ensures { OnOk result (text.new.items ≡ text.old.items ++ fields_text (struct_name tag.now)
        (members_of (definition (map bare_def known.now) (struct_name tag.now))) (map how_of changes.now)) }
{
    let name = name_of_struct(alloc, tag)?;
    add_fields(
        text,
        name.as_str(),
        fields_of(known, name.as_str()),
        changes,
    )
}

/// The full name of the struct with a tag.
fn name_of_struct(alloc: Global, tag: &str) -> Result<Text, AllocError>
    ensures { IfOk result (λ name. name ≡ struct_name tag.now) }
{
    let mut name = String::from_str(alloc, "struct ")?;
    name.push_str(tag)?;
    Ok(Text::from(name))
}

/// The fields of the struct with a full name; what isn't a struct has none.
fn fields_of<'a>(known: &Known<'a>, name: &str) -> &'a [Binding]
    ensures { map bare_binding result.now ≡ members_of (definition (map bare_def known.now) name.now) }
{
    fields_in(definition(known, name))
}

/// The fields that a definition defines, if it is that of a struct.
fn fields_in<'a>(found: Option<&'a Def>) -> &'a [Binding]
    ensures { map bare_binding result.now ≡ members_of (option_map bare_def (option_copied found.entry)) }
{
    match found {
        Some(found) => match &found.kind {
            DefKind::Struct(_, fields) => fields.as_slice(),
            DefKind::Forward(_)
            | DefKind::Mutex(_)
            | DefKind::Function(_)
            | DefKind::Prototype(_)
            | DefKind::Global(_)
            | DefKind::Array(_)
            | DefKind::TransformStruct(_)
            | DefKind::TransformGlobal(_, _) => &[],
        },
        None => &[],
    }
}

/// The definition of a full name.
fn definition<'a>(known: &Known<'a>, name: &str) -> Option<&'a Def>
    ensures { option_map bare_def (option_copied result) ≡ definition (map bare_def known.now) name.now }
{
    known.declared(name)
}
