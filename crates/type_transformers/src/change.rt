//! How the data of one name becomes that of a newer text.
ghost use Rattle.std.specs.Prelude.{◌≡◌, ◌≤◌, map, length, Some, IfOk, IfSome, OnOk, option_map, List};
ghost use Rattle.c_tree.specs.BareDef.{BareDef};
ghost use Rattle.c_tree.specs.Bare.{bare_array, bare_binding, bare_declaration, bare_def, bare_kind};
ghost use Rattle.c_tree.specs.BareDef.{Struct as StructIs, Global as GlobalIs};
ghost use Rattle.c_semantics.specs.Texts.{definition, members_of};
ghost use Rattle.versioned_structs.specs.Limits.{most_fields};
ghost use Rattle.type_transformers.specs.Newer.{members_in};
ghost use Rattle.type_transformers.specs.Made.{IsMadeFrom, IsMadeIf, IsChangeFor, Adds};

use crate::fields::transform_of;
use crate::global::{GlobalChange, array_change, variable_change};
use crate::newer::Newer;
use crate::same_data::has_new_data;
use c_definitions::Known;
use c_tree::{Array, Binding, Declaration, Def, DefKind};
use dsu_io::Text;
use std::alloc::{AllocError, Global};
use versioned_structs::Transform;

/// How the data of a name becomes that of a newer text.
#[derive(Drop)]
pub enum Change {
    /// Of the objects of the struct with this tag.
    Struct(Text, Transform),
    /// Of the cells of the variable or the array with this name.
    Global(Text, GlobalChange),
}

/// Adds the change of a name to those of others, if its data changes.
pub(crate) fn add_change(
    alloc: Global,
    old: &Known,
    new: &Newer,
    name: &str,
    changes: &mut Vec<Change>,
) -> Result<(), AllocError>
    ensures { OnOk result (Adds (map bare_def old.now) (map bare_def new.now) name.now changes.old.items changes.new.items) }
{
    match change_of(alloc, old, new, name)? {
        Some(change) => {
            changes.push(change)?;
            Ok(())
        }
        None => Ok(()),
    }
}

/// The change of a name, if its data changes: both texts define it, with other interfaces, and in the newer one it is a
/// struct, a variable or an array.
fn change_of(
    alloc: Global,
    old: &Known,
    new: &Newer,
    name: &str,
) -> Result<Option<Change>, AllocError>
    ensures { IfOk result (IsChangeFor (map bare_def old.now) (map bare_def new.now) name.now) }
{
    let Some(before) = definition(old, name) else {
        return Ok(None);
    };
    let Some(after) = new.definition(name) else {
        return Ok(None);
    };
    if has_new_data(&before.kind, &after.kind) {
        change_between(alloc, &before.kind, &after.kind, new)
    } else {
        Ok(None)
    }
}

/// The definition of a full name.
fn definition<'a>(known: &Known<'a>, name: &str) -> Option<&'a Def>
    ensures { option_map (λ d. bare_def d.now) result ≡ definition (map bare_def known.now) name.now }
{
    known.declared(name)
}

/// The change of a name by its two definitions, if the newer one has data.
fn change_between(
    alloc: Global,
    old: &DefKind,
    new: &DefKind,
    text: &Newer,
) -> Result<Option<Change>, AllocError>
    requires { length (members_in new.now) ≤ most_fields }
    ensures { IfOk result (IsMadeIf (bare_kind old.now) (bare_kind new.now) (map bare_def text.now)) }
{
    match new {
        DefKind::Struct(tag, fields) => Ok(Some(of_struct(
            alloc,
            old,
            &tag.text,
            fields.as_slice(),
            text,
        )?)),
        DefKind::Global(variable) => Ok(Some(of_variable(alloc, old, variable, text)?)),
        DefKind::Array(array) => Ok(Some(of_array(old, array)?)),
        _ => Ok(None),
    }
}

/// Of a struct.
fn of_struct(
    alloc: Global,
    old: &DefKind,
    tag: &Text,
    fields: &[Binding],
    text: &Newer,
) -> Result<Change, AllocError>
    requires { length fields.now ≤ most_fields }
    ensures { IfOk result (IsMadeFrom (bare_kind old.now) (StructIs tag.now (map bare_binding fields.now)) (map bare_def text.now)) }
{
    let given = text.fields_given(tag.as_str());
    let tag = tag.clone()?;
    let transform = transform_of(alloc, members_of(old), fields, given)?;
    Ok(Change::Struct(tag, transform))
}

/// The fields that a definition of a struct has; those of another are none.
fn members_of(kind: &DefKind) -> &[Binding]
    ensures { map bare_binding result.now ≡ members_of (Some (bare_kind kind.now)) }
{
    match kind {
        DefKind::Struct(_, members) => members.as_slice(),
        _ => &[],
    }
}

/// Of a variable.
fn of_variable(
    alloc: Global,
    old: &DefKind,
    variable: &Declaration,
    text: &Newer,
) -> Result<Change, AllocError>
    ensures { IfOk result (IsMadeFrom (bare_kind old.now) (GlobalIs (bare_declaration variable.now)) (map bare_def text.now)) }
{
    let given = text.value_given(variable.name.text.as_str());
    let name = variable.name.text.clone()?;
    let change = variable_change(alloc, old, variable, given)?;
    Ok(Change::Global(name, change))
}

/// Of an array.
fn of_array(old: &DefKind, array: &Array) -> Result<Change, AllocError>
    ensures { IfOk result (λ change. (q : List BareDef) → IsMadeFrom (bare_kind old.now) (bare_array array.now) q change) }
{
    let name = array.name.text.clone()?;
    Ok(Change::Global(name, array_change(old, array)))
}
