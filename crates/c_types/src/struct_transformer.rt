ghost use Rattle.std.specs.Prelude.{◌≡◌, ◌&&◌, true, not, IfOk, OnOk, is_some, option_and_then, if◌then◌else◌};
ghost use Rattle.c_scope.specs.Tables.{declared, look_up_first};
ghost use Rattle.c_definitions.specs.Lookup.{member};
ghost use Rattle.c_definitions.specs.Lookup.{members_of};
ghost use Rattle.c_types.specs.TransformSyntax.{is_transforming, transforms_struct};

use crate::transformer::is_transforming;
use c_definitions::Known;
use c_scope::Scopes;
use c_tree::FieldValue;
use std::alloc::{AllocError, Global};

/// Adds a field to those that are given a value; tells whether it is new.
fn declare_field(later: &mut Scopes<bool>, name: &str) -> Result<bool, AllocError>
    ensures told { IfOk result (λ told. told ≡ not (is_some (look_up_first later.old name.now))) }
    ensures fields { OnOk result (later.new ≡ (if is_some (look_up_first later.old name.now) then later.old else declared later.old name.now true)) }
{
    later.declare(name, true)
}

/// Whether four things hold.
fn all_four(a: bool, b: bool, c: bool, d: bool) -> bool
    ensures { result ≡ (a && b && c && d) }
{
    a && b && c && d
}

/// Whether a field is one of a tag's struct and isn't given a value later, the value is allowed, and the later ones
/// are right.
fn transforms_field(
    known: &Known,
    tag: &str,
    later: &mut Scopes<bool>,
    given: &FieldValue,
    others: bool,
) -> Result<bool, AllocError>
    ensures told { IfOk result (λ told. told ≡ (is_some (option_and_then (λ members. member members given.now.field.text) (members_of known.now tag.now))
        && not (is_some (look_up_first later.old given.now.field.text)) && is_transforming known.now given.now.value && others)) }
    ensures fields { OnOk result (later.new ≡ (if is_some (look_up_first later.old given.now.field.text) then later.old else declared later.old given.now.field.text true)) }
{
    let name = given.field.text.as_str();
    let is_new = declare_field(later, name)?;
    let is_member = known.member(tag, name).is_some();
    Ok(all_four(
        is_member,
        is_new,
        is_transforming(known, &given.value),
        others,
    ))
}

/// Whether the fields that a struct's transformer gives a value are those of a struct of the text, none twice, and the
/// values are allowed.
pub(crate) fn transforms_struct(
    alloc: Global,
    known: &Known,
    tag: &str,
    values: &[FieldValue],
) -> Result<bool, AllocError>
    ensures { IfOk result (λ told. told ≡ transforms_struct known.now (members_of known.now tag.now) values.now) }
{
    if known.members_of(tag).is_none() {
        return Ok(false);
    }
    let mut later = Scopes::new(alloc);
    let mut transforms_fields = true;
    let mut i = values.len();
    while i > 0 {
        i -= 1;
        transforms_fields = transforms_field(
            known,
            tag,
            &mut later,
            &values[i],
            transforms_fields,
        )?;
    }
    Ok(transforms_fields)
}
