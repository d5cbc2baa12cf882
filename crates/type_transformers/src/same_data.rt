//! Whether the data of a name is of other types in a newer text.
ghost use Rattle.std.specs.Prelude.{◌≡◌, ◌&&◌, map};
ghost use Rattle.c_tree.specs.Bare.{bare_array, bare_binding, bare_declaration, bare_kind, bare_type};
ghost use Rattle.c_tree.specs.BareExpr.{Bytes};
ghost use Rattle.c_tree.specs.BareDef.{Struct as StructIs, Global as GlobalIs};
ghost use Rattle.c_semantics.specs.Changes.{same_interface, same_layout};
ghost use Rattle.c_semantics.specs.Same.{same_binding, same_type as same_bare_type};
ghost use Rattle.type_transformers.specs.Made.{has_new_data as has_new_data_def};

use c_tree::{Array, Binding, CType, Declaration, DefKind};

/// Whether a newer definition has data, and the older one of that name has another interface.
pub(crate) fn has_new_data(old: &DefKind, new: &DefKind) -> bool
    ensures { result ≡ has_new_data_def (bare_kind old.now) (bare_kind new.now) }
{
    match new {
        DefKind::Struct(_, fields) => !has_layout(old, fields.as_slice()),
        DefKind::Global(variable) => !is_same_variable(old, variable),
        DefKind::Array(array) => !is_same_array(old, array),
        _ => false,
    }
}

/// Whether a struct with these fields is defined.
fn has_layout(kind: &DefKind, fields: &[Binding]) -> bool
    ensures { (tag : Bytes) → result ≡ same_interface (bare_kind kind.now) (StructIs tag (map bare_binding fields.now)) }
{
    match kind {
        DefKind::Struct(_, own) => same_layout(own.as_slice(), fields),
        _ => false,
    }
}

/// Whether a variable of the same type is defined.
fn is_same_variable(kind: &DefKind, variable: &Declaration) -> bool
    ensures { result ≡ same_interface (bare_kind kind.now) (GlobalIs (bare_declaration variable.now)) }
{
    match kind {
        DefKind::Global(own) => same_type(&own.declared, &variable.declared),
        _ => false,
    }
}

/// Whether an array of the same type and length is defined.
fn is_same_array(kind: &DefKind, array: &Array) -> bool
    ensures { result ≡ same_interface (bare_kind kind.now) (bare_array array.now) }
{
    match kind {
        DefKind::Array(own) => {
            same_type(&own.element, &array.element)
                && own.length.value.value() == array.length.value.value()
        }
        _ => false,
    }
}

/// Whether two structs have the same fields in the same order.
fn same_layout(a: &[Binding], b: &[Binding]) -> bool
    ensures { result ≡ same_layout (map bare_binding a.now) (map bare_binding b.now) }
{
    if a.len() != b.len() {
        return false;
    }
    for i in 0..a.len() {
        if !same_binding(&a[i], &b[i]) {
            return false;
        }
    }
    true
}

/// Whether two fields have the same type and name.
fn same_binding(a: &Binding, b: &Binding) -> bool
    ensures { result ≡ same_binding (bare_binding a.now) (bare_binding b.now) }
{
    same_type(&a.declared, &b.declared) && a.name.text == b.name.text
}

/// Whether two types are the same.
#[tactic(auto, using(crate::proofs::SameTypes::type_answer))]
fn same_type(a: &CType, b: &CType) -> bool
    ensures { result ≡ same_bare_type (bare_type a.now) (bare_type b.now) }
{
    c_tree::same_type(a, b)
}
