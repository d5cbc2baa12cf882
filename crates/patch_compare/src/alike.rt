//! Two definitions of one name: what is the same of them.
ghost use Rattle.std.specs.Prelude.{◌≡◌, ◌==◌, map, option_map, Some};
ghost use Rattle.c_tree.specs.Bare.{bare_array, bare_binding, bare_def, bare_function, bare_kind, bare_type};
ghost use Rattle.c_tree.specs.BareExpr.{Bytes};
ghost use Rattle.c_semantics.specs.Changes.{same_definition, same_interface, same_layout, same_signature};
ghost use Rattle.c_semantics.specs.Same.{same_binding, same_list, same_option, same_type};
ghost use Rattle.c_semantics.specs.Texts.{defined};
ghost use Rattle.patch_faults.specs.Sorts.{sort};

use c_tree::{Array, Binding, CType, Def, DefKind, Function, same_def};
use source_model::equal_bodies_are_equal;

/// Whether two definitions of one name are the same.
pub fn same_definition(a: &Def, b: &Def) -> bool
    ensures { (name : Bytes) → defined (bare_def a.now) ≡ Some name → defined (bare_def b.now) ≡ Some name
        → result ≡ same_definition (bare_def a.now) (bare_def b.now) }
{
    equal_bodies_are_equal();
    match &a.kind {
        DefKind::Function(_) => same_def(a, b),
        _ => same_interface(&a.kind, &b.kind),
    }
}

/// Whether two definitions have the same interface.
pub fn same_interface(a: &DefKind, b: &DefKind) -> bool
    ensures { result ≡ same_interface (bare_kind a.now) (bare_kind b.now) }
{
    match a {
        DefKind::Struct(_, x) => {
            matches!(b, DefKind::Struct(_, y) if same_layout(x.as_slice(), y.as_slice()))
        }
        DefKind::Mutex(_) => matches!(b, DefKind::Mutex(_)),
        DefKind::Function(x) => matches!(b, DefKind::Function(y) if same_signature(x, y)),
        DefKind::Global(x) => {
            matches!(b, DefKind::Global(y) if same_type(&x.declared, &y.declared))
        }
        DefKind::Array(x) => matches!(b, DefKind::Array(y) if same_array(x, y)),
        DefKind::Forward(_)
        | DefKind::Prototype(_)
        | DefKind::TransformStruct(_)
        | DefKind::TransformGlobal(_, _) => false,
    }
}

/// Whether two definitions are both of functions, both of globals, both of mutexes, or both of none of these.
pub(crate) fn same_sort(a: &DefKind, b: &DefKind) -> bool
    ensures { result ≡ (sort (bare_kind a.now) == sort (bare_kind b.now)) }
{
    match a {
        DefKind::Function(_) => matches!(b, DefKind::Function(_)),
        DefKind::Global(_) | DefKind::Array(_) => {
            matches!(b, DefKind::Global(_) | DefKind::Array(_))
        }
        DefKind::Mutex(_) => matches!(b, DefKind::Mutex(_)),
        DefKind::Struct(_, _)
        | DefKind::Forward(_)
        | DefKind::Prototype(_)
        | DefKind::TransformStruct(_)
        | DefKind::TransformGlobal(_, _) => !matches!(
            b,
            DefKind::Function(_) | DefKind::Global(_) | DefKind::Array(_) | DefKind::Mutex(_)
        ),
    }
}

/// Whether two structs have the same fields in the same order.
fn same_layout(a: &[Binding], b: &[Binding]) -> bool
    ensures { result ≡ same_layout (map bare_binding a.now) (map bare_binding b.now) }
{
    if a.len() != b.len() {
        return false;
    }
    for i in 0..a.len() {
        if !same_binding(&a[i], &b[i]) {
            return false;
        }
    }
    true
}

/// Whether two fields have the same type and name.
fn same_binding(a: &Binding, b: &Binding) -> bool
    ensures { result ≡ same_binding (bare_binding a.now) (bare_binding b.now) }
{
    same_type(&a.declared, &b.declared) && a.name.text == b.name.text
}

/// Whether two functions have the same types.
fn same_signature(a: &Function, b: &Function) -> bool
    ensures { result ≡ same_interface (bare_function a.now) (bare_function b.now) }
{
    same_result(&a.result, &b.result)
        && same_types(a.parameters.as_slice(), b.parameters.as_slice())
}

/// Whether two functions have the same result type.
fn same_result(a: &Option<CType>, b: &Option<CType>) -> bool
    ensures { result ≡ same_option same_type (option_map bare_type a.now) (option_map bare_type b.now) }
{
    match a {
        Some(x) => matches!(b, Some(y) if same_type(x, y)),
        None => b.is_none(),
    }
}

/// Whether two lists of parameters have the same types in the same order.
fn same_types(a: &[Binding], b: &[Binding]) -> bool
    ensures { result ≡ same_list same_type (map (λ b. bare_type b.declared) a.now) (map (λ b. bare_type b.declared) b.now) }
{
    if a.len() != b.len() {
        return false;
    }
    for i in 0..a.len() {
        if !same_type(&a[i].declared, &b[i].declared) {
            return false;
        }
    }
    true
}

/// Whether two arrays have the same element type and length.
fn same_array(a: &Array, b: &Array) -> bool
    ensures { result ≡ same_interface (bare_array a.now) (bare_array b.now) }
{
    same_type(&a.element, &b.element) && a.length.value.value() == b.length.value.value()
}

/// Whether two types are the same.
#[tactic(auto, using(crate::proofs::SameDecides::type_answer))]
fn same_type(a: &CType, b: &CType) -> bool
    ensures { result ≡ same_type (bare_type a.now) (bare_type b.now) }
{
    c_tree::same_type(a, b)
}
