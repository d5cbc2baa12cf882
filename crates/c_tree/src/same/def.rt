ghost use Rattle.std.specs.Prelude.{IsTrue, ◌≡◌, ◌↔◌, map, option_map};
ghost use Rattle.c_tree.specs.Bare.{bare_array, bare_binding, bare_def, bare_expr, bare_field_value, bare_function, bare_parameters, bare_prototype, bare_struct_transform, bare_type};

use crate::def::{
    Array, Binding, Def, DefKind as Kind, FieldValue, Function, Parameters, Prototype,
    StructTransform,
};
use crate::expr::Expr;
use crate::name::CType;
use crate::same::ctype::same_type;
use crate::same::expr::{same_expr, same_exprs};
use crate::same::stmt::{same_block, same_declaration};
use dsu_io::List;

/// Whether two definitions are the same but for their places and their numbers of tokens.
pub fn same_def(a: &Def, b: &Def) -> bool
    ensures { IsTrue result ↔ (bare_def a.now ≡ bare_def b.now) }
{
    match &a.kind {
        Kind::Struct(name, x) =>
            matches!(&b.kind, Kind::Struct(other, y) if other.text == name.text && same_bindings(x.as_slice(), y.as_slice())),
        Kind::Forward(name) => matches!(&b.kind, Kind::Forward(other) if other.text == name.text),
        Kind::Mutex(name) => matches!(&b.kind, Kind::Mutex(other) if other.text == name.text),
        Kind::Function(x) => matches!(&b.kind, Kind::Function(y) if same_function(x, y)),
        Kind::Prototype(x) => matches!(&b.kind, Kind::Prototype(y) if same_prototype(x, y)),
        Kind::Global(x) => matches!(&b.kind, Kind::Global(y) if same_declaration(x, y)),
        Kind::Array(x) => matches!(&b.kind, Kind::Array(y) if same_array(x, y)),
        Kind::TransformStruct(x) =>
            matches!(&b.kind, Kind::TransformStruct(y) if same_struct_transform(x, y)),
        Kind::TransformGlobal(name, x) =>
            matches!(&b.kind, Kind::TransformGlobal(other, y) if other.text == name.text && same_expr(x, y)),
    }
}

fn same_function(a: &Function, b: &Function) -> bool
    ensures { IsTrue result ↔ (bare_function a.now ≡ bare_function b.now) }
{
    same_result(&a.result, &b.result)
        && a.name.text == b.name.text
        && same_bindings(a.parameters.as_slice(), b.parameters.as_slice())
        && same_block(&a.body, &b.body)
}

fn same_prototype(a: &Prototype, b: &Prototype) -> bool
    ensures { IsTrue result ↔ (bare_prototype a.now ≡ bare_prototype b.now) }
{
    same_result(&a.result, &b.result)
        && a.name.text == b.name.text
        && same_parameters(&a.parameters, &b.parameters)
}

fn same_array(a: &Array, b: &Array) -> bool
    ensures { IsTrue result ↔ (bare_array a.now ≡ bare_array b.now) }
{
    same_type(&a.element, &b.element)
        && a.name.text == b.name.text
        && a.length.value == b.length.value
        && same_initial(&a.initial, &b.initial)
}

fn same_struct_transform(a: &StructTransform, b: &StructTransform) -> bool
    ensures { IsTrue result ↔ (bare_struct_transform a.now ≡ bare_struct_transform b.now) }
{
    a.name.text == b.name.text && same_field_values(a.values.as_slice(), b.values.as_slice())
}

fn same_parameters(a: &Parameters, b: &Parameters) -> bool
    ensures { IsTrue result ↔ (bare_parameters a.now ≡ bare_parameters b.now) }
{
    match a {
        Parameters::Named(x) =>
            matches!(b, Parameters::Named(y) if same_bindings(x.as_slice(), y.as_slice())),
        Parameters::Unnamed(x) =>
            matches!(b, Parameters::Unnamed(y) if same_types(x.as_slice(), y.as_slice())),
    }
}

fn same_result(a: &Option<CType>, b: &Option<CType>) -> bool
    ensures { IsTrue result ↔ (option_map bare_type a.now ≡ option_map bare_type b.now) }
{
    match a {
        Some(x) => matches!(b, Some(y) if same_type(x, y)),
        None => b.is_none(),
    }
}

fn same_initial(a: &Option<List<Expr>>, b: &Option<List<Expr>>) -> bool
    ensures { IsTrue result ↔ (option_map (map bare_expr) a.now ≡ option_map (map bare_expr) b.now) }
{
    match a {
        Some(x) => matches!(b, Some(y) if same_exprs(x.as_slice(), y.as_slice())),
        None => b.is_none(),
    }
}

fn same_binding(a: &Binding, b: &Binding) -> bool
    ensures { IsTrue result ↔ (bare_binding a.now ≡ bare_binding b.now) }
{
    same_type(&a.declared, &b.declared) && a.name.text == b.name.text
}

fn same_field_value(a: &FieldValue, b: &FieldValue) -> bool
    ensures { IsTrue result ↔ (bare_field_value a.now ≡ bare_field_value b.now) }
{
    a.field.text == b.field.text && same_expr(&a.value, &b.value)
}

fn same_bindings(a: &[Binding], b: &[Binding]) -> bool
    ensures { IsTrue result ↔ (map bare_binding a.now ≡ map bare_binding b.now) }
{
    if a.len() != b.len() {
        return false;
    }
    for i in 0..a.len() {
        if !same_binding(&a[i], &b[i]) {
            return false;
        }
    }
    true
}

fn same_types(a: &[CType], b: &[CType]) -> bool
    ensures { IsTrue result ↔ (map bare_type a.now ≡ map bare_type b.now) }
{
    if a.len() != b.len() {
        return false;
    }
    for i in 0..a.len() {
        if !same_type(&a[i], &b[i]) {
            return false;
        }
    }
    true
}

fn same_field_values(a: &[FieldValue], b: &[FieldValue]) -> bool
    ensures { IsTrue result ↔ (map bare_field_value a.now ≡ map bare_field_value b.now) }
{
    if a.len() != b.len() {
        return false;
    }
    for i in 0..a.len() {
        if !same_field_value(&a[i], &b[i]) {
            return false;
        }
    }
    true
}
