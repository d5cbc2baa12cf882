ghost use Rattle.std.specs.Prelude.{◌≡◌, IfOk};

use crate::expr::{Expr, copy_exprs};
use crate::name::{CType, Name};
use crate::stmt::{Declaration, Stmt, copy_stmts};
use c_ints::Int;
use dsu_io::List;
use std::alloc::{AllocError, Global};

/// A name and the type that it is declared with: a struct's member or a function's parameter.
#[derive(Debug, Drop)]
pub struct Binding {
    pub declared: CType,
    pub name: Name,
}

/// The parameters that a prototype writes: all with names, or all without.
#[derive(Debug, Drop)]
pub enum Parameters {
    /// `()`, `(void)` and `(int a, int b)`
    Named(List<Binding>),
    /// `(int, int)`
    Unnamed(List<CType>),
}

/// A declaration of a function without its body (6.7.6.3).
#[derive(Debug, Drop)]
pub struct Prototype {
    /// `None` where it is `void`.
    pub result: Option<CType>,
    pub name: Name,
    pub parameters: Parameters,
}

/// A definition of a function (6.9.1).
#[derive(Debug, Drop)]
pub struct Function {
    /// `None` where it is `void`.
    pub result: Option<CType>,
    pub name: Name,
    pub parameters: List<Binding>,
    pub body: List<Stmt>,
    /// The place of its closing brace.
    pub end: usize,
    /// How many tokens it has, from its result type to its closing brace.
    pub tokens: u32,
}

/// The length that an array is declared with.
#[derive(Clone, Copy, Debug)]
pub struct Length {
    pub place: usize,
    pub value: Int,
}

/// A global array.
#[derive(Debug, Drop)]
pub struct Array {
    pub element: CType,
    pub name: Name,
    pub length: Length,
    /// `None` where no list of initialisers is written.
    pub initial: Option<List<Expr>>,
}

/// `f = e;` in a struct's transformer.
#[derive(Debug, Drop)]
pub struct FieldValue {
    pub field: Name,
    pub value: Expr,
}

/// `dsu_transform struct T { .. }`
#[derive(Debug, Drop)]
pub struct StructTransform {
    pub name: Name,
    pub values: List<FieldValue>,
}

/// One definition or declaration of a text's first level; a declarator of a global is one by itself.
#[derive(Debug, Drop)]
pub struct Def {
    /// The first byte of its first token after `static`, counted in bytes from 0.
    pub place: usize,
    pub kind: DefKind,
}

/// What a definition defines or declares. `static` is no part of it.
#[derive(Debug, Drop)]
pub enum DefKind {
    Struct(Name, List<Binding>),
    /// `struct T;`
    Forward(Name),
    Mutex(Name),
    Function(Function),
    Prototype(Prototype),
    Global(Declaration),
    Array(Array),
    TransformStruct(StructTransform),
    /// `dsu_transform g = e;`
    TransformGlobal(Name, Expr),
}

/// The tree of a whole text.
#[derive(Debug, Drop)]
pub struct Program {
    pub definitions: List<Def>,
    /// The length of the text in bytes, or the place where its tokens end.
    pub end: usize,
}

impl Def {
    /// A copy, places and numbers of tokens and all. It fails only when out of memory.
    pub fn copy_def(&self, alloc: Global) -> Result<Def, AllocError>
        ensures { IfOk result (λ copy. copy ≡ self.now) }
    {
        Ok(Def {
            place: self.place,
            kind: copy_kind(alloc, &self.kind)?,
        })
    }
}

fn copy_kind(alloc: Global, kind: &DefKind) -> Result<DefKind, AllocError>
    ensures { IfOk result (λ copy. copy ≡ kind.now) }
{
    match kind {
        DefKind::Struct(name, members) => Ok(DefKind::Struct(
            name.copy()?,
            copy_bindings(alloc, members)?,
        )),
        DefKind::Forward(name) => Ok(DefKind::Forward(name.copy()?)),
        DefKind::Mutex(name) => Ok(DefKind::Mutex(name.copy()?)),
        DefKind::Function(function) => Ok(DefKind::Function(copy_function(alloc, function)?)),
        DefKind::Prototype(prototype) => Ok(DefKind::Prototype(copy_prototype(alloc, prototype)?)),
        DefKind::Global(declaration) => Ok(DefKind::Global(declaration.copy(alloc)?)),
        DefKind::Array(array) => Ok(DefKind::Array(copy_array(alloc, array)?)),
        DefKind::TransformStruct(transform) => Ok(DefKind::TransformStruct(copy_struct_transform(
            alloc, transform,
        )?)),
        DefKind::TransformGlobal(name, value) => Ok(DefKind::TransformGlobal(
            name.copy()?,
            value.copy(alloc)?,
        )),
    }
}

fn copy_function(alloc: Global, function: &Function) -> Result<Function, AllocError>
    ensures { IfOk result (λ copy. copy ≡ function.now) }
{
    Ok(Function {
        result: copy_result(&function.result)?,
        name: function.name.copy()?,
        parameters: copy_bindings(alloc, &function.parameters)?,
        body: copy_stmts(alloc, &function.body)?,
        end: function.end,
        tokens: function.tokens,
    })
}

fn copy_prototype(alloc: Global, prototype: &Prototype) -> Result<Prototype, AllocError>
    ensures { IfOk result (λ copy. copy ≡ prototype.now) }
{
    Ok(Prototype {
        result: copy_result(&prototype.result)?,
        name: prototype.name.copy()?,
        parameters: copy_parameters(alloc, &prototype.parameters)?,
    })
}

fn copy_array(alloc: Global, array: &Array) -> Result<Array, AllocError>
    ensures { IfOk result (λ copy. copy ≡ array.now) }
{
    Ok(Array {
        element: array.element.copy()?,
        name: array.name.copy()?,
        length: array.length,
        initial: copy_initial(alloc, &array.initial)?,
    })
}

fn copy_struct_transform(
    alloc: Global,
    transform: &StructTransform,
) -> Result<StructTransform, AllocError>
    ensures { IfOk result (λ copy. copy ≡ transform.now) }
{
    Ok(StructTransform {
        name: transform.name.copy()?,
        values: copy_field_values(alloc, &transform.values)?,
    })
}

fn copy_parameters(alloc: Global, parameters: &Parameters) -> Result<Parameters, AllocError>
    ensures { IfOk result (λ copy. copy ≡ parameters.now) }
{
    match parameters {
        Parameters::Named(list) => Ok(Parameters::Named(copy_bindings(alloc, list)?)),
        Parameters::Unnamed(list) => Ok(Parameters::Unnamed(copy_types(alloc, list)?)),
    }
}

fn copy_result(result_type: &Option<CType>) -> Result<Option<CType>, AllocError>
    ensures { IfOk result (λ copy. copy ≡ result_type.now) }
{
    match result_type {
        Some(declared) => Ok(Some(declared.copy()?)),
        None => Ok(None),
    }
}

fn copy_initial(
    alloc: Global,
    initial: &Option<List<Expr>>,
) -> Result<Option<List<Expr>>, AllocError>
    ensures { IfOk result (λ copy. copy ≡ initial.now) }
{
    match initial {
        Some(list) => Ok(Some(copy_exprs(alloc, list)?)),
        None => Ok(None),
    }
}

fn copy_bindings(alloc: Global, list: &List<Binding>) -> Result<List<Binding>, AllocError>
    ensures { IfOk result (λ copy. copy ≡ list.now) }
{
    let bindings = list.as_slice();
    let mut copies = Vec::new(alloc);
    for binding in bindings {
        copies.push(Binding {
            declared: binding.declared.copy()?,
            name: binding.name.copy()?,
        })?;
    }
    Ok(List::of(copies))
}

fn copy_types(alloc: Global, list: &List<CType>) -> Result<List<CType>, AllocError>
    ensures { IfOk result (λ copy. copy ≡ list.now) }
{
    let types = list.as_slice();
    let mut copies = Vec::new(alloc);
    for declared in types {
        copies.push(declared.copy()?)?;
    }
    Ok(List::of(copies))
}

fn copy_field_values(alloc: Global, list: &List<FieldValue>) -> Result<List<FieldValue>, AllocError>
    ensures { IfOk result (λ copy. copy ≡ list.now) }
{
    let values = list.as_slice();
    let mut copies = Vec::new(alloc);
    for value in values {
        copies.push(FieldValue {
            field: value.field.copy()?,
            value: value.value.copy(alloc)?,
        })?;
    }
    Ok(List::of(copies))
}
