ghost use Rattle.std.specs.Prelude.{◌≡◌, option_copied, option_map};
ghost use Rattle.c_definitions.specs.Lookup.{defined, meaning_in, meaning_of, members_in, name_of};
ghost use Rattle.c_definitions.specs.Views.{meaning_seen, names_seen};

use crate::known::Known;
use c_scope::Scopes;
use c_tree::{Binding, CType, DefKind, Function, Name};
use dsu_io::List;

/// Where an expression stands.
#[derive(Clone, Copy)]
pub enum Position {
    /// In a function.
    InFunction,
    /// In an initialiser of a global, where only some forms are allowed.
    InInitialiser,
}

/// What the names of an expression are looked up in.
#[derive(Clone, Copy)]
pub struct Names<'a> {
    pub text: &'a Known<'a>,
    pub scopes: &'a Scopes<CType>,
    pub position: Position,
}

/// What a name stands for that is no struct's tag.
#[derive(Clone, Copy)]
pub enum Meaning<'a> {
    Variable(&'a CType),
    /// Of elements of a type.
    Array(&'a CType),
    Function(&'a Function),
    Mutex,
}

/// The name that a definition declares. A prototype declares none.
pub fn name_of(kind: &DefKind) -> Option<&Name>
    ensures { option_copied result ≡ name_of kind.now }
{
    match kind {
        DefKind::Function(function) => Some(&function.name),
        DefKind::Global(declaration) => Some(&declaration.name),
        DefKind::Array(array) => Some(&array.name),
        DefKind::Mutex(name) => Some(name),
        DefKind::Struct(_, _)
        | DefKind::Forward(_)
        | DefKind::Prototype(_)
        | DefKind::TransformStruct(_)
        | DefKind::TransformGlobal(_, _) => None,
    }
}

/// The members that a struct's definition has.
pub fn members_in(kind: &DefKind) -> Option<&List<Binding>>
    ensures { option_copied result ≡ members_in kind.now }
{
    match kind {
        DefKind::Struct(_, members) => Some(members),
        _ => None,
    }
}

/// What a definition's name stands for.
pub fn meaning_in<'a>(kind: &'a DefKind) -> Option<Meaning<'a>>
    ensures { option_map meaning_seen result ≡ meaning_in kind.now }
{
    match kind {
        DefKind::Function(function) => Some(Meaning::Function(function)),
        DefKind::Global(declaration) => Some(Meaning::Variable(&declaration.declared)),
        DefKind::Array(array) => Some(Meaning::Array(&array.element)),
        DefKind::Mutex(_) => Some(Meaning::Mutex),
        DefKind::Struct(_, _)
        | DefKind::Forward(_)
        | DefKind::Prototype(_)
        | DefKind::TransformStruct(_)
        | DefKind::TransformGlobal(_, _) => None,
    }
}

/// What a name of the text's first level stands for.
pub fn defined<'a>(text: &'a Known<'a>, name: &str) -> Option<Meaning<'a>>
    ensures { option_map meaning_seen result ≡ defined text.now name.now }
{
    let def = text.definition_of(name)?;
    meaning_in(&def.kind)
}

impl<'a> Names<'a> {
    /// What a name stands for: a variable of a block, else what the text defines.
    pub fn meaning_of(&self, name: &str) -> Option<Meaning<'a>>
        ensures { option_map meaning_seen result ≡ meaning_of (names_seen self.now) name.now }
    {
        if let Some(declared) = self.scopes.find(name) {
            return Some(Meaning::Variable(declared));
        }
        let def = self.text.definition_of(name)?;
        meaning_in(&def.kind)
    }
}
