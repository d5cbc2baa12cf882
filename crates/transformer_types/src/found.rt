ghost use Rattle.std.specs.Prelude.{◌≡◌, ◌&&◌, option_map};
ghost use Rattle.c_expr_types.specs.Expressions.{follows};
ghost use Rattle.c_expr_types.specs.Faults.{first};
ghost use Rattle.c_expr_types.specs.Found.{converts, has_value, is_comparable, is_handle, is_integer, is_null, is_scalar, kind_in, required, same_type, type_of, unless_wrong};
ghost use Rattle.patch_faults.specs.TransformTypes.{by_itself, is_object};
ghost use Rattle.transformer_types.specs.Views.{fault_seen, found_seen, old_seen, part_seen};

use crate::fault::{ValueFault, wrong_unless};
use crate::layout::same_type;
use c_ints::Kind;
use c_tree::{Binding, CType};

/// What `old` is.
#[derive(Clone, Copy)]
pub enum Old<'a> {
    /// An object of a struct with these fields.
    Object(&'a [Binding]),
    /// A value of a type.
    Value(&'a CType),
}

/// What an expression is found to be. Types are lent from the text that has them.
#[derive(Clone, Copy)]
pub enum Found<'a> {
    /// It or a part of it has faults, of which this is the first.
    Wrong(ValueFault),
    /// A value of a type that a text writes.
    Of(&'a CType),
    /// A value of an integer type that an operator or a number gives.
    Integer(Kind),
    /// A number of value 0, of an integer type; each handle takes it too.
    Zero(Kind),
    /// `NULL`
    Null,
    /// An object, which is no value by itself.
    Object,
    /// A form that no transformer has.
    Nothing,
}

/// An expression that another one is made of.
#[derive(Clone, Copy)]
pub struct Part<'a> {
    /// Its first byte.
    pub place: usize,
    pub found: Found<'a>,
}

impl<'a> Old<'a> {
    /// `old` by itself.
    pub(crate) fn by_itself(self) -> Found<'a>
        ensures { found_seen result ≡ by_itself (old_seen self.entry) }
    {
        match self {
            Old::Object(_) => Found::Object,
            Old::Value(declared) => Found::Of(declared),
        }
    }

    /// Whether it has fields.
    pub(crate) fn is_object(self) -> bool
        ensures { result ≡ is_object (old_seen self.entry) }
    {
        matches!(self, Old::Object(_))
    }
}

impl<'a> Found<'a> {
    /// Whether it has a value of an integer type.
    pub(crate) fn has_integer(self) -> bool
        ensures { result ≡ has_value is_integer (found_seen self.entry) }
    {
        match self {
            Found::Of(t) => matches!(t, CType::Integer(_)),
            Found::Integer(_) | Found::Zero(_) => true,
            Found::Wrong(_) | Found::Null | Found::Object | Found::Nothing => false,
        }
    }

    /// Whether it has a value that can be tested for zero.
    pub(crate) fn has_scalar(self) -> bool
        ensures { result ≡ has_value is_scalar (found_seen self.entry) }
    {
        match self {
            Found::Of(t) => !matches!(t, CType::Thread),
            Found::Integer(_) | Found::Zero(_) => true,
            Found::Wrong(_) | Found::Null | Found::Object | Found::Nothing => false,
        }
    }

    /// Whether it is `NULL` or a number of value 0.
    pub(crate) fn is_null(self) -> bool
        ensures { result ≡ is_null (found_seen self.entry) }
    {
        matches!(self, Found::Zero(_) | Found::Null)
    }

    /// Whether it is an operand of `==` in some pair.
    pub(crate) fn is_comparable(self) -> bool
        ensures { result ≡ is_comparable (found_seen self.entry) }
    {
        self.is_null() || self.has_scalar()
    }

    /// Whether it has a value of a type.
    fn has_type(self, due: &CType) -> bool
        ensures { result ≡ has_value (same_type due.now) (found_seen self.entry) }
    {
        match self {
            Found::Of(t) => same_type(due, t),
            Found::Integer(kind) => same_type(due, &CType::Integer(kind)),
            Found::Zero(kind) => same_type(due, &CType::Integer(kind)),
            Found::Wrong(_) | Found::Null | Found::Object | Found::Nothing => false,
        }
    }

    /// Whether its value is converted to a type as by assignment.
    pub(crate) fn converts(self, to: &CType) -> bool
        ensures { result ≡ converts to.now (found_seen self.entry) }
    {
        match to {
            CType::Integer(_) => self.has_integer(),
            CType::Handle(_) => self.is_null() || self.has_type(to),
            CType::Thread => self.has_type(to),
        }
    }

    /// Whether it is a handle to whose type another value is converted.
    pub(crate) fn leads(self, other: Found) -> bool
        ensures { result ≡ (has_value is_handle (found_seen self.entry) && follows (type_of (found_seen self.entry)) (found_seen other.entry)) }
    {
        match self {
            Found::Of(t) => matches!(t, CType::Handle(_)) && other.converts(t),
            _ => false,
        }
    }
}

impl<'a> Part<'a> {
    /// What is wrong with it where something is required of it that holds or doesn't.
    pub(crate) fn required(self, holds: bool) -> Option<ValueFault>
        ensures { option_map fault_seen result ≡ first (required holds (part_seen self.entry)) }
    {
        match self.found {
            Found::Wrong(fault) => Some(fault),
            _ => wrong_unless(holds, self.place),
        }
    }

    /// The kind of its value, where that is an integer, and else that of `int`.
    pub(crate) fn kind(self) -> Kind
        ensures { result ≡ kind_in (part_seen self.entry) }
    {
        match self.found {
            Found::Of(CType::Integer(kind)) => *kind,
            Found::Integer(kind) => kind,
            Found::Zero(kind) => kind,
            _ => Kind::I32,
        }
    }
}

/// What an expression is that has a fault where one is there, and else is as said.
pub(crate) fn unless_wrong<'a>(fault: Option<ValueFault>, found: Found<'a>) -> Found<'a>
    ensures { found_seen result ≡ unless_wrong (option_map fault_seen fault) (found_seen found.entry) }
{
    match fault {
        Some(fault) => Found::Wrong(fault),
        None => found,
    }
}
