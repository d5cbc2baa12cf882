ghost use Rattle.std.specs.Prelude.{◌≡◌};
ghost use Rattle.c_expr_types.specs.Faults.{first};
ghost use Rattle.c_expr_types.specs.Found.{converts, has_value, is_comparable, is_evaluated, is_handle, is_integer, is_null, is_scalar, is_value, kind_in, place_required, required, same_kind, same_type};

use crate::fault::{Fault, TypeKind, unless};
use c_ints::Kind;
use c_tree::CType;

/// What an expression is found to be.
#[derive(Drop)]
pub enum Found {
    /// It or a part of it has faults, of which this is the first.
    Wrong(Fault),
    /// A place for values of a type; its value is the one that is there.
    Place(CType),
    /// A value of a type.
    Value(CType),
    /// A number of value 0, of an integer type; each handle takes it too.
    Zero(Kind),
    /// `NULL`
    Null,
    /// What has no value: a `printf`, a `free`, a call of a void function.
    Nothing,
    /// The name of a function, an array or a mutex by itself.
    Designator,
}

/// An expression that another one is made of.
#[derive(Drop)]
pub struct Part {
    /// Its first byte.
    pub place: usize,
    pub found: Found,
}

impl Found {
    /// Whether it has a value of an integer type.
    pub fn has_integer(&self) -> bool
        ensures { result ≡ has_value is_integer self.now }
    {
        match self {
            Found::Place(t) => matches!(t, CType::Integer(_)),
            Found::Value(t) => matches!(t, CType::Integer(_)),
            Found::Zero(_) => true,
            Found::Wrong(_) | Found::Null | Found::Nothing | Found::Designator => false,
        }
    }

    /// Whether it has a value of a handle's type. `NULL` has none.
    pub fn has_handle(&self) -> bool
        ensures { result ≡ has_value is_handle self.now }
    {
        match self {
            Found::Place(t) => matches!(t, CType::Handle(_)),
            Found::Value(t) => matches!(t, CType::Handle(_)),
            _ => false,
        }
    }

    /// Whether it has a value that can be tested for zero.
    pub fn has_scalar(&self) -> bool
        ensures { result ≡ has_value is_scalar self.now }
    {
        match self {
            Found::Place(t) => !matches!(t, CType::Thread),
            Found::Value(t) => !matches!(t, CType::Thread),
            Found::Zero(_) => true,
            _ => false,
        }
    }

    /// Whether it is `NULL` or a number of value 0.
    pub fn is_null(&self) -> bool
        ensures { result ≡ is_null self.now }
    {
        matches!(self, Found::Zero(_) | Found::Null)
    }

    /// Whether it has a value.
    pub fn is_value(&self) -> bool
        ensures { result ≡ is_value self.now }
    {
        match self {
            Found::Place(_) | Found::Value(_) | Found::Zero(_) | Found::Null => true,
            Found::Wrong(_) | Found::Nothing | Found::Designator => false,
        }
    }

    /// Whether it can stand as a statement.
    pub fn is_evaluated(&self) -> bool
        ensures { result ≡ is_evaluated self.now }
    {
        !matches!(self, Found::Designator)
    }

    /// Whether it is an operand of `==` in some pair.
    pub fn is_comparable(&self) -> bool
        ensures { result ≡ is_comparable self.now }
    {
        self.is_null() || self.has_scalar()
    }

    /// Whether its value is converted to a type as by assignment.
    pub fn converts(&self, to: &CType) -> bool
        ensures { result ≡ converts to.now self.now }
    {
        match to {
            CType::Integer(_) => self.has_integer(),
            CType::Handle(_) => self.is_null() || self.has_type(to),
            CType::Thread => self.has_type(to),
        }
    }

    /// Whether it has a value of a type.
    pub fn has_type(&self, due: &CType) -> bool
        ensures { result ≡ has_value (same_type due.now) self.now }
    {
        match self {
            Found::Place(t) => same(due, t),
            Found::Value(t) => same(due, t),
            Found::Zero(kind) => matches!(due, CType::Integer(other) if same_kind(*other, *kind)),
            _ => false,
        }
    }
}

impl Part {
    /// What is wrong with it where something is required of it that holds or doesn't.
    pub fn required(&self, holds: bool) -> Option<Fault>
        ensures { result ≡ first (required holds self.now) }
    {
        match &self.found {
            Found::Wrong(fault) => Some(*fault),
            _ => unless(holds, TypeKind::WrongType, self.place),
        }
    }

    /// What is wrong with it where it is to be a place, of whose type something is required.
    pub fn place_required(&self, holds: bool) -> Option<Fault>
        ensures { result ≡ first (place_required holds self.now) }
    {
        match &self.found {
            Found::Wrong(fault) => Some(*fault),
            Found::Place(_) => unless(holds, TypeKind::WrongType, self.place),
            _ => unless(false, TypeKind::NotPlace, self.place),
        }
    }

    /// The kind of its value, where that is an integer, and else that of `int`.
    pub fn kind(&self) -> Kind
        ensures { result ≡ kind_in self.now }
    {
        match &self.found {
            Found::Place(CType::Integer(kind)) => *kind,
            Found::Value(CType::Integer(kind)) => *kind,
            Found::Zero(kind) => *kind,
            _ => Kind::I32,
        }
    }
}

/// Whether two integer types are one.
pub fn same_kind(a: Kind, b: Kind) -> bool
    ensures { result ≡ same_kind a b }
{
    a.width() == b.width() && a.is_signed() == b.is_signed()
}

/// Whether two types are one.
pub fn same(a: &CType, b: &CType) -> bool
    ensures { result ≡ same_type a.now b.now }
{
    match (a, b) {
        (CType::Integer(a), CType::Integer(b)) => same_kind(*a, *b),
        (CType::Handle(a), CType::Handle(b)) => a.text == b.text,
        (CType::Thread, CType::Thread) => true,
        _ => false,
    }
}
