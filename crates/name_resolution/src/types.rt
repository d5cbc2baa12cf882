//! The types of expressions.
ghost use Rattle.std.specs.Prelude.{◌≡◌};
ghost use Rattle.c_semantics.specs.Resolution.{kind as kind_of, common_type as common_type_of};
ghost use Rattle.resolved_tree.specs.Nodes.{Table, type_of};
ghost use Rattle.resolved_tree.specs.Parts.{in_type, both};
ghost use Rattle.name_resolution.specs.Found.{IsIn};

use c_ints::{Kind, common};
use resolved_tree::ValueType;

/// The type `int`.
pub(crate) const INT: ValueType = ValueType::Integer(Kind::I32);

/// The kind of an integer's type; that of `int` where it is none.
pub(crate) fn kind(declared: ValueType) -> Kind
    ensures { (t : Table) → result ≡ kind_of (type_of t declared) }
{
    match declared {
        ValueType::Integer(kind) => kind,
        ValueType::Handle(_) | ValueType::Thread => Kind::I32,
    }
}

/// The type of two values of which one is taken, or that are compared (C11 6.5.15).
pub(crate) fn common_type(a: ValueType, b: ValueType) -> ValueType
    ensures declared { (t : Table) → type_of t result ≡ common_type_of (type_of t a) (type_of t b) }
    ensures within { (t : Table) → IsIn t (both (in_type a) (in_type b)) → IsIn t (in_type result) }
{
    match (a, b) {
        (ValueType::Handle(tag), _) | (_, ValueType::Handle(tag)) => ValueType::Handle(tag),
        (_, _) => ValueType::Integer(common(kind(a), kind(b))),
    }
}
