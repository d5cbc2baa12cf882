//! The kinds of values.
ghost use Rattle.std.specs.Prelude.{◌≡◌};
ghost use Rattle.c_tree.specs.Bare.{bare_type};
ghost use Rattle.c_tree.specs.BareExpr.{BareType};
ghost use Rattle.c_semantics.specs.Values.{zero_of, converted_to};
ghost use Rattle.local_evaluation.specs.Values.{seen};
ghost use Rattle.constant_values.specs.Kinds.{kind_of as kind_of_type, zero_of_kind, converted_to_kind};

use c_ints::{Int, Kind, convert};
use c_tree::CType;
use local_evaluation::Value;

/// What kind of value a variable, a field or an element has.
#[derive(Clone, Copy, PartialEq, Eq, Debug)]
pub enum ValueKind {
    /// An integer of a kind.
    Number(Kind),
    /// A handle.
    Reference,
    /// A `thrd_t`.
    Thread,
}

/// The kind of value of a type.
pub fn kind_of(declared: &CType) -> ValueKind
    ensures { result ≡ kind_of_type (bare_type declared.now) }
{
    match declared {
        CType::Integer(kind) => ValueKind::Number(*kind),
        CType::Handle(_) => ValueKind::Reference,
        CType::Thread => ValueKind::Thread,
    }
}

/// Zero, null, or no thread: how a variable begins.
pub fn zero(kind: ValueKind) -> Value
    ensures value { seen result ≡ zero_of_kind kind }
    ensures of_type { (t : BareType) → kind_of_type t ≡ kind → seen result ≡ zero_of t }
{
    match kind {
        ValueKind::Number(kind) => Value::Number(convert(Int::I32(0), kind)),
        ValueKind::Reference => Value::Reference(None),
        ValueKind::Thread => Value::Started(None),
    }
}

/// A value converted as by assignment (C11 6.5.16.1).
pub fn converted(to: ValueKind, value: Value) -> Value
    ensures value { seen result ≡ converted_to_kind to (seen value) }
    ensures of_type { (t : BareType) → kind_of_type t ≡ to → seen result ≡ converted_to t (seen value) }
{
    match (to, value) {
        (ValueKind::Number(kind), Value::Number(n)) => Value::Number(convert(n, kind)),
        (ValueKind::Reference, Value::Reference(object)) => Value::Reference(object),
        (ValueKind::Thread, Value::Started(thread)) => Value::Started(thread),
        _ => zero(to),
    }
}
