//! The kinds of types, and the values of constant expressions.
use crate::values::{NO_THREAD, NULL, ONE, SEVENTH, THREAD, THREE, ZERO, same};
use c_ints::{BinOp, Int, Kind, UnOp};
use c_tree::CType;
use constant_values::{ValueKind, chosen, converted, kind_of, wrapped, wrapped_unary, zero};
use local_evaluation::Value;

/// What is evaluated.
enum Constant {
    Zero(ValueKind),
    Converted(ValueKind, Value),
    Binary(BinOp, Value, Value),
    Unary(UnOp, Value),
    /// A condition, and the values where it holds and where it doesn't.
    Choice(Value, Value, Value),
}

const BYTE: ValueKind = ValueKind::Number(Kind::I8);

const BYTE_ZERO: Value = Value::Number(Int::I8(0));

const LEAST: Value = Value::Number(Int::I32(i32::MIN));

const GREATEST: Value = Value::Number(Int::I32(i32::MAX));

/// Zeros and conversions.
#[rattlefmt::skip]
static CONVERSIONS: [(Constant, Value); 9] = [
    (Constant::Zero(BYTE), BYTE_ZERO),
    (Constant::Zero(ValueKind::Reference), NULL),
    (Constant::Zero(ValueKind::Thread), NO_THREAD),
    (Constant::Converted(BYTE, Value::Number(Int::I32(200))), Value::Number(Int::I8(-56))),
    (Constant::Converted(BYTE, SEVENTH), BYTE_ZERO),
    (Constant::Converted(ValueKind::Reference, SEVENTH), SEVENTH),
    (Constant::Converted(ValueKind::Reference, ZERO), NULL),
    (Constant::Converted(ValueKind::Thread, THREAD), THREAD),
    (Constant::Converted(ValueKind::Thread, SEVENTH), NO_THREAD),
];

#[rattlefmt::skip]
static OPERATORS: [(Constant, Value); 12] = [
    (Constant::Binary(BinOp::Add, GREATEST, ONE), LEAST),
    (Constant::Binary(BinOp::Div, Value::Number(Int::I32(6)), Value::Number(Int::I32(2))), ZERO),
    (Constant::Binary(BinOp::Lt, ONE, Value::Number(Int::I32(2))), ONE),
    (Constant::Binary(BinOp::Eq, SEVENTH, ZERO), ZERO),
    (Constant::Binary(BinOp::Ne, SEVENTH, NULL), ONE),
    (Constant::Binary(BinOp::Eq, NULL, ZERO), ONE),
    (Constant::Unary(UnOp::Negate, LEAST), LEAST),
    (Constant::Unary(UnOp::Not, NULL), ONE),
    (Constant::Unary(UnOp::Not, SEVENTH), ZERO),
    (Constant::Choice(THREE, SEVENTH, ZERO), SEVENTH),
    (Constant::Choice(NULL, SEVENTH, ZERO), NULL),
    (Constant::Choice(ONE, Value::Number(Int::U8(9)), Value::Number(Int::I64(1))), Value::Number(Int::I64(9))),
];

fn value_of(constant: &Constant) -> Value {
    match constant {
        Constant::Zero(kind) => zero(*kind),
        Constant::Converted(kind, value) => converted(*kind, *value),
        Constant::Binary(op, a, b) => wrapped(*op, *a, *b),
        Constant::Unary(op, a) => wrapped_unary(*op, *a),
        Constant::Choice(condition, a, b) => chosen(*condition, *a, *b),
    }
}

fn has_kind(declared: CType, kind: ValueKind) -> bool {
    let found = kind_of(&declared);
    drop(declared);
    found == kind
}

#[test]
fn types_have_kinds(rt: HostRuntime) {
    assert!(rt; has_kind(CType::Integer(Kind::U16), ValueKind::Number(Kind::U16)));
    assert!(rt; has_kind(CType::Thread, ValueKind::Thread));
}

#[test]
fn values_are_converted(rt: HostRuntime) {
    for (row, (constant, due)) in CONVERSIONS.iter().enumerate() {
        assert!(rt; same(value_of(constant), *due), "row {row}");
    }
}

#[test]
fn operators_wrap(rt: HostRuntime) {
    for (row, (constant, due)) in OPERATORS.iter().enumerate() {
        assert!(rt; same(value_of(constant), *due), "row {row}");
    }
}
