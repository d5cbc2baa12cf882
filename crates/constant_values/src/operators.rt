//! The operators of initialisers and transformers.
ghost use Rattle.std.specs.Prelude.{◌≡◌};
ghost use Rattle.c_semantics.specs.Values.{is_true, compared};
ghost use Rattle.c_semantics.specs.Constants.{safe as safe_of, object_of, wrapped, wrapped_unary, chosen};
ghost use Rattle.local_evaluation.specs.Values.{seen, seen_object};

use c_ints::{BinOp, Int, SafeOp, UnOp, binary_wrap, common, convert, unary_wrap};
use local_evaluation::{ObjectId, Value};

/// A binary operator. Where one side is a handle the other is one too, or 0.
pub fn wrapped(op: BinOp, a: Value, b: Value) -> Value
    ensures { seen result ≡ wrapped op (seen a) (seen b) }
{
    match (a, b) {
        (Value::Number(a), Value::Number(b)) => match safe(op) {
            Some(op) => Value::Number(binary_wrap(op, a, b)),
            None => Value::Number(Int::I32(0)),
        },
        _ => compared(op, object_of(a), object_of(b)),
    }
}

/// A comparison of two handles.
fn compared(op: BinOp, a: Option<ObjectId>, b: Option<ObjectId>) -> Value
    ensures { seen result ≡ compared op (seen_object a) (seen_object b) }
{
    let (a, b) = (Value::Reference(a), Value::Reference(b));
    Value::binary(op, a, b).unwrap_or(Value::Number(Int::I32(0)))
}

/// A unary operator; of a handle there is `!` alone.
pub fn wrapped_unary(op: UnOp, a: Value) -> Value
    ensures { seen result ≡ wrapped_unary op (seen a) }
{
    match a {
        Value::Number(n) => Value::Number(unary_wrap(op, n)),
        Value::Reference(_) | Value::Started(_) => Value::truth(!a.is_true()),
    }
}

/// One of two values, by a condition, at their common type (C11 6.5.15).
pub fn chosen(condition: Value, a: Value, b: Value) -> Value
    ensures { seen result ≡ chosen (is_true (seen condition)) (seen a) (seen b) }
{
    let first = condition.is_true();
    match (a, b) {
        (Value::Number(a), Value::Number(b)) => {
            let n = if first { a } else { b };
            Value::Number(convert(n, common(a.kind(), b.kind())))
        }
        _ => Value::Reference(object_of(if first { a } else { b })),
    }
}

/// The object of a handle; the `int` 0 is the null handle.
fn object_of(value: Value) -> Option<ObjectId>
    ensures { seen_object result ≡ object_of (seen value) }
{
    match value {
        Value::Reference(object) => object,
        Value::Number(_) | Value::Started(_) => None,
    }
}

/// The operator of those that an initialiser or a transformer can have.
fn safe(op: BinOp) -> Option<SafeOp>
    ensures { result ≡ safe_of op }
{
    match op {
        BinOp::Add => Some(SafeOp::Add),
        BinOp::Sub => Some(SafeOp::Sub),
        BinOp::Mul => Some(SafeOp::Mul),
        BinOp::And => Some(SafeOp::And),
        BinOp::Or => Some(SafeOp::Or),
        BinOp::Xor => Some(SafeOp::Xor),
        BinOp::Lt => Some(SafeOp::Lt),
        BinOp::Gt => Some(SafeOp::Gt),
        BinOp::Le => Some(SafeOp::Le),
        BinOp::Ge => Some(SafeOp::Ge),
        BinOp::Eq => Some(SafeOp::Eq),
        BinOp::Ne => Some(SafeOp::Ne),
        BinOp::Div | BinOp::Rem | BinOp::Shl | BinOp::Shr => None,
    }
}
