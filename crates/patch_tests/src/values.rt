//! Values that the tables name, and whether two values are the same.
use c_ints::Int;
use local_evaluation::{ObjectId, ThreadRef, Value};

pub(crate) const ZERO: Value = Value::Number(Int::I32(0));

pub(crate) const ONE: Value = Value::Number(Int::I32(1));

pub(crate) const THREE: Value = Value::Number(Int::I32(3));

pub(crate) const FIVE: Value = Value::Number(Int::I32(5));

pub(crate) const LONG_ZERO: Value = Value::Number(Int::I64(0));

pub(crate) const NULL: Value = Value::Reference(None);

pub(crate) const SEVENTH: Value = Value::Reference(Some(ObjectId(7)));

pub(crate) const NO_THREAD: Value = Value::Started(None);

pub(crate) const THREAD: Value = Value::Started(Some(ThreadRef { slot: 2, serial: 4 }));

/// Whether two values are the same.
pub(crate) fn same(a: Value, b: Value) -> bool {
    match (a, b) {
        (Value::Number(a), Value::Number(b)) => a == b,
        (Value::Reference(Some(a)), Value::Reference(Some(b))) => a.0 == b.0,
        (Value::Started(Some(a)), Value::Started(Some(b))) => {
            a.slot == b.slot && a.serial == b.serial
        }
        (Value::Reference(None), Value::Reference(None))
        | (Value::Started(None), Value::Started(None)) => true,
        _ => false,
    }
}

/// Whether two lists of values are the same.
pub(crate) fn all_same(a: &[Value], b: &[Value]) -> bool {
    for (first, second) in a.iter().zip(b) {
        if !same(*first, *second) {
            return false;
        }
    }
    a.len() == b.len()
}
