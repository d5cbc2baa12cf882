//! Values at run time, and what the private operators do with them.
ghost use Rattle.std.specs.Prelude.{◌≡◌, pos};
ghost use Rattle.c_ints.specs.Number.{number as number_of};
ghost use Rattle.c_ints.specs.Arithmetic.{truth as truth_of};
ghost use Rattle.c_semantics.specs.Values.{Number, int_of, zero_of, converted_to, is_true, as_value, same_object, compared, binary_result, unary_result};
ghost use Rattle.c_semantics.specs.Evaluation.{creation};
ghost use Rattle.resolved_tree.specs.Nodes.{Table, type_of};
ghost use Rattle.local_evaluation.specs.Values.{seen, seen_object, seen_result};

use c_ints::{ArithTrap, BinOp, Int, Kind, UnOp, convert};
use resolved_tree::ValueType;

/// The number of an object among all that were created.
#[derive(Clone, Copy)]
pub struct ObjectId(pub usize);

/// What a `thrd_t` names: a slot, and the thread that was started in it, by its number among all threads.
#[derive(Clone, Copy)]
pub struct ThreadRef {
    pub slot: usize,
    pub serial: usize,
}

/// A value.
#[derive(Clone, Copy)]
pub enum Value {
    /// An integer with its kind.
    Number(Int),
    /// A handle, or null.
    Reference(Option<ObjectId>),
    /// A `thrd_t`, which may name no thread.
    Started(Option<ThreadRef>),
}

impl Value {
    /// The `int` 1 where something holds, else the `int` 0.
    pub fn truth(holds: bool) -> Value
        ensures { seen result ≡ Number (truth_of holds) }
    {
        Value::Number(Int::I32(if holds { 1 } else { 0 }))
    }

    /// Zero, null, or no thread: how a variable of a type begins.
    pub fn zero_of(declared: ValueType) -> Value
        ensures { (t : Table) → seen result ≡ zero_of (type_of t declared) }
    {
        match declared {
            ValueType::Integer(kind) => Value::Number(zero(kind)),
            ValueType::Handle(_) => Value::Reference(None),
            ValueType::Thread => Value::Started(None),
        }
    }

    /// The value converted to a type as by assignment (C11 6.5.16.1).
    pub fn converted_to(self, to: ValueType) -> Value
        ensures { (t : Table) → seen result ≡ converted_to (type_of t to) (seen self) }
    {
        match (to, self) {
            (ValueType::Integer(kind), Value::Number(n)) => Value::Number(convert(n, kind)),
            (ValueType::Handle(_), Value::Reference(object)) => Value::Reference(object),
            (ValueType::Thread, Value::Started(thread)) => Value::Started(thread),
            _ => Value::zero_of(to),
        }
    }

    /// Whether the value is true as a condition (C11 6.8.4.1): an integer that isn't 0, or a handle that isn't null.
    pub fn is_true(self) -> bool
        ensures { result ≡ is_true (seen self) }
    {
        match self {
            Value::Number(n) => n.value() != 0,
            Value::Reference(object) => object.is_some(),
            Value::Started(_) => false,
        }
    }

    /// What `thrd_create` gives for the handle that it stored: 0 where it names a thread, else 1.
    pub fn creation(self) -> Value
        ensures { seen result ≡ creation (seen self) }
    {
        match self {
            Value::Started(Some(_)) => Value::Number(Int::I32(0)),
            Value::Started(None) | Value::Number(_) | Value::Reference(_) => {
                Value::Number(Int::I32(1))
            }
        }
    }

    /// What a binary operator gives, or why it traps.
    pub fn binary(op: BinOp, a: Value, b: Value) -> Result<Value, ArithTrap>
        ensures { seen_result result ≡ binary_result op (seen a) (seen b) }
    {
        match (a, b) {
            (Value::Number(a), Value::Number(b)) => number(c_ints::binary(op, a, b)),
            (Value::Reference(a), Value::Reference(b)) => Ok(compare(op, a, b)),
            _ => Ok(Value::Number(Int::I32(0))),
        }
    }

    /// What a unary operator gives, or why it traps; of a handle there is `!` alone.
    pub fn unary(op: UnOp, a: Value) -> Result<Value, ArithTrap>
        ensures { seen_result result ≡ unary_result op (seen a) }
    {
        match a {
            Value::Number(a) => number(c_ints::unary(op, a)),
            Value::Reference(_) | Value::Started(_) => Ok(Value::truth(!a.is_true())),
        }
    }
}

/// An integer as a value.
fn number(answer: Result<Int, ArithTrap>) -> Result<Value, ArithTrap>
    ensures { seen_result result ≡ as_value answer }
{
    match answer {
        Ok(n) => Ok(Value::Number(n)),
        Err(trap) => Err(trap),
    }
}

/// The zero of a kind.
fn zero(kind: Kind) -> Int
    ensures { result ≡ number_of kind (pos 0) }
{
    match kind {
        Kind::I8 => Int::I8(0),
        Kind::U8 => Int::U8(0),
        Kind::I16 => Int::I16(0),
        Kind::U16 => Int::U16(0),
        Kind::I32 => Int::I32(0),
        Kind::U32 => Int::U32(0),
        Kind::I64 => Int::I64(0),
        Kind::U64 => Int::U64(0),
    }
}

/// A comparison of two handles.
fn compare(op: BinOp, a: Option<ObjectId>, b: Option<ObjectId>) -> Value
    ensures { seen result ≡ compared op (seen_object a) (seen_object b) }
{
    match op {
        BinOp::Eq => Value::truth(same(a, b)),
        BinOp::Ne => Value::truth(!same(a, b)),
        _ => Value::Number(Int::I32(0)),
    }
}

/// The same object, or both null.
fn same(a: Option<ObjectId>, b: Option<ObjectId>) -> bool
    ensures { result ≡ same_object (seen_object a) (seen_object b) }
{
    match (a, b) {
        (None, None) => true,
        (Some(a), Some(b)) => a.0 == b.0,
        (None, Some(_)) | (Some(_), None) => false,
    }
}
