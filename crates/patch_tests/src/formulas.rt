//! The values of formulas.
use crate::values::{NULL, SEVENTH, ZERO, same};
use c_ints::{BinOp, Int, Kind, UnOp};
use constant_values::ValueKind;
use dsu_io::Boxed;
use local_evaluation::Value;
use std::alloc::{AllocError, Global};
use std::process::Abort;
use std::test::Fail;
use versioned_structs::{Formula, FormulaNode};

const SIX: Value = Value::Number(Int::I32(6));

/// The old fields.
static OLD: [Value; 2] = [SIX, SEVENTH];

/// A part of another formula.
fn part(alloc: Global, node: FormulaNode<Formula>) -> Result<Boxed<Formula>, AllocError> {
    Boxed::of(alloc, Formula { node })
}

/// A formula has a value over the old fields.
fn gives(rt: &impl Abort, node: FormulaNode<Formula>, due: Value) {
    let formula = Formula { node };
    let value = formula.value(&OLD);
    drop(formula);
    assert!(rt; same(value, due));
}

#[test]
fn leaves_have_values(rt: HostRuntime) {
    let byte = Int::I8(5);
    gives(&rt, FormulaNode::Constant(byte), Value::Number(byte));
    gives(&rt, FormulaNode::Old(0), SIX);
    gives(&rt, FormulaNode::Old(1), SEVENTH);
    gives(&rt, FormulaNode::Old(2), ZERO);
}

#[test]
fn operators_have_values(rt: HostRuntime) -> Result<(), Fail> {
    let alloc = rt.alloc();
    let negated = FormulaNode::Unary(UnOp::Negate, part(alloc, FormulaNode::Old(0))?);
    gives(&rt, negated, Value::Number(Int::I32(-6)));
    let byte = ValueKind::Number(Kind::U8);
    let cast = FormulaNode::Cast(byte, part(alloc, FormulaNode::Constant(Int::I32(300)))?);
    gives(&rt, cast, Value::Number(Int::U8(44)));
    let handle = FormulaNode::Cast(ValueKind::Reference, part(alloc, FormulaNode::Old(0))?);
    gives(&rt, handle, NULL);
    Ok(())
}

#[test]
fn operators_of_more_parts_have_values(rt: HostRuntime) -> Result<(), Fail> {
    let alloc = rt.alloc();
    let first = part(alloc, FormulaNode::Old(0))?;
    let one = part(alloc, FormulaNode::Constant(Int::I32(1)))?;
    gives(
        &rt,
        FormulaNode::Binary(BinOp::Add, first, one),
        Value::Number(Int::I32(7)),
    );
    let handle = part(alloc, FormulaNode::Old(1))?;
    let three = part(alloc, FormulaNode::Constant(Int::I32(3)))?;
    let four = part(alloc, FormulaNode::Constant(Int::I64(4)))?;
    gives(
        &rt,
        FormulaNode::Choice(handle, three, four),
        Value::Number(Int::I64(3)),
    );
    Ok(())
}
