//! Expressions of transformers.
ghost use Rattle.std.specs.Prelude.{◌≡◌, map, slice_index_or};
ghost use Rattle.c_semantics.specs.Values.{int_of};
ghost use Rattle.local_evaluation.specs.Values.{seen};
ghost use Rattle.versioned_structs.specs.Formulas.{value_in};
ghost use Rattle.versioned_structs.specs.declared.formula.Formula.{out-Formula};

use c_ints::{BinOp, Int, UnOp};
use constant_values::{ValueKind, chosen, converted, wrapped, wrapped_unary};
use dsu_io::Boxed;
use local_evaluation::Value;

/// An expression of a transformer, its names resolved: the value of a new field or global from the old ones.
#[derive(Debug, Drop)]
pub struct Formula {
    pub node: FormulaNode<Formula>,
}

/// What a formula is, over the formulas `E` that it is made of.
#[derive(Debug, Drop)]
pub enum FormulaNode<E> {
    Constant(Int),
    /// The old value at that place of the old layout, counted from 0. Past its end it is the `int` 0.
    Old(usize),
    Unary(UnOp, Boxed<E>),
    /// `(int) x`
    Cast(ValueKind, Boxed<E>),
    Binary(BinOp, Boxed<E>, Boxed<E>),
    /// `a ? b : c`
    Choice(Boxed<E>, Boxed<E>, Boxed<E>),
}

impl Formula {
    /// The value, from the values of the old fields. Operators wrap, so that none traps. It recurses as deep as the
    /// formula is.
    #[cycle(formula_value)]
    pub fn value(&self, old: &[Value]) -> Value
        ensures { seen result ≡ value_in (map seen old.now) self.now }
    {
        match &self.node {
            FormulaNode::Constant(n) => Value::Number(*n),
            FormulaNode::Old(place) => value_at(old, *place),
            FormulaNode::Unary(op, a) => wrapped_unary(*op, part(a, old)),
            FormulaNode::Cast(kind, a) => converted(*kind, part(a, old)),
            FormulaNode::Binary(op, a, b) => wrapped(*op, part(a, old), part(b, old)),
            FormulaNode::Choice(c, a, b) => chosen(part(c, old), part(a, old), part(b, old)),
        }
    }
}

#[cycle(formula_value)]
fn part(formula: &Boxed<Formula>, old: &[Value]) -> Value
    ensures { seen result ≡ value_in (map seen old.now) formula.now }
{
    formula.get().value(old)
}

/// The value at a place of a list, or the `int` 0 past its end.
pub(crate) fn value_at(values: &[Value], place: usize) -> Value
    ensures { seen result ≡ slice_index_or (map seen values.now) place (int_of 0) }
{
    match values.get(place) {
        Some(value) => *value,
        None => Value::Number(Int::I32(0)),
    }
}
