//! Expressions, conditions and declarations in front of a tail.
ghost use Rattle.std.specs.Prelude.{◌≡◌, ◌∷◌, [], ◌++◌, OnOk};
ghost use Rattle.resolved_tree.specs.Nodes.{expression_at, expression_if, word, type_of};
ghost use Rattle.resolved_tree.specs.Trees.{table};
ghost use Rattle.tree_code.specs.Code.{value as value_of, effect as effect_of, effect_if as effect_if_of, condition_code, unless_jump, negated, initial as initial_of};
ghost use Rattle.bytecode_gen.specs.Tails.{Emits, trees_of, look_of};

use crate::tail::precede;
use bytecode::Instr;
use c_definitions::Known;
use c_ints::UnOp;
use expr_gen::{Context, Variable, effect as add_effect, expression, slot, zero};
use resolved_tree::{ExpressionNode, NodeId, Trees, ValueType, Word};
use std::alloc::AllocError;

/// What the code of a function is made from: the table of trees, and the definitions of the text.
#[derive(Clone, Copy)]
pub struct Source<'a> {
    pub trees: &'a Trees,
    pub known: &'a Known<'a>,
}

/// Where `break` and `continue` lead: how many instructions a tail has from their targets on.
#[derive(Clone, Copy)]
pub(crate) struct Jumps {
    pub broken: usize,
    pub continued: usize,
}

/// An expression, whose value stays.
pub(crate) fn value(
    source: &Source,
    variables: &[Variable],
    tail: &mut Vec<Instr>,
    e: NodeId,
    n: u32,
) -> Result<(), AllocError>
    ensures { let s = source.now in let t = trees_of s in
        OnOk result (Emits t variables.now tail.old.items tail.new.items (λ env. value_of (look_of s) env (expression_at t e) n)) }
{
    let context = Context {
        trees: source.trees,
        known: source.known,
        variables,
    };
    let mut code = Vec::new(*tail.allocator());
    expression(&context, &mut code, e, n)?;
    precede(tail, code.as_slice())
}

/// An expression whose value is dropped.
pub(crate) fn dropped(
    source: &Source,
    variables: &[Variable],
    tail: &mut Vec<Instr>,
    e: NodeId,
    n: u32,
) -> Result<(), AllocError>
    ensures { let s = source.now in let t = trees_of s in
        OnOk result (Emits t variables.now tail.old.items tail.new.items (λ env. effect_of (look_of s) env (expression_at t e) n)) }
{
    let context = Context {
        trees: source.trees,
        known: source.known,
        variables,
    };
    let mut code = Vec::new(*tail.allocator());
    add_effect(&context, &mut code, e, n)?;
    precede(tail, code.as_slice())
}

/// One that may be absent.
pub(crate) fn dropped_if(
    source: &Source,
    variables: &[Variable],
    tail: &mut Vec<Instr>,
    e: Option<NodeId>,
    n: u32,
) -> Result<(), AllocError>
    ensures { let s = source.now in let t = trees_of s in
        OnOk result (Emits t variables.now tail.old.items tail.new.items (λ env. effect_if_of (look_of s) env (expression_if t e) n)) }
{
    match e {
        None => Ok(()),
        Some(e) => dropped(source, variables, tail, e, n),
    }
}

/// The operand of `!`, where an expression is one.
fn negated_in(trees: &Trees, c: NodeId) -> Option<NodeId>
    ensures { expression_if (table trees.now) result ≡ negated (expression_at (table trees.now) c) }
{
    match trees.expression(c) {
        ExpressionNode::Unary(UnOp::Not, a) => Some(a),
        _ => None,
    }
}

/// A condition, with a jump over so many instructions that is taken where it doesn't hold.
pub(crate) fn condition(
    source: &Source,
    variables: &[Variable],
    tail: &mut Vec<Instr>,
    c: NodeId,
    n: u32,
    over: u32,
) -> Result<(), AllocError>
    ensures { let s = source.now in let t = trees_of s in let tree = expression_at t c in
        OnOk result (Emits t variables.now tail.old.items tail.new.items
        (λ env. condition_code (look_of s) env tree (negated tree) n ++ unless_jump (negated tree) over ∷ [])) }
{
    match negated_in(source.trees, c) {
        None => {
            precede(tail, &[Instr::JumpIfZero(over)])?;
            value(source, variables, tail, c, n)
        }
        Some(a) => {
            precede(tail, &[Instr::JumpUnlessZero(over)])?;
            value(source, variables, tail, a, n)
        }
    }
}

/// The first value of a variable, which is the newest one.
pub(crate) fn initial(
    source: &Source,
    variables: &[Variable],
    tail: &mut Vec<Instr>,
    declared: (ValueType, Word, Option<NodeId>),
    n: u32,
) -> Result<(), AllocError>
    ensures { let s = source.now in let t = trees_of s in
        OnOk result (Emits t variables.now tail.old.items tail.new.items
        (λ env. initial_of (look_of s) env (type_of t declared.0) (word t declared.1) (expression_if t declared.2) n)) }
{
    let context = Context {
        trees: source.trees,
        known: source.known,
        variables,
    };
    let number = slot(&context, declared.1)?;
    let Some(e) = declared.2 else {
        return precede(tail, &[zero(declared.0), Instr::Store(number)]);
    };
    precede(tail, &[Instr::Store(number)])?;
    value(source, variables, tail, e, n)?;
    precede(tail, &[zero(declared.0), Instr::Store(number)])
}
