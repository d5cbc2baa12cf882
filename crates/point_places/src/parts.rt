//! The parts of trees with places, by number.
ghost use Rattle.std.specs.Prelude.{◌≡◌, ◌∷◌, [], map, slice_index_or, unwrap_or};
ghost use Rattle.c_tree.specs.declared.stmt.Stmt.{out-Stmt};
ghost use Rattle.c_semantics.specs.Places.{without_casts, operands, place_of, statements_of, first_of, expression_of, step_of, end_of, nothing, no_statement};

use c_tree::{Expr, ExprNode, Stmt, StmtNode};
use dsu_io::Boxed;

/// An expression without the casts around it.
fn within_casts(e: &Expr) -> &Expr
    ensures place { place_of result.now ≡ place_of (without_casts e.now) }
    ensures operands { map without_casts (operands result.now) ≡ operands (without_casts e.now) }
{
    match &e.node {
        ExprNode::Cast(_, a) => within_casts(a.get()),
        _ => e,
    }
}

/// Where an expression begins, without the casts around it.
pub(crate) fn place_of(e: &Expr) -> usize
    ensures { result ≡ place_of (without_casts e.now) }
{
    within_casts(e).place
}

/// The operand of that number, in an expression without casts; where there is none, what is given for it.
pub(crate) fn operand<'a>(e: &'a Expr, k: usize, missing: &'a Expr) -> &'a Expr
    ensures { without_casts result.now
        ≡ slice_index_or (operands (without_casts e.now)) k (without_casts missing.now) }
{
    part(within_casts(e), k, missing)
}

/// What stands for an expression that isn't there.
pub(crate) fn nothing() -> Expr
    ensures value { result ≡ nothing }
    ensures casts { without_casts result ≡ nothing }
{
    Expr {
        place: 0,
        node: ExprNode::Null,
    }
}

/// The operand of that number as the tree has it.
fn part<'a>(e: &'a Expr, k: usize, missing: &'a Expr) -> &'a Expr
    ensures { result.now ≡ slice_index_or (operands e.now) k missing.now }
{
    match &e.node {
        ExprNode::Unary(_, a)
        | ExprNode::Step(_, a)
        | ExprNode::Element(_, a)
        | ExprNode::Arrow(a, _)
        | ExprNode::Free(a)
        | ExprNode::Join(a) => match k {
            0 => a.get(),
            _ => missing,
        },
        ExprNode::Binary(_, a, b)
        | ExprNode::And(a, b)
        | ExprNode::Or(a, b)
        | ExprNode::Assign(a, b)
        | ExprNode::Update(_, a, b)
        | ExprNode::Create(a, _, b)
        | ExprNode::JoinInto(a, b) => match k {
            0 => a.get(),
            1 => b.get(),
            _ => missing,
        },
        ExprNode::Choice(c, a, b) => match k {
            0 => c.get(),
            1 => a.get(),
            2 => b.get(),
            _ => missing,
        },
        ExprNode::Call(_, arguments) | ExprNode::Print { arguments, .. } => {
            match arguments.as_slice().get(k) {
                Some(argument) => argument,
                None => missing,
            }
        }
        _ => missing,
    }
}

/// What stands for a statement that isn't there.
pub(crate) fn no_statement() -> Stmt
    ensures { result ≡ no_statement }
{
    Stmt {
        place: 0,
        node: StmtNode::Empty,
    }
}

/// The statement of that number in a statement; where there is none, what is given for it.
pub(crate) fn inner<'a>(s: &'a Stmt, k: usize, missing: &'a Stmt) -> &'a Stmt
    ensures { result.now ≡ slice_index_or (statements_of (out-Stmt s.now).node) k missing.now }
{
    match &s.node {
        StmtNode::Block(body) | StmtNode::Transaction(body, _) => nth(body.as_slice(), k, missing),
        StmtNode::If(_, a)
        | StmtNode::While(_, a)
        | StmtNode::DoWhile(a, _)
        | StmtNode::For(_, _, _, a) => match k {
            0 => a.get(),
            _ => missing,
        },
        StmtNode::IfElse(_, a, b) => match k {
            0 => a.get(),
            1 => b.get(),
            _ => missing,
        },
        _ => missing,
    }
}

/// The statement of that number in a list; where there is none, what is given for it.
pub(crate) fn nth<'a>(list: &'a [Stmt], k: usize, missing: &'a Stmt) -> &'a Stmt
    ensures { result.now ≡ slice_index_or list.now k missing.now }
{
    match list.get(k) {
        Some(s) => s,
        None => missing,
    }
}

/// The first part of a `for`.
pub(crate) fn first(s: &Stmt) -> &[Stmt]
    ensures { result.now ≡ first_of (out-Stmt s.now).node }
{
    match &s.node {
        StmtNode::For(first, _, _, _) => first.as_slice(),
        _ => &[],
    }
}

/// The expression of a statement; where there is none, what is given for it.
pub(crate) fn evaluated<'a>(s: &'a Stmt, missing: &'a Expr) -> &'a Expr
    ensures { result.now ≡ unwrap_or (expression_of (out-Stmt s.now).node) missing.now }
{
    match &s.node {
        StmtNode::Evaluate(e)
        | StmtNode::If(e, _)
        | StmtNode::IfElse(e, _, _)
        | StmtNode::While(e, _)
        | StmtNode::DoWhile(_, e)
        | StmtNode::ReturnValue(e) => e,
        StmtNode::Declare(declaration) => given(&declaration.initial, missing),
        StmtNode::For(_, test, _, _) => given(test, missing),
        _ => missing,
    }
}

/// The step of a `for`; where there is none, what is given for it.
pub(crate) fn step<'a>(s: &'a Stmt, missing: &'a Expr) -> &'a Expr
    ensures { result.now ≡ unwrap_or (step_of (out-Stmt s.now).node) missing.now }
{
    match &s.node {
        StmtNode::For(_, _, step, _) => given(step, missing),
        _ => missing,
    }
}

/// An expression that may be absent; where it is, what is given for it.
fn given<'a>(e: &'a Option<Expr>, missing: &'a Expr) -> &'a Expr
    ensures { result.now ≡ unwrap_or e.now missing.now }
{
    match e {
        Some(e) => e,
        None => missing,
    }
}

/// The closing brace of a transaction.
pub(crate) fn closing(s: &Stmt) -> usize
    ensures { result ≡ end_of (out-Stmt s.now).node }
{
    match &s.node {
        StmtNode::Transaction(_, end) => *end,
        _ => 0,
    }
}
