//! One step of local evaluation.
ghost use Rattle.std.specs.Prelude.{IfOk};
ghost use Rattle.c_semantics.specs.Pieces.{Compute, Arguments, Parts, AndThen, OrElse, Choose, Then, ThenElse, Turn, Repeat, Do, Sequence, Close, LoopTest, AfterBody, BackEdge, Until};
ghost use Rattle.resolved_tree.specs.Nodes.{Table, place_of, expression_at, arguments_at, statement_at, statements_at, statement_of};
ghost use Rattle.local_evaluation.specs.Ends.{ended};
ghost use Rattle.local_evaluation.specs.Pieces.{piece_of, loop_of};
ghost use Rattle.resolved_tree.specs.Trees.{table};
ghost use Rattle.local_evaluation.specs.Work.{Follows};

use crate::jump::leave;
use crate::operate::{self, decide};
use crate::piece::{Loop, Piece};
use crate::stack::{pop, put};
use crate::value::Value;
use crate::work::{End, Jump, Work};
use crate::{scopes, unfold};
use c_ints::Int;
use resolved_tree::{NodeId, Place, StatementNode, Trees};
use std::alloc::AllocError;

/// Does a piece that was taken as the first one, or replaces it by those of which it is made.
pub(crate) fn step(trees: &Trees, work: &mut Work, piece: Piece) -> Result<Option<End>, AllocError>
    ensures { let t = table trees.now in
        IfOk result (λ end. Follows t (piece_of t piece) work.old (ended piece end) work.new) }
{
    match piece {
        Piece::Compute(e, n) => compute(trees, work, e, n),
        Piece::Arguments(arguments, n) => evaluate_arguments(trees, work, arguments, n),
        Piece::Parts(place, n) => evaluate_parts(work, place, n),
        Piece::Get(place, n) => operate::get(trees, work, place, n),
        Piece::Set(place, n) => Ok(operate::set(trees, work, place, n)),
        Piece::Dup(place) => operate::dup(&mut work.values, place),
        Piece::Tuck(place) => operate::tuck(&mut work.values, place),
        Piece::Swap(place) => operate::swap_part(&mut work.values, place),
        Piece::Apply(op) => operate::apply(&mut work.values, op),
        Piece::Combine(op) => operate::combine(&mut work.values, op),
        Piece::ConvertTo(to) => operate::convert(&mut work.values, to),
        Piece::Drop => Ok(operate::discard(&mut work.values)),
        Piece::Push(value) => operate::give(&mut work.values, value),
        Piece::Truth => operate::truth(&mut work.values),
        Piece::Created => operate::created(&mut work.values),
        Piece::AndThen(b, n) => and_then(work, b, n),
        Piece::OrElse(b, n) => or_else(work, b, n),
        Piece::Choose(a, b, n) => choose(trees, work, a, b, n),
        Piece::Then(s, n) => then(work, s, n),
        Piece::ThenElse(a, b, n) => then_else(trees, work, a, b, n),
        Piece::Turn(l) => turn(trees, work, l),
        Piece::Repeat(s, c, n) => repeat(trees, work, s, c, n),
        Piece::Do(s, n) => statement(trees, work, trees.statement(s), n),
        Piece::DoBlock(ss, n) => statement(trees, work, StatementNode::Block(ss), n),
        Piece::DoWhile(s, c, n) => statement(trees, work, StatementNode::DoWhile(s, c), n),
        Piece::Sequence(ss, n) => sequence(trees, work, ss, n),
        Piece::Close => Ok(close(work)),
        Piece::LoopTest(l) => loop_test(trees, work, l),
        Piece::AfterBody(l) => behind(trees, work, l),
        Piece::BackEdge(l) => back_edge(trees, work, l),
        Piece::Until(s, c, n) => until(trees, work, s, c, n),
        Piece::At(_, _) => Ok(Some(End::Here)),
    }
}

/// An expression is replaced by the pieces of which it is made.
fn compute(trees: &Trees, work: &mut Work, e: NodeId, n: u32) -> Result<Option<End>, AllocError>
    ensures { let t = table trees.now in (piece : Piece) →
        IfOk result (λ end. Follows t (Compute (expression_at t e) n) work.old (ended piece end) work.new) }
{
    unfold::expression(trees, &mut work.pieces, trees.expression(e), n)?;
    Ok(None)
}

/// So are arguments.
fn evaluate_arguments(
    trees: &Trees,
    work: &mut Work,
    arguments: NodeId,
    n: u32,
) -> Result<Option<End>, AllocError>
    ensures { let t = table trees.now in (piece : Piece) →
        IfOk result (λ end. Follows t (Arguments (arguments_at t arguments) n) work.old (ended piece end) work.new) }
{
    unfold::arguments(trees, &mut work.pieces, trees.arguments(arguments), n)?;
    Ok(None)
}

/// So are the parts of a place.
fn evaluate_parts(work: &mut Work, place: Place, n: u32) -> Result<Option<End>, AllocError>
    ensures { (t : Table) (piece : Piece) →
        IfOk result (λ end. Follows t (Parts (place_of t place) n) work.old (ended piece end) work.new) }
{
    unfold::parts(&mut work.pieces, place, n)?;
    Ok(None)
}

/// So are the statements of a block.
fn sequence(trees: &Trees, work: &mut Work, ss: NodeId, n: u32) -> Result<Option<End>, AllocError>
    ensures { let t = table trees.now in (piece : Piece) →
        IfOk result (λ end. Follows t (Sequence (statements_at t ss) n) work.old (ended piece end) work.new) }
{
    unfold::statements(trees, &mut work.pieces, trees.statements(ss), n)?;
    Ok(None)
}

/// So is a loop from its test on.
fn loop_test(trees: &Trees, work: &mut Work, l: Loop) -> Result<Option<End>, AllocError>
    ensures { let t = table trees.now in (piece : Piece) →
        IfOk result (λ end. Follows t (LoopTest (loop_of t l)) work.old (ended piece end) work.new) }
{
    unfold::loop_test(trees, &mut work.pieces, l)?;
    Ok(None)
}

/// So is what comes after the body of a loop.
fn behind(trees: &Trees, work: &mut Work, l: Loop) -> Result<Option<End>, AllocError>
    ensures { let t = table trees.now in (piece : Piece) →
        IfOk result (λ end. Follows t (AfterBody (loop_of t l)) work.old (ended piece end) work.new) }
{
    unfold::behind(trees, &mut work.pieces, l)?;
    Ok(None)
}

/// So is what comes after the body of `do`.
fn until(
    trees: &Trees,
    work: &mut Work,
    body: NodeId,
    c: NodeId,
    n: u32,
) -> Result<Option<End>, AllocError>
    ensures { let t = table trees.now in (piece : Piece) →
        IfOk result (λ end. Follows t (Until (statement_at t body) (expression_at t c) n) work.old (ended piece end) work.new) }
{
    unfold::until(trees, &mut work.pieces, body, c, n)?;
    Ok(None)
}

/// A statement: a jump leaves the loop's body, and another one is replaced by the pieces of which it is made.
fn statement(
    trees: &Trees,
    work: &mut Work,
    node: StatementNode,
    n: u32,
) -> Result<Option<End>, AllocError>
    ensures { let t = table trees.now in (piece : Piece) →
        IfOk result (λ end. Follows t (Do (statement_of t node) n) work.old (ended piece end) work.new) }
{
    match node {
        StatementNode::Break => leave(&mut work.pieces, &mut work.scopes, Jump::Break),
        StatementNode::Continue => leave(&mut work.pieces, &mut work.scopes, Jump::Continue),
        _ => {
            scopes::enter(&mut work.scopes, node)?;
            unfold::statement(trees, &mut work.pieces, node, n)?;
            Ok(None)
        }
    }
}

/// The end of a scope.
fn close(work: &mut Work) -> Option<End>
    ensures { (t : Table) (piece : Piece) → Follows t Close work.old (ended piece result) work.new }
{
    if scopes::close(&mut work.scopes) {
        None
    } else {
        Some(End::Nothing)
    }
}

/// A stop at the back edge of a loop, after which it goes on from its test.
fn back_edge(trees: &Trees, work: &mut Work, l: Loop) -> Result<Option<End>, AllocError>
    ensures { let t = table trees.now in (piece : Piece) →
        IfOk result (λ end. Follows t (BackEdge (loop_of t l)) work.old (ended piece end) work.new) }
{
    let at = l.back_at(trees)?;
    put(&mut work.pieces, &[Piece::LoopTest(l)])?;
    Ok(Some(End::Back(at)))
}

/// The test after the left side of `&&`.
fn and_then(work: &mut Work, b: NodeId, n: u32) -> Result<Option<End>, AllocError>
    ensures { (t : Table) (piece : Piece) →
        IfOk result (λ end. Follows t (AndThen (expression_at t b) n) work.old (ended piece end) work.new) }
{
    let right = [Piece::Compute(b, n), Piece::Truth];
    decide(work, &right, &[Piece::Push(Value::Number(Int::I32(0)))])
}

/// The test after the left side of `||`.
fn or_else(work: &mut Work, b: NodeId, n: u32) -> Result<Option<End>, AllocError>
    ensures { (t : Table) (piece : Piece) →
        IfOk result (λ end. Follows t (OrElse (expression_at t b) n) work.old (ended piece end) work.new) }
{
    let right = [Piece::Compute(b, n), Piece::Truth];
    decide(work, &[Piece::Push(Value::Number(Int::I32(1)))], &right)
}

/// The test of `?:`.
fn choose(
    trees: &Trees,
    work: &mut Work,
    a: NodeId,
    b: NodeId,
    n: u32,
) -> Result<Option<End>, AllocError>
    ensures { let t = table trees.now in (piece : Piece) → IfOk result (λ end.
        Follows t (Choose (expression_at t a) (expression_at t b) n) work.old (ended piece end) work.new) }
{
    let second = trees.behind(n, a)?;
    decide(work, &[Piece::Compute(a, n)], &[Piece::Compute(b, second)])
}

/// The test of an `if`.
fn then(work: &mut Work, s: NodeId, n: u32) -> Result<Option<End>, AllocError>
    ensures { (t : Table) (piece : Piece) →
        IfOk result (λ end. Follows t (Then (statement_at t s) n) work.old (ended piece end) work.new) }
{
    decide(work, &[Piece::Do(s, n)], &[])
}

/// The test of an `if` with an `else`.
fn then_else(
    trees: &Trees,
    work: &mut Work,
    a: NodeId,
    b: NodeId,
    n: u32,
) -> Result<Option<End>, AllocError>
    ensures { let t = table trees.now in (piece : Piece) → IfOk result (λ end.
        Follows t (ThenElse (statement_at t a) (statement_at t b) n) work.old (ended piece end) work.new) }
{
    let second = trees.after_statement(n, a)?;
    decide(work, &[Piece::Do(a, n)], &[Piece::Do(b, second)])
}

/// The test of a loop.
fn turn(trees: &Trees, work: &mut Work, l: Loop) -> Result<Option<End>, AllocError>
    ensures { let t = table trees.now in (piece : Piece) →
        IfOk result (λ end. Follows t (Turn (loop_of t l)) work.old (ended piece end) work.new) }
{
    let body = l.body_at(trees)?;
    decide(work, &[Piece::Do(l.body, body), Piece::AfterBody(l)], &[])
}

/// The test of `do`: where it holds, a stop at the back edge, after which the `do` begins again.
fn repeat(
    trees: &Trees,
    work: &mut Work,
    body: NodeId,
    c: NodeId,
    n: u32,
) -> Result<Option<End>, AllocError>
    ensures { let t = table trees.now in (piece : Piece) → IfOk result (λ end.
        Follows t (Repeat (statement_at t body) (expression_at t c) n) work.old (ended piece end) work.new) }
{
    let Some(value) = pop(&mut work.values) else {
        return Ok(Some(End::Nothing));
    };
    if !value.is_true() {
        return Ok(None);
    }
    let condition = trees.after_statement(n, body)?;
    let at = trees.behind(condition, c)?;
    put(&mut work.pieces, &[Piece::DoWhile(body, c, n)])?;
    Ok(Some(End::Back(at)))
}
