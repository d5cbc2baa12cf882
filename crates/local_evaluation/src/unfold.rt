//! The pieces of which trees are made.
ghost use Rattle.std.specs.Prelude.{◌≡◌, ◌+◌, ◌∷◌, OnOk};
ghost use Rattle.c_semantics.specs.Pieces.{Compute, Repeat};
ghost use Rattle.c_semantics.specs.Points.{size_stmt};
ghost use Rattle.c_semantics.specs.Resolved as tree;
ghost use Rattle.resolved_tree.specs.Nodes.{Table, word, type_of, expression_if, statements_at, expression_of, arguments_of, statement_of, statements_of, place_of, statement_at, expression_at};
ghost use Rattle.local_evaluation.specs.Pieces.{pending, piece_of, loop_of};
ghost use Rattle.local_evaluation.specs.Steps.{expression_pieces, arguments_pieces, place_pieces, statement_pieces, statements_pieces, loop_test_pieces, after_body_pieces};
ghost use Rattle.resolved_tree.specs.Trees.{table};

use crate::piece::{Loop, Piece, Stop};
use crate::stack::put;
use crate::value::Value;
use c_ints::{BinOp, Int};
use resolved_tree::{
    ArgumentsNode, ExpressionNode, NodeId, Place, StatementNode, StatementsNode, Trees, ValueType,
    Word, sum,
};
use std::alloc::AllocError;

/// An expression whose first point is n.
pub(crate) fn expression(
    trees: &Trees,
    pieces: &mut Vec<Piece>,
    node: ExpressionNode,
    n: u32,
) -> Result<(), AllocError>
    ensures { let t = table trees.now in OnOk result (pending t pieces.new.items
        ≡ expression_pieces (expression_of t node) n (pending t pieces.old.items)) }
{
    match node {
        ExpressionNode::Constant(value) => one(pieces, Piece::Push(Value::Number(value))),
        ExpressionNode::Read(place) => {
            let access = trees.after_parts(n, place)?;
            two(pieces, Piece::Parts(place, n), Piece::Get(place, access))
        }
        ExpressionNode::Unary(op, a) => two(pieces, Piece::Compute(a, n), Piece::Apply(op)),
        ExpressionNode::Binary(op, a, b) => {
            let second = trees.behind(n, a)?;
            put(
                pieces,
                &[
                    Piece::Compute(a, n),
                    Piece::Compute(b, second),
                    Piece::Combine(op),
                ],
            )
        }
        ExpressionNode::Convert(to, a) => {
            two(pieces, Piece::Compute(a, n), Piece::ConvertTo(to))
        }
        ExpressionNode::And(a, b) => {
            let second = trees.behind(n, a)?;
            two(pieces, Piece::Compute(a, n), Piece::AndThen(b, second))
        }
        ExpressionNode::Or(a, b) => {
            let second = trees.behind(n, a)?;
            two(pieces, Piece::Compute(a, n), Piece::OrElse(b, second))
        }
        ExpressionNode::Choice(c, a, b) => {
            let first = trees.behind(n, c)?;
            two(pieces, Piece::Compute(c, n), Piece::Choose(a, b, first))
        }
        ExpressionNode::Assign(place, e) => assign(trees, pieces, place, e, n),
        ExpressionNode::Update(declared, op, place, e) => {
            update(trees, pieces, (declared, op, place, e), n)
        }
        ExpressionNode::Postfix(declared, op, place) => {
            postfix(trees, pieces, (declared, op, place), n)
        }
        ExpressionNode::Create(place, function, e) => {
            create(trees, pieces, (place, function, e), n)
        }
        ExpressionNode::Join(e) => join(trees, pieces, e, n),
        ExpressionNode::JoinInto(e, place) => join_into(trees, pieces, (e, place), n),
        ExpressionNode::Call(name, arguments) => {
            let stop = Stop::Call(name, trees.count(arguments)?);
            let at = trees.after_arguments(n, arguments)?;
            two(pieces, Piece::Arguments(arguments, n), Piece::At(stop, at))
        }
        ExpressionNode::Print(format, arguments) => {
            let stop = Stop::Print(format, trees.count(arguments)?);
            let at = trees.after_arguments(n, arguments)?;
            two(pieces, Piece::Arguments(arguments, n), Piece::At(stop, at))
        }
        ExpressionNode::Free(tag, e) => {
            let at = trees.behind(n, e)?;
            two(pieces, Piece::Compute(e, n), Piece::At(Stop::Free(tag), at))
        }
        ExpressionNode::New(tag) => one(pieces, Piece::At(Stop::New(tag), n)),
        ExpressionNode::InitMutex(name) => one(pieces, Piece::At(Stop::InitMutex(name), n)),
        ExpressionNode::Lock(name) => one(pieces, Piece::At(Stop::Lock(name), n)),
        ExpressionNode::Unlock(name) => one(pieces, Piece::At(Stop::Unlock(name), n)),
    }
}

/// Puts one piece before the others.
fn one(pieces: &mut Vec<Piece>, piece: Piece) -> Result<(), AllocError>
    ensures { OnOk result ((t : Table) → pending t pieces.new.items ≡ piece_of t piece ∷ pending t pieces.old.items) }
{
    put(pieces, &[piece])
}

/// Puts two pieces before the others.
fn two(pieces: &mut Vec<Piece>, first: Piece, second: Piece) -> Result<(), AllocError>
    ensures { OnOk result ((t : Table)
        → pending t pieces.new.items ≡ piece_of t first ∷ piece_of t second ∷ pending t pieces.old.items) }
{
    put(pieces, &[first, second])
}

/// An assignment: its place, then its value, then the write.
fn assign(
    trees: &Trees,
    pieces: &mut Vec<Piece>,
    place: Place,
    e: NodeId,
    n: u32,
) -> Result<(), AllocError>
    ensures { let t = table trees.now in OnOk result (pending t pieces.new.items
        ≡ expression_pieces (tree.Assign (place_of t place) (expression_at t e)) n (pending t pieces.old.items)) }
{
    let value = trees.after_parts(n, place)?;
    let write = trees.behind(value, e)?;
    put(
        pieces,
        &[
            Piece::Parts(place, n),
            Piece::Compute(e, value),
            Piece::Set(place, write),
        ],
    )
}

/// A compound assignment: its place, the read, the right side, and the write.
fn update(
    trees: &Trees,
    pieces: &mut Vec<Piece>,
    node: (ValueType, BinOp, Place, NodeId),
    n: u32,
) -> Result<(), AllocError>
    ensures { let t = table trees.now in OnOk result (pending t pieces.new.items
        ≡ expression_pieces (tree.Update (type_of t node.0) node.1 (place_of t node.2) (expression_at t node.3)) n
        (pending t pieces.old.items)) }
{
    let (declared, op, place, e) = node;
    let load = trees.after_parts(n, place)?;
    let right = trees.after_read(load, place)?;
    let write = trees.behind(right, e)?;
    put(
        pieces,
        &[
            Piece::Parts(place, n),
            Piece::Dup(place),
            Piece::Get(place, load),
            Piece::Compute(e, right),
            Piece::Combine(op),
            Piece::ConvertTo(declared),
            Piece::Set(place, write),
        ],
    )
}

/// `x++` or `x--`: the old value stays.
fn postfix(
    trees: &Trees,
    pieces: &mut Vec<Piece>,
    node: (ValueType, BinOp, Place),
    n: u32,
) -> Result<(), AllocError>
    ensures { let t = table trees.now in OnOk result (pending t pieces.new.items
        ≡ expression_pieces (tree.Postfix (type_of t node.0) node.1 (place_of t node.2)) n (pending t pieces.old.items)) }
{
    let (declared, op, place) = node;
    let read = trees.after_parts(n, place)?;
    let write = trees.after_read(read, place)?;
    put(
        pieces,
        &[
            Piece::Parts(place, n),
            Piece::Dup(place),
            Piece::Get(place, read),
            Piece::Tuck(place),
            Piece::Push(Value::Number(Int::I32(1))),
            Piece::Combine(op),
            Piece::ConvertTo(declared),
            Piece::Set(place, write),
            Piece::Drop,
        ],
    )
}

/// `thrd_create`: where the handle goes, the argument, the start, and the write of the handle.
fn create(
    trees: &Trees,
    pieces: &mut Vec<Piece>,
    node: (Place, Word, NodeId),
    n: u32,
) -> Result<(), AllocError>
    ensures { let t = table trees.now in OnOk result (pending t pieces.new.items
        ≡ expression_pieces (tree.Create (place_of t node.0) (word t node.1) (expression_at t node.2)) n
        (pending t pieces.old.items)) }
{
    let (place, function, e) = node;
    let argument = trees.after_parts(n, place)?;
    let start = trees.behind(argument, e)?;
    let write = sum(start, 1)?;
    put(
        pieces,
        &[
            Piece::Parts(place, n),
            Piece::Compute(e, argument),
            Piece::At(Stop::Spawn(function), start),
            Piece::Set(place, write),
            Piece::Created,
        ],
    )
}

/// `thrd_join` without a place for the result.
fn join(trees: &Trees, pieces: &mut Vec<Piece>, e: NodeId, n: u32) -> Result<(), AllocError>
    ensures { let t = table trees.now in OnOk result (pending t pieces.new.items
        ≡ expression_pieces (tree.Join (expression_at t e)) n (pending t pieces.old.items)) }
{
    let at = trees.behind(n, e)?;
    put(
        pieces,
        &[
            Piece::Compute(e, n),
            Piece::At(Stop::Join, at),
            Piece::Drop,
            Piece::Push(Value::truth(false)),
        ],
    )
}

/// `thrd_join` with a place for the result.
fn join_into(
    trees: &Trees,
    pieces: &mut Vec<Piece>,
    node: (NodeId, Place),
    n: u32,
) -> Result<(), AllocError>
    ensures { let t = table trees.now in OnOk result (pending t pieces.new.items
        ≡ expression_pieces (tree.JoinInto (expression_at t node.0) (place_of t node.1)) n (pending t pieces.old.items)) }
{
    let (e, place) = node;
    let parts = trees.behind(n, e)?;
    let at = trees.after_parts(parts, place)?;
    let write = sum(at, 1)?;
    put(
        pieces,
        &[
            Piece::Compute(e, n),
            Piece::Parts(place, parts),
            Piece::Swap(place),
            Piece::At(Stop::Join, at),
            Piece::Set(place, write),
            Piece::Drop,
            Piece::Push(Value::truth(false)),
        ],
    )
}

/// Arguments, from left to right.
pub(crate) fn arguments(
    trees: &Trees,
    pieces: &mut Vec<Piece>,
    node: ArgumentsNode,
    n: u32,
) -> Result<(), AllocError>
    ensures { let t = table trees.now in OnOk result (pending t pieces.new.items
        ≡ arguments_pieces (arguments_of t node) n (pending t pieces.old.items)) }
{
    match node {
        ArgumentsNode::None => Ok(()),
        ArgumentsNode::Then(first, rest) => {
            let behind = trees.behind(n, first)?;
            put(
                pieces,
                &[Piece::Compute(first, n), Piece::Arguments(rest, behind)],
            )
        }
    }
}

/// The parts of a place.
pub(crate) fn parts(pieces: &mut Vec<Piece>, place: Place, n: u32) -> Result<(), AllocError>
    ensures { OnOk result ((t : Table) → pending t pieces.new.items
        ≡ place_pieces (place_of t place) n (pending t pieces.old.items)) }
{
    match place {
        Place::Local(_) | Place::Global(_) => Ok(()),
        Place::Element(_, part) | Place::Field(_, part, _) => {
            put(pieces, &[Piece::Compute(part, n)])
        }
    }
}

/// Statements in order.
pub(crate) fn statements(
    trees: &Trees,
    pieces: &mut Vec<Piece>,
    node: StatementsNode,
    n: u32,
) -> Result<(), AllocError>
    ensures { let t = table trees.now in OnOk result (pending t pieces.new.items
        ≡ statements_pieces (statements_of t node) n (pending t pieces.old.items)) }
{
    match node {
        StatementsNode::None => Ok(()),
        StatementsNode::Then(first, rest) => {
            let behind = trees.after_statement(n, first)?;
            put(
                pieces,
                &[Piece::Do(first, n), Piece::Sequence(rest, behind)],
            )
        }
    }
}

/// A loop from its test on.
pub(crate) fn loop_test(trees: &Trees, pieces: &mut Vec<Piece>, l: Loop) -> Result<(), AllocError>
    ensures { let t = table trees.now in OnOk result (pending t pieces.new.items
        ≡ loop_test_pieces (loop_of t l) (expression_if t l.test) (pending t pieces.old.items)) }
{
    match l.test {
        Some(c) => put(pieces, &[Piece::Compute(c, l.first), Piece::Turn(l)]),
        None => {
            let body = l.body_at(trees)?;
            put(pieces, &[Piece::Do(l.body, body), Piece::AfterBody(l)])
        }
    }
}

/// What comes after a loop's body: its step, then the back edge.
pub(crate) fn behind(trees: &Trees, pieces: &mut Vec<Piece>, l: Loop) -> Result<(), AllocError>
    ensures { let t = table trees.now in OnOk result (pending t pieces.new.items
        ≡ after_body_pieces (loop_of t l) (expression_if t l.step) (pending t pieces.old.items)) }
{
    match l.step {
        None => put(pieces, &[Piece::BackEdge(l)]),
        Some(e) => {
            let step = l.step_at(trees)?;
            put(
                pieces,
                &[Piece::Compute(e, step), Piece::Drop, Piece::BackEdge(l)],
            )
        }
    }
}

/// What comes after the body of `do`: its condition.
pub(crate) fn until(
    trees: &Trees,
    pieces: &mut Vec<Piece>,
    body: NodeId,
    c: NodeId,
    n: u32,
) -> Result<(), AllocError>
    ensures { let t = table trees.now in OnOk result (pending t pieces.new.items
        ≡ Compute (expression_at t c) (n + size_stmt (statement_at t body))
        ∷ Repeat (statement_at t body) (expression_at t c) n ∷ pending t pieces.old.items) }
{
    let condition = trees.after_statement(n, body)?;
    put(
        pieces,
        &[Piece::Compute(c, condition), Piece::Repeat(body, c, n)],
    )
}

/// A statement that doesn't jump.
pub(crate) fn statement(
    trees: &Trees,
    pieces: &mut Vec<Piece>,
    node: StatementNode,
    n: u32,
) -> Result<(), AllocError>
    ensures { let t = table trees.now in OnOk result (pending t pieces.new.items
        ≡ statement_pieces (statement_of t node) n (pending t pieces.old.items)) }
{
    match node {
        StatementNode::Empty | StatementNode::Break | StatementNode::Continue => Ok(()),
        StatementNode::Block(ss) => two(pieces, Piece::Sequence(ss, n), Piece::Close),
        StatementNode::Evaluate(e) => two(pieces, Piece::Compute(e, n), Piece::Drop),
        StatementNode::Declare(_, _, None) => Ok(()),
        StatementNode::Declare(_, name, Some(e)) => {
            let write = trees.behind(n, e)?;
            let set = Piece::Set(Place::Local(name), write);
            put(pieces, &[Piece::Compute(e, n), set, Piece::Drop])
        }
        StatementNode::If(c, s) => {
            let body = trees.behind(n, c)?;
            two(pieces, Piece::Compute(c, n), Piece::Then(s, body))
        }
        StatementNode::IfElse(c, a, b) => {
            let body = trees.behind(n, c)?;
            two(pieces, Piece::Compute(c, n), Piece::ThenElse(a, b, body))
        }
        StatementNode::While(c, s) => one(pieces, Piece::LoopTest(while_loop(c, s, n))),
        StatementNode::DoWhile(s, c) => two(pieces, Piece::Do(s, n), Piece::Until(s, c, n)),
        StatementNode::For(first, test, step, body) => {
            let first_point = trees.after_statements(n, first)?;
            let l = Loop {
                test,
                step,
                body,
                first: first_point,
            };
            put(
                pieces,
                &[Piece::Sequence(first, n), Piece::LoopTest(l), Piece::Close],
            )
        }
        StatementNode::Return(e) => {
            let at = trees.behind(n, e)?;
            two(pieces, Piece::Compute(e, n), Piece::At(Stop::Return, at))
        }
        StatementNode::UpdatePoint => one(pieces, Piece::At(Stop::Update, n)),
        StatementNode::Transaction(ss) => transaction(trees, pieces, ss, n),
    }
}

/// A `while` loop.
fn while_loop(test: NodeId, body: NodeId, first: u32) -> Loop
    ensures { result ≡ record { test = Some test; step = None; body = body; first = first } }
{
    Loop {
        test: Some(test),
        step: None,
        body,
        first,
    }
}

/// A transaction: its begin, its statements as a block, and its end.
fn transaction(trees: &Trees, pieces: &mut Vec<Piece>, ss: NodeId, n: u32) -> Result<(), AllocError>
    ensures { let t = table trees.now in OnOk result (pending t pieces.new.items
        ≡ statement_pieces (tree.Transaction (statements_at t ss)) n (pending t pieces.old.items)) }
{
    let body = sum(n, 2)?;
    let end = trees.after_statements(body, ss)?;
    put(
        pieces,
        &[
            Piece::At(Stop::Begin, n),
            Piece::DoBlock(ss, body),
            Piece::At(Stop::End, end),
        ],
    )
}
