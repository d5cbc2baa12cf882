//! Forms of expressions and statements by their parts, which were resolved.
ghost use Rattle.std.specs.Prelude.{◌≡◌, map, IfOk};
ghost use Rattle.name_resolution.specs.Forms.{of_one, of_two, of_many, of_guarded, of_nested};
ghost use Rattle.resolved_tree.specs.Nodes.{Table, expression_at, statement_at, statements_at};
ghost use Rattle.resolved_tree.specs.Parts.{a_node, both};
ghost use Rattle.name_resolution.specs.Found.{Grows, IsIn, found, in_found, listed, each_node};
ghost use Rattle.name_resolution.specs.Known.{known_of};
ghost use Rattle.resolved_tree.specs.Trees.{table};

use crate::block::statement;
use crate::found::Found;
use crate::names::{call, create, element, field, print};
use crate::operator::{
    and, assignment, binary, cast, free, join, join_into, or, step, unary, update,
};
use c_definitions::Known;
use c_ints::{BinOp, UnOp};
use c_tree::{CType, StepOp};
use resolved_tree::{NodeId, StatementNode, Trees};
use std::alloc::AllocError;

/// A form of one part.
#[derive(Clone, Copy)]
pub(crate) enum One<'a> {
    Unary(UnOp),
    Step(StepOp),
    Cast(&'a CType),
    Element(&'a str),
    Field(&'a str),
    Free,
    Join,
}

/// A form of two parts.
#[derive(Clone, Copy)]
pub(crate) enum Two<'a> {
    Binary(BinOp),
    And,
    Or,
    Assign,
    Update(BinOp),
    Create(&'a str),
    JoinInto,
}

/// A form with arguments.
#[derive(Clone, Copy)]
pub(crate) enum Many<'a> {
    Call(&'a str),
    Print(&'a str),
}

/// A form of a test and a statement.
#[derive(Clone, Copy)]
pub(crate) enum Guarded {
    If,
    While,
    DoWhile,
}

/// A form of a block.
#[derive(Clone, Copy)]
pub(crate) enum Nested {
    Block,
    Transaction,
}

/// An expression of one part.
pub(crate) fn made_of_one(
    trees: &mut Trees,
    known: &Known,
    form: One,
    x: Found,
) -> Result<Found, AllocError>
    requires { IsIn (table trees.old) (in_found x) }
    ensures found { IfOk result (λ r. (u : Table) → Grows (table trees.new) u
        → found u r ≡ of_one (known_of known.now) form.entry (found u x)) }
    ensures within { IfOk result (λ r. IsIn (table trees.new) (in_found r)) }
    ensures grows { Grows (table trees.old) (table trees.new) }
{
    match form {
        One::Unary(op) => unary(trees, op, x),
        One::Step(op) => step(trees, op, x),
        One::Cast(to) => cast(trees, to, x),
        One::Element(name) => element(trees, known, name, x),
        One::Field(name) => field(trees, known, x, name),
        One::Free => free(trees, x),
        One::Join => join(trees, x),
    }
}

/// An expression of two parts.
pub(crate) fn made_of_two(
    trees: &mut Trees,
    known: &Known,
    form: Two,
    x: Found,
    y: Found,
) -> Result<Found, AllocError>
    requires { IsIn (table trees.old) (both (in_found x) (in_found y)) }
    ensures found { IfOk result (λ r. (u : Table) → Grows (table trees.new) u
        → found u r ≡ of_two (known_of known.now) form.entry (found u x) (found u y)) }
    ensures within { IfOk result (λ r. IsIn (table trees.new) (in_found r)) }
    ensures grows { Grows (table trees.old) (table trees.new) }
{
    match form {
        Two::Binary(op) => binary(trees, op, x, y),
        Two::And => and(trees, x, y),
        Two::Or => or(trees, x, y),
        Two::Assign => assignment(trees, x, y),
        Two::Update(op) => update(trees, op, x, y),
        Two::Create(name) => create(trees, known, x, name, y),
        Two::JoinInto => join_into(trees, x, y),
    }
}

/// An expression with arguments.
pub(crate) fn made_of_many(
    trees: &mut Trees,
    known: &Known,
    form: Many,
    ids: &[NodeId],
) -> Result<Found, AllocError>
    requires { IsIn (table trees.old) (each_node ids.now) }
    ensures found { IfOk result (λ r. (u : Table) → Grows (table trees.new) u
        → found u r ≡ of_many (known_of known.now) form.entry (listed (map (expression_at u) ids.now))) }
    ensures within { IfOk result (λ r. IsIn (table trees.new) (in_found r)) }
    ensures grows { Grows (table trees.old) (table trees.new) }
{
    match form {
        Many::Call(name) => call(trees, known, name, ids),
        Many::Print(format) => print(trees, format, ids),
    }
}

/// A statement of a test and a statement.
pub(crate) fn made_of_guarded(
    trees: &mut Trees,
    form: Guarded,
    test: NodeId,
    body: NodeId,
) -> Result<NodeId, AllocError>
    requires { IsIn (table trees.old) (both (a_node test) (a_node body)) }
    ensures tree { IfOk result (λ id. (u : Table) → Grows (table trees.new) u
        → statement_at u id ≡ of_guarded form (expression_at u test) (statement_at u body)) }
    ensures within { IfOk result (λ id. IsIn (table trees.new) (a_node id)) }
    ensures grows { Grows (table trees.old) (table trees.new) }
{
    match form {
        Guarded::If => statement(trees, StatementNode::If(test, body)),
        Guarded::While => statement(trees, StatementNode::While(test, body)),
        Guarded::DoWhile => statement(trees, StatementNode::DoWhile(body, test)),
    }
}

/// A statement of a block.
pub(crate) fn made_of_nested(
    trees: &mut Trees,
    form: Nested,
    list: NodeId,
) -> Result<NodeId, AllocError>
    requires { IsIn (table trees.old) (a_node list) }
    ensures tree { IfOk result (λ id. (u : Table) → Grows (table trees.new) u
        → statement_at u id ≡ of_nested form (statements_at u list)) }
    ensures within { IfOk result (λ id. IsIn (table trees.new) (a_node id)) }
    ensures grows { Grows (table trees.old) (table trees.new) }
{
    match form {
        Nested::Block => statement(trees, StatementNode::Block(list)),
        Nested::Transaction => statement(trees, StatementNode::Transaction(list)),
    }
}
