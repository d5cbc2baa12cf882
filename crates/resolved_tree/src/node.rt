//! What a resolved tree is made of. A node names its parts by their numbers in the table of trees.
ghost use Rattle.std.specs.Prelude.{◌≡◌, ◌<◌, length};
ghost use Rattle.c_semantics.specs.Points.{size_read, writes};
ghost use Rattle.resolved_tree.specs.Nodes.{Table, place_of};

use crate::words::Word;
use c_ints::{BinOp, Int, Kind, UnOp};

/// The number of a node in the table of trees.
#[derive(Clone, Copy, PartialEq, Eq)]
pub struct NodeId(pub usize);

/// The type of a variable, or of what a conversion gives.
#[derive(Clone, Copy)]
pub enum ValueType {
    /// An integer type.
    Integer(Kind),
    /// `struct T *`, with the name T.
    Handle(Word),
    /// `thrd_t`
    Thread,
}

/// Where a value is kept.
#[derive(Clone, Copy)]
pub enum Place {
    /// A local variable.
    Local(Word),
    /// A global variable.
    Global(Word),
    /// An element of a global array; its index is an expression.
    Element(Word, NodeId),
    /// A field of the struct with a tag; the handle is an expression, and the name of the field comes last.
    Field(Word, NodeId, Word),
}

/// An expression.
#[derive(Clone, Copy)]
pub enum ExpressionNode {
    Constant(Int),
    Read(Place),
    Unary(UnOp, NodeId),
    Binary(BinOp, NodeId, NodeId),
    Convert(ValueType, NodeId),
    And(NodeId, NodeId),
    Or(NodeId, NodeId),
    /// `c ? a : b`
    Choice(NodeId, NodeId, NodeId),
    Assign(Place, NodeId),
    /// A compound assignment, with the type of its place.
    Update(ValueType, BinOp, Place, NodeId),
    /// `x++` or `x--`, with the type of its place.
    Postfix(ValueType, BinOp, Place),
    /// A call, with the function's name and the arguments.
    Call(Word, NodeId),
    /// A `printf`, with its format and the arguments.
    Print(Word, NodeId),
    /// A new object of the struct with a tag.
    New(Word),
    /// The end of an object.
    Free(Word, NodeId),
    /// `thrd_create`: where the handle is stored, the function, and the argument.
    Create(Place, Word, NodeId),
    Join(NodeId),
    /// `thrd_join` with a place for the result.
    JoinInto(NodeId, Place),
    InitMutex(Word),
    Lock(Word),
    Unlock(Word),
}

/// The arguments of a call.
#[derive(Clone, Copy)]
pub enum ArgumentsNode {
    None,
    /// An argument, and those after it.
    Then(NodeId, NodeId),
}

/// A statement, or a declaration in a block.
#[derive(Clone, Copy)]
pub enum StatementNode {
    Block(NodeId),
    Empty,
    /// An expression whose value is dropped.
    Evaluate(NodeId),
    /// A local variable, with its initializer if it has one.
    Declare(ValueType, Word, Option<NodeId>),
    If(NodeId, NodeId),
    IfElse(NodeId, NodeId, NodeId),
    While(NodeId, NodeId),
    /// A body and its condition.
    DoWhile(NodeId, NodeId),
    /// The first part as statements, the condition, the step, and the body.
    For(NodeId, Option<NodeId>, Option<NodeId>, NodeId),
    Break,
    Continue,
    Return(NodeId),
    UpdatePoint,
    Transaction(NodeId),
}

/// The statements of a block.
#[derive(Clone, Copy)]
pub enum StatementsNode {
    None,
    /// A statement, and those after it.
    Then(NodeId, NodeId),
}

/// A node of the table of trees.
#[derive(Clone, Copy)]
pub enum Node {
    Expression(ExpressionNode),
    Arguments(ArgumentsNode),
    Statement(StatementNode),
    Statements(StatementsNode),
}

/// A node in the table, with how many points its tree has.
#[derive(Clone, Copy)]
pub struct Entry {
    pub node: Node,
    pub points: u32,
}

/// How many points the read or the write of a place has: one, where it isn't local.
pub fn accesses(place: Place) -> u64
    ensures reads { (t : Table) → result ≡ size_read (place_of t place) }
    ensures writes { (t : Table) → result ≡ length (writes (place_of t place)) }
    ensures small { result < 2 }
{
    match place {
        Place::Local(_) => 0,
        Place::Global(_) | Place::Element(_, _) | Place::Field(_, _, _) => 1,
    }
}
