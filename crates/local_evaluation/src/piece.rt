//! What a thread has still to evaluate.
ghost use Rattle.std.specs.Prelude.{◌≡◌, IfOk};
ghost use Rattle.c_semantics.specs.Pieces.{body_at, step_at, back_at};
ghost use Rattle.local_evaluation.specs.Pieces.{loop_of};
ghost use Rattle.resolved_tree.specs.Trees.{table};

use crate::value::Value;
use c_ints::{BinOp, UnOp};
use resolved_tree::{NodeId, Place, Trees, ValueType, Word};
use std::alloc::AllocError;

/// Where a thread stops. What a stop takes and gives are the newest values.
#[derive(Clone, Copy)]
pub enum Stop {
    ReadGlobal(Word),
    WriteGlobal(Word),
    ReadElement(Word),
    WriteElement(Word),
    /// The struct's tag, and the field.
    ReadField(Word, Word),
    WriteField(Word, Word),
    /// The struct's tag.
    New(Word),
    Free(Word),
    /// The format, and how many arguments.
    Print(Word, usize),
    InitMutex(Word),
    Lock(Word),
    Unlock(Word),
    /// The function.
    Spawn(Word),
    Join,
    /// The function, and how many arguments.
    Call(Word, usize),
    Return,
    Back,
    Begin,
    End,
    Update,
}

/// A `while` or `for` loop after its first part, with the number of its first point.
#[derive(Clone, Copy)]
pub struct Loop {
    pub test: Option<NodeId>,
    pub step: Option<NodeId>,
    pub body: NodeId,
    pub first: u32,
}

/// A piece of a function's tree. A number is that of the first point of what it is about.
#[derive(Clone, Copy)]
pub enum Piece {
    /// An expression, which leaves its value.
    Compute(NodeId, u32),
    /// Arguments, which leave their values.
    Arguments(NodeId, u32),
    /// The parts of a place.
    Parts(Place, u32),
    /// The read of a place whose parts are the newest values.
    Get(Place, u32),
    /// The write of such a place; the value stays.
    Set(Place, u32),
    /// A copy of a place's part.
    Dup(Place),
    /// A copy of the newest value under the part of a place.
    Tuck(Place),
    /// The newest value under the part of a place comes up.
    Swap(Place),
    Apply(UnOp),
    Combine(BinOp),
    ConvertTo(ValueType),
    /// The newest value is dropped.
    Drop,
    /// A value is put there.
    Push(Value),
    /// Whether the newest value is true, as an `int`.
    Truth,
    /// What `thrd_create` gives for the handle that it stored.
    Created,
    /// The test after the left side of `&&`, with the right side.
    AndThen(NodeId, u32),
    /// The test after the left side of `||`, with the right side.
    OrElse(NodeId, u32),
    /// The test of `?:`.
    Choose(NodeId, NodeId, u32),
    /// The test of an `if`.
    Then(NodeId, u32),
    /// The test of an `if` with an `else`.
    ThenElse(NodeId, NodeId, u32),
    /// The test of a loop.
    Turn(Loop),
    /// The test of `do` with this body and condition.
    Repeat(NodeId, NodeId, u32),
    /// A statement.
    Do(NodeId, u32),
    /// A block with these statements.
    DoBlock(NodeId, u32),
    /// A `do` with this body and condition.
    DoWhile(NodeId, NodeId, u32),
    /// The rest of a block.
    Sequence(NodeId, u32),
    /// The end of a scope.
    Close,
    /// A loop from its test on.
    LoopTest(Loop),
    /// What comes after the body of a loop.
    AfterBody(Loop),
    /// The back edge of a loop.
    BackEdge(Loop),
    /// What comes after the body of `do` with this body and condition.
    Until(NodeId, NodeId, u32),
    /// A stop at the point of that number.
    At(Stop, u32),
}

impl Loop {
    /// The number of the body's first point.
    pub(crate) fn body_at(&self, trees: &Trees) -> Result<u32, AllocError>
        ensures { IfOk result (λ n. n ≡ body_at (loop_of (table trees.now) self.now)) }
    {
        trees.after_if(self.first, self.test)
    }

    /// The number of the step's first point.
    pub(crate) fn step_at(&self, trees: &Trees) -> Result<u32, AllocError>
        ensures { IfOk result (λ n. n ≡ step_at (loop_of (table trees.now) self.now)) }
    {
        let body = self.body_at(trees)?;
        trees.after_statement(body, self.body)
    }

    /// The number of the back edge.
    pub(crate) fn back_at(&self, trees: &Trees) -> Result<u32, AllocError>
        ensures { IfOk result (λ n. n ≡ back_at (loop_of (table trees.now) self.now)) }
    {
        let step = self.step_at(trees)?;
        trees.after_if(step, self.step)
    }
}
