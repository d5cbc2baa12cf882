//! What an expression does in order.
ghost use Rattle.std.specs.Prelude.{◌≡◌};
ghost use Rattle.skeleton_gen.specs.Steps.{steps_of, one_step, two_steps, three_steps, parts_step, read_step, write_step};

use crate::spot::SpotKind;
use resolved_tree::{ExpressionNode, NodeId, Place, Word};
use skeletons::{CheckInKind, Use};

/// A part of an expression in order of evaluation.
#[derive(Clone, Copy)]
pub(crate) enum Step {
    Nothing,
    Evaluate(NodeId),
    Arguments(NodeId),
    At(SpotKind),
    /// The right side of `&&`, which may be left out.
    Maybe(NodeId),
    /// The right side of `||`, which may be left out.
    MaybeNot(NodeId),
    /// One of two.
    Either(NodeId, NodeId),
}

/// What an expression does, in up to four steps.
#[derive(Clone, Copy)]
pub(crate) struct Steps {
    pub first: Step,
    pub second: Step,
    pub third: Step,
    pub fourth: Step,
}

/// The steps of an expression.
pub(crate) fn in_order(node: ExpressionNode) -> Steps
    ensures { result ≡ steps_of node }
{
    match node {
        ExpressionNode::Constant(_) => one(Step::Nothing),
        ExpressionNode::Unary(_, a) | ExpressionNode::Convert(_, a) => one(Step::Evaluate(a)),
        ExpressionNode::Binary(_, a, b) => two(Step::Evaluate(a), Step::Evaluate(b)),
        ExpressionNode::And(a, b) => two(Step::Evaluate(a), Step::Maybe(b)),
        ExpressionNode::Or(a, b) => two(Step::Evaluate(a), Step::MaybeNot(b)),
        ExpressionNode::Choice(c, a, b) => two(Step::Evaluate(c), Step::Either(a, b)),
        ExpressionNode::Read(place) => two(parts(place), read(place)),
        ExpressionNode::Assign(place, e) => three(parts(place), Step::Evaluate(e), write(place)),
        ExpressionNode::Update(_, _, place, e) => Steps {
            first: parts(place),
            second: read(place),
            third: Step::Evaluate(e),
            fourth: write(place),
        },
        ExpressionNode::Postfix(_, _, place) => three(parts(place), read(place), write(place)),
        ExpressionNode::Create(place, function, e) => Steps {
            first: parts(place),
            second: Step::Evaluate(e),
            third: uses(Use::Spawn, function),
            fourth: write(place),
        },
        ExpressionNode::JoinInto(e, place) => Steps {
            first: Step::Evaluate(e),
            second: parts(place),
            third: Step::At(SpotKind::Join),
            fourth: write(place),
        },
        ExpressionNode::Call(function, arguments) => three(
            Step::Arguments(arguments),
            uses(Use::Call, function),
            Step::At(SpotKind::CheckIn(CheckInKind::Call)),
        ),
        ExpressionNode::Print(_, arguments) => {
            two(Step::Arguments(arguments), Step::At(SpotKind::Print))
        }
        ExpressionNode::Free(tag, e) => two(Step::Evaluate(e), uses_struct(Use::Free, tag)),
        ExpressionNode::Join(e) => two(Step::Evaluate(e), Step::At(SpotKind::Join)),
        ExpressionNode::New(tag) => one(uses_struct(Use::New, tag)),
        ExpressionNode::InitMutex(name) => one(uses(Use::InitMutex, name)),
        ExpressionNode::Lock(name) => one(uses(Use::Lock, name)),
        ExpressionNode::Unlock(name) => one(uses(Use::Unlock, name)),
    }
}

/// One step.
fn one(fourth: Step) -> Steps
    ensures { result ≡ one_step fourth }
{
    two(Step::Nothing, fourth)
}

/// Two steps.
fn two(third: Step, fourth: Step) -> Steps
    ensures { result ≡ two_steps third fourth }
{
    three(Step::Nothing, third, fourth)
}

/// Three steps.
fn three(second: Step, third: Step, fourth: Step) -> Steps
    ensures { result ≡ three_steps second third fourth }
{
    Steps {
        first: Step::Nothing,
        second,
        third,
        fourth,
    }
}

/// A stop that uses a name.
fn uses(action: Use, name: Word) -> Step
    ensures { result ≡ Step.At (SpotKind.Uses action name) }
{
    Step::At(SpotKind::Uses(action, name))
}

/// A stop that uses the name of the struct with a tag.
fn uses_struct(action: Use, tag: Word) -> Step
    ensures { result ≡ Step.At (SpotKind.UsesStruct action tag) }
{
    Step::At(SpotKind::UsesStruct(action, tag))
}

/// The parts of a place: its index or its handle.
fn parts(place: Place) -> Step
    ensures { result ≡ parts_step place }
{
    match place {
        Place::Local(_) | Place::Global(_) => Step::Nothing,
        Place::Element(_, index) => Step::Evaluate(index),
        Place::Field(_, handle, _) => Step::Evaluate(handle),
    }
}

/// The read of a place.
fn read(place: Place) -> Step
    ensures { result ≡ read_step place }
{
    match place {
        Place::Local(_) => Step::Nothing,
        Place::Global(name) => uses(Use::ReadGlobal, name),
        Place::Element(name, _) => uses(Use::ReadElement, name),
        Place::Field(tag, _, _) => uses_struct(Use::ReadField, tag),
    }
}

/// The write of a place.
fn write(place: Place) -> Step
    ensures { result ≡ write_step place }
{
    match place {
        Place::Local(_) => Step::Nothing,
        Place::Global(name) => uses(Use::WriteGlobal, name),
        Place::Element(name, _) => uses(Use::WriteElement, name),
        Place::Field(tag, _, _) => uses_struct(Use::WriteField, tag),
    }
}
