//! What an expression does after its operands.
ghost use Rattle.std.specs.Prelude.{◌≡◌, ◌+◌, suc, [], ◌∷◌, ◌++◌, IfOk, OnOk};
ghost use Rattle.run_types.specs.CheckIns as check_in;
ghost use Rattle.c_semantics.specs.Evaluation.{count};
ghost use Rattle.c_semantics.specs.Stops as stop;
ghost use Rattle.resolved_tree.specs.Nodes.{Table, word, expression_at, arguments_at, expression_of, place_of, type_of};
ghost use Rattle.bytecode.specs.Instructions.{Halt, CheckIn, Drop};
ghost use Rattle.tree_code.specs.Code.{constant_of, getting, setting, int_code, kind_of_type};
ghost use Rattle.expr_gen.specs.Endings.{ending, stepping, creating, joining, left_kind as left_kind_of};
ghost use Rattle.expr_gen.specs.Kinds.{becoming, computing};
ghost use Rattle.expr_gen.specs.Operands.{between as between_of, size_between};
ghost use Rattle.expr_gen.specs.Scope.{trees_of, look_of, scope_of, Adds};

use crate::constants::{constant_as, int, number};
use crate::context::Context;
use crate::emit::{put, put_if};
use crate::kinds::{INT, integer_kind, kind_of};
use crate::known::result_kind;
use crate::operand::constant_in;
use crate::operators::{application, combination, combined_kind, compute, conversion};
use crate::place::{copying, get, place_kind, set, set_only, swapping, tucking};
use bytecode::{Instr, ValueKind};
use c_ints::{BinOp, unary_kind};
use local_evaluation::Stop;
use resolved_tree::{ExpressionNode, NodeId, Place, ValueType, Word, sum};
use skeletons::CheckInKind;
use std::alloc::AllocError;

/// The operands that are on the stack: the kinds of their values, and the number of the next point.
#[derive(Clone, Copy)]
pub(crate) struct Ready {
    pub first: ValueKind,
    pub second: ValueKind,
    pub at: u32,
}

/// Adds what a compound assignment does between its operands, and gives the number of the next point: it reads its place.
/// Another expression does nothing.
pub(crate) fn between(
    context: &Context,
    code: &mut Vec<Instr>,
    node: ExpressionNode,
    n: u32,
) -> Result<u32, AllocError>
    ensures code { let t = trees_of context.now in OnOk result
        (Adds t code.old.items code.new.items (between_of (scope_of context.now) (expression_of t node) n)) }
    ensures next { IfOk result (λ m. m ≡ n + size_between (expression_of (trees_of context.now) node)) }
{
    match node {
        ExpressionNode::Update(_, _, place, _) => {
            put_if(code, copying(place))?;
            let read = get(context, place, n)?;
            put(code, &[read])?;
            context.trees.after_read(n, place)
        }
        _ => Ok(n),
    }
}

/// Adds what an expression does after its operands. `&&`, `||` and `?:` have none.
pub(crate) fn finish(
    context: &Context,
    code: &mut Vec<Instr>,
    node: ExpressionNode,
    ready: Ready,
) -> Result<(), AllocError>
    ensures { let t = trees_of context.now in OnOk result (Adds t code.old.items code.new.items
        (ending (scope_of context.now) (expression_of t node) ready.first ready.second ready.at)) }
{
    let at = ready.at;
    match node {
        ExpressionNode::Constant(value) => put(code, &[number(value)]),
        ExpressionNode::Read(place) => read(context, code, place, at),
        ExpressionNode::Unary(op, _) => put_if(code, application(op, ready.first)),
        ExpressionNode::Binary(op, _, _) => {
            put(code, &[combination(op, ready.first, ready.second)])
        }
        ExpressionNode::Convert(to, e) => { convert(context, code, kind_of(to), (e, ready.first)) }
        ExpressionNode::And(_, _) | ExpressionNode::Or(_, _) | ExpressionNode::Choice(_, _, _) => {
            Ok(())
        }
        ExpressionNode::Assign(place, _) => set(context, code, place, at),
        ExpressionNode::Update(declared, op, place, _) => {
            update(context, code, (declared, op, place), ready)
        }
        ExpressionNode::Postfix(declared, op, place) => {
            postfix(context, code, (declared, op, place), at)
        }
        ExpressionNode::Create(place, function, _) => {
            create(context, code, (place, function), at)
        }
        ExpressionNode::JoinInto(_, place) => join_into(context, code, place, at),
        ExpressionNode::Call(name, arguments) => call(context, code, (name, arguments), at),
        ExpressionNode::Print(format, arguments) => {
            print(context, code, (format, arguments), at)
        }
        ExpressionNode::Join(_) => join(code, at),
        ExpressionNode::Free(tag, _) => put(code, &[Instr::Halt(Stop::Free(tag), at)]),
        ExpressionNode::New(tag) => put(code, &[Instr::Halt(Stop::New(tag), at)]),
        ExpressionNode::InitMutex(name) => put(code, &[Instr::Halt(Stop::InitMutex(name), at)]),
        ExpressionNode::Lock(name) => put(code, &[Instr::Halt(Stop::Lock(name), at)]),
        ExpressionNode::Unlock(name) => put(code, &[Instr::Halt(Stop::Unlock(name), at)]),
    }
}

/// The kind of the value that an expression leaves.
pub(crate) fn left_kind(
    context: &Context,
    node: ExpressionNode,
    ready: Ready,
) -> Result<ValueKind, AllocError>
    ensures { IfOk result (λ kind. kind ≡ left_kind_of (look_of context.now) (scope_of context.now)
        (expression_of (trees_of context.now) node) ready.first ready.second) }
{
    match node {
        ExpressionNode::Constant(value) => Ok(ValueKind::Number(value.kind())),
        ExpressionNode::Read(place) | ExpressionNode::Assign(place, _) => {
            place_kind(context, place)
        }
        ExpressionNode::Unary(op, _) => {
            Ok(ValueKind::Number(unary_kind(op, integer_kind(ready.first))))
        }
        ExpressionNode::Binary(op, _, _) => Ok(combined_kind(op, ready.first, ready.second)),
        ExpressionNode::Convert(declared, _)
        | ExpressionNode::Update(declared, _, _, _)
        | ExpressionNode::Postfix(declared, _, _) => Ok(kind_of(declared)),
        ExpressionNode::Call(name, _) => {
            Ok(result_kind(context.known, context.trees.text(name)))
        }
        ExpressionNode::New(_) => Ok(ValueKind::Handle),
        ExpressionNode::And(_, _)
        | ExpressionNode::Or(_, _)
        | ExpressionNode::Choice(_, _, _)
        | ExpressionNode::Print(_, _)
        | ExpressionNode::Free(_, _)
        | ExpressionNode::Create(_, _, _)
        | ExpressionNode::Join(_)
        | ExpressionNode::JoinInto(_, _)
        | ExpressionNode::InitMutex(_)
        | ExpressionNode::Lock(_)
        | ExpressionNode::Unlock(_) => Ok(INT),
    }
}

/// A read.
fn read(context: &Context, code: &mut Vec<Instr>, place: Place, at: u32) -> Result<(), AllocError>
    ensures { let t = trees_of context.now in OnOk result (Adds t code.old.items code.new.items
        (getting (scope_of context.now) (place_of t place) at ∷ [])) }
{
    let read = get(context, place, at)?;
    put(code, &[read])
}

/// A conversion of an expression whose value has a kind; a constant is converted here.
fn convert(
    context: &Context,
    code: &mut Vec<Instr>,
    to: ValueKind,
    from: (NodeId, ValueKind),
) -> Result<(), AllocError>
    ensures { let t = trees_of context.now in OnOk result (Adds t code.old.items code.new.items
        (becoming to from.1 (constant_of (expression_at t from.0)))) }
{
    match constant_in(context.trees, from.0) {
        Some(n) => put(code, &[constant_as(to, n)]),
        None => put_if(code, conversion(to, from.1)),
    }
}

/// A compound assignment, of which the right side is on the stack.
fn update(
    context: &Context,
    code: &mut Vec<Instr>,
    step: (ValueType, BinOp, Place),
    ready: Ready,
) -> Result<(), AllocError>
    ensures { let t = trees_of context.now in OnOk result (Adds t code.old.items code.new.items
        (computing step.1 (kind_of_type (type_of t step.0)) ready.second
        ++ setting (scope_of context.now) (place_of t step.2) ready.at)) }
{
    let (declared, op, place) = step;
    compute(code, op, kind_of(declared), ready.second)?;
    set(context, code, place, ready.at)
}

/// A postfix step.
fn postfix(
    context: &Context,
    code: &mut Vec<Instr>,
    step: (ValueType, BinOp, Place),
    at: u32,
) -> Result<(), AllocError>
    ensures { let t = trees_of context.now in OnOk result (Adds t code.old.items code.new.items
        (stepping (scope_of context.now) (type_of t step.0) step.1 (place_of t step.2) at)) }
{
    let (declared, op, place) = step;
    put_if(code, copying(place))?;
    let read = get(context, place, at)?;
    put(code, &[read, tucking(place), int(1)])?;
    compute(code, op, kind_of(declared), INT)?;
    let write = context.trees.after_read(at, place)?;
    set_only(context, code, place, write)
}

/// A `thrd_create`, whose argument is on the stack.
fn create(
    context: &Context,
    code: &mut Vec<Instr>,
    started: (Place, Word),
    at: u32,
) -> Result<(), AllocError>
    ensures { let t = trees_of context.now in OnOk result (Adds t code.old.items code.new.items
        (creating (scope_of context.now) (place_of t started.0) (word t started.1) at)) }
{
    let (place, function) = started;
    put(code, &[Instr::Halt(Stop::Spawn(function), at)])?;
    let write = sum(at, 1)?;
    set(context, code, place, write)?;
    put(code, &[Instr::IsZero])
}

/// A `thrd_join` with a place for the result.
fn join_into(
    context: &Context,
    code: &mut Vec<Instr>,
    place: Place,
    at: u32,
) -> Result<(), AllocError>
    ensures { let t = trees_of context.now in OnOk result (Adds t code.old.items code.new.items
        (joining (scope_of context.now) (place_of t place) at)) }
{
    put_if(code, swapping(place))?;
    put(code, &[Instr::Halt(Stop::Join, at)])?;
    let write = sum(at, 1)?;
    set_only(context, code, place, write)?;
    put(code, &[int(0)])
}

/// A `thrd_join` whose result is dropped.
fn join(code: &mut Vec<Instr>, at: u32) -> Result<(), AllocError>
    ensures { OnOk result ((t : Table) → Adds t code.old.items code.new.items
        (Halt stop.Join at ∷ Drop ∷ int_code 0 ∷ [])) }
{
    put(code, &[Instr::Halt(Stop::Join, at), Instr::Drop, int(0)])
}

/// A call, with its check-in.
fn call(
    context: &Context,
    code: &mut Vec<Instr>,
    called: (Word, NodeId),
    at: u32,
) -> Result<(), AllocError>
    ensures { let t = trees_of context.now in OnOk result (Adds t code.old.items code.new.items
        (Halt (stop.Call (word t called.0) (count (arguments_at t called.1))) at ∷ CheckIn check_in.Call (suc at) ∷ [])) }
{
    let (name, arguments) = called;
    let stop = Stop::Call(name, context.trees.count(arguments)?);
    let check_in = Instr::CheckIn(CheckInKind::Call, sum(at, 1)?);
    put(code, &[Instr::Halt(stop, at), check_in])
}

/// A `printf`.
fn print(
    context: &Context,
    code: &mut Vec<Instr>,
    printed: (Word, NodeId),
    at: u32,
) -> Result<(), AllocError>
    ensures { let t = trees_of context.now in OnOk result (Adds t code.old.items code.new.items
        (Halt (stop.Print (word t printed.0) (count (arguments_at t printed.1))) at ∷ [])) }
{
    let (format, arguments) = printed;
    let stop = Stop::Print(format, context.trees.count(arguments)?);
    put(code, &[Instr::Halt(stop, at)])
}
