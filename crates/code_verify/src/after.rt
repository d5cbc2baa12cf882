//! What instructions make of a shape.
ghost use Rattle.std.specs.Prelude.{◌≡◌, suc, option_map, IfOk};
ghost use Rattle.run_types.specs.Skeleton.{check_in_after};
ghost use Rattle.c_semantics.specs.Stops.{kind_of};
ghost use Rattle.resolved_tree.specs.Nodes.{Table};
ghost use Rattle.local_evaluation.specs.Pieces.{stop_of};
ghost use Rattle.skeletons.specs.Meaning.{check_in_of};
ghost use Rattle.bytecode.specs.Seen.{instruction_of};
ghost use Rattle.code_kinds.specs.Shapes.{transactions_after as transactions_after_stop, after_halt as after_halt_of, after_other as after_other_of, after_due as after_due_of, after as after_of};
ghost use Rattle.code_verify.specs.Ways.{due_numbered, check_in_in};
ghost use Rattle.code_verify.specs.Seen.{due_of, shape_of, trees_of, look_of};

use crate::meeting::same_check_in;
use crate::private::{
    combined, compared, computed, constant_kind, copied, copied_under, dropped, loaded, stored,
    swapped, tested, variable,
};
use crate::shape::{Due, Shape};
use crate::source::Source;
use crate::stops::after_stop;
use bytecode::Instr;
use code_kinds::WordKind;
use local_evaluation::Stop;
use skeletons::CheckInKind;
use std::alloc::AllocError;

/// How many transactions are open after a stop; none where one ends that isn't opened, or a return leaves one open. Lack of
/// memory is reported where they are 2^64 or more.
fn transactions_after(stop: Stop, opened: u64) -> Result<Option<u64>, AllocError>
    ensures { IfOk result (λ n. (t : Table) → n ≡ transactions_after_stop (stop_of t stop) opened) }
{
    match stop {
        Stop::Begin => match opened.checked_add(1) {
            Some(more) => Ok(Some(more)),
            None => Err(AllocError),
        },
        Stop::End => {
            if opened == 0 {
                Ok(None)
            } else {
                Ok(Some(opened - 1))
            }
        }
        Stop::Return => { if opened == 0 { Ok(Some(0)) } else { Ok(None) } }
        Stop::ReadGlobal(_)
        | Stop::WriteGlobal(_)
        | Stop::ReadElement(_)
        | Stop::WriteElement(_)
        | Stop::ReadField(_, _)
        | Stop::WriteField(_, _)
        | Stop::New(_)
        | Stop::Free(_)
        | Stop::Print(_, _)
        | Stop::InitMutex(_)
        | Stop::Lock(_)
        | Stop::Unlock(_)
        | Stop::Spawn(_)
        | Stop::Join
        | Stop::Call(_, _)
        | Stop::Back
        | Stop::Update => Ok(Some(opened)),
    }
}

/// The check-in that comes after a stop, if one does.
fn asks(stop: Stop) -> Option<CheckInKind>
    ensures { (t : Table) → option_map check_in_of result ≡ check_in_after (kind_of (stop_of t stop)) }
{
    match stop {
        Stop::Call(_, _) => Some(CheckInKind::Call),
        Stop::Begin => Some(CheckInKind::Begin),
        Stop::End => Some(CheckInKind::End),
        Stop::Update => Some(CheckInKind::Update),
        Stop::ReadGlobal(_)
        | Stop::WriteGlobal(_)
        | Stop::ReadElement(_)
        | Stop::WriteElement(_)
        | Stop::ReadField(_, _)
        | Stop::WriteField(_, _)
        | Stop::New(_)
        | Stop::Free(_)
        | Stop::Print(_, _)
        | Stop::InitMutex(_)
        | Stop::Lock(_)
        | Stop::Unlock(_)
        | Stop::Spawn(_)
        | Stop::Join
        | Stop::Return
        | Stop::Back => None,
    }
}

/// The check-in that comes next after a stop, with its number.
fn due_after(stop: Stop, number: u32) -> Option<Due>
    ensures { (t : Table) → option_map due_of result
        ≡ option_map (λ kind. record { kind = kind; number = suc number }) (check_in_after (kind_of (stop_of t stop))) }
{
    match asks(stop) {
        Some(kind) => Some(Due {
            kind,
            number: number as u64 + 1,
        }),
        None => None,
    }
}

/// A shape after a stop.
fn after_halt(
    source: &Source,
    value: WordKind,
    stop: Stop,
    number: u32,
    shape: Shape,
) -> Result<Option<Shape>, AllocError>
    ensures { IfOk result (λ more. option_map shape_of more
        ≡ after_halt_of (look_of source.now) value (stop_of (trees_of source.now) stop) number (shape_of shape)) }
{
    let opened = shape.transactions;
    let variables = shape.variables;
    let Some(stack) = after_stop(source, value, stop, shape.stack)? else {
        return Ok(None);
    };
    let Some(transactions) = transactions_after(stop, opened)? else {
        return Ok(None);
    };
    Ok(Some(Shape {
        stack,
        variables,
        transactions,
        due: due_after(stop, number),
    }))
}

/// A shape after an instruction, where no check-in is due.
fn after_other(
    source: &Source,
    value: WordKind,
    room: u32,
    instr: Instr,
    shape: Shape,
) -> Result<Option<Shape>, AllocError>
    ensures { IfOk result (λ more. option_map shape_of more
        ≡ after_other_of (look_of source.now) value room (instruction_of (trees_of source.now) instr) (shape_of shape)) }
{
    match instr {
        Instr::Constant(kind, word) => loaded(shape, constant_kind(kind, word)),
        Instr::Load(number) => {
            let kind = variable(&shape, number);
            loaded(shape, kind)
        }
        Instr::Store(number) => stored(shape, room, number),
        Instr::Copy => copied(shape),
        Instr::CopyUnder => copied_under(shape),
        Instr::Swap => swapped(shape),
        Instr::Drop => Ok(dropped(shape)),
        Instr::Convert(_) => computed(shape),
        Instr::Unary(_, _) => computed(shape),
        Instr::Binary(_, _) => combined(shape),
        Instr::IsZero => tested(shape),
        Instr::IsNotZero => tested(shape),
        Instr::Same => compared(shape),
        Instr::Different => compared(shape),
        Instr::Jump(_) => Ok(Some(shape)),
        Instr::JumpIfZero(_) => Ok(dropped(shape)),
        Instr::JumpUnlessZero(_) => Ok(dropped(shape)),
        Instr::Halt(stop, number) => after_halt(source, value, stop, number, shape),
        Instr::Back(_, _, _) => Ok(Some(shape)),
        Instr::CheckIn(_, _) => Ok(None),
    }
}

/// The check-in that an instruction is, with its number, if it is one.
fn check_in(instr: Instr) -> Option<(CheckInKind, u32)>
    ensures { (t : Table) → option_map (λ c. due_numbered (check_in_of c.0) c.1) result ≡ check_in_in (instruction_of t instr) }
{
    match instr {
        Instr::CheckIn(kind, number) => Some((kind, number)),
        Instr::Constant(_, _)
        | Instr::Load(_)
        | Instr::Store(_)
        | Instr::Copy
        | Instr::CopyUnder
        | Instr::Swap
        | Instr::Drop
        | Instr::Convert(_)
        | Instr::Unary(_, _)
        | Instr::Binary(_, _)
        | Instr::IsZero
        | Instr::IsNotZero
        | Instr::Same
        | Instr::Different
        | Instr::Jump(_)
        | Instr::JumpIfZero(_)
        | Instr::JumpUnlessZero(_)
        | Instr::Halt(_, _)
        | Instr::Back(_, _, _) => None,
    }
}

/// A shape after an instruction, where a check-in is due.
fn after_due(due: Due, instr: Instr, shape: Shape) -> Option<Shape>
    ensures { (t : Table) → option_map shape_of result ≡ after_due_of (due_of due) (instruction_of t instr) (shape_of shape) }
{
    let mut shape = shape;
    let (kind, number) = check_in(instr)?;
    if same_check_in(kind, due.kind) && number as u64 == due.number {
        shape.due = None;
        Some(shape)
    } else {
        None
    }
}

/// A shape after an instruction, in a function whose value is of a kind and that has room for so many variables; none where the
/// instruction doesn't find what it takes.
pub(crate) fn after(
    source: &Source,
    value: WordKind,
    room: u32,
    instr: Instr,
    shape: Shape,
) -> Result<Option<Shape>, AllocError>
    ensures { IfOk result (λ more. option_map shape_of more
        ≡ after_of (look_of source.now) value room (instruction_of (trees_of source.now) instr) (shape_of shape)) }
{
    match shape.due {
        Some(due) => Ok(after_due(due, instr, shape)),
        None => after_other(source, value, room, instr, shape),
    }
}
