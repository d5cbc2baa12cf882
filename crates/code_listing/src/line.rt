//! An instruction as text.
use crate::names::{
    binary_name, check_in_name, kind_name, stop_name, subject, unary_name, word_name,
};
use bytecode::Instr;
use c_ints::Kind;
use local_evaluation::Stop;
use resolved_tree::Trees;
use std::alloc::AllocError;

/// Adds an instruction at a place.
pub(crate) fn add_instruction(
    text: &mut String,
    trees: &Trees,
    place: usize,
    instr: Instr,
) -> Result<(), AllocError> {
    match instr {
        Instr::Jump(_) | Instr::JumpIfZero(_) | Instr::JumpUnlessZero(_) | Instr::Back(_, _, _) => {
            add_jump(text, place, instr)
        }
        Instr::Halt(stop, point) => add_stop(text, trees, stop, point),
        Instr::CheckIn(kind, point) => {
            let name = check_in_name(kind);
            write!(text, "check_in {name} @{point}")
        }
        Instr::Constant(kind, word) => {
            let kind = word_name(kind);
            write!(text, "constant {kind} {word}")
        }
        Instr::Load(n) => write!(text, "load {n}"),
        Instr::Store(n) => write!(text, "store {n}"),
        Instr::Unary(op, kind) => add_at_kind(text, unary_name(op), kind),
        Instr::Binary(op, kind) => add_at_kind(text, binary_name(op), kind),
        Instr::Convert(kind) => add_at_kind(text, "convert", kind),
        _ => text.push_str(plain_name(instr)),
    }
}

/// The name of an instruction without operands.
fn plain_name(instr: Instr) -> &'static str {
    match instr {
        Instr::Copy => "copy",
        Instr::CopyUnder => "copy_under",
        Instr::Swap => "swap",
        Instr::Drop => "drop",
        Instr::IsZero => "is_zero",
        Instr::IsNotZero => "is_not_zero",
        Instr::Same => "same",
        Instr::Different => "different",
        _ => "",
    }
}

/// Adds what works at a kind.
fn add_at_kind(text: &mut String, name: &str, kind: Kind) -> Result<(), AllocError> {
    let kind = kind_name(kind);
    write!(text, "{name} {kind}")
}

/// Adds a jump or a back edge, with the place to which it leads.
fn add_jump(text: &mut String, place: usize, instr: Instr) -> Result<(), AllocError> {
    match instr {
        Instr::Jump(d) => {
            let to = ahead(place, d);
            write!(text, "jump {to}")
        }
        Instr::JumpIfZero(d) => {
            let to = ahead(place, d);
            write!(text, "jump_if_zero {to}")
        }
        Instr::JumpUnlessZero(d) => {
            let to = ahead(place, d);
            write!(text, "jump_unless_zero {to}")
        }
        Instr::Back(d, point, variables) => {
            let to = place.saturating_sub(d as usize);
            write!(text, "back {to} keeps {variables} @{point}")
        }
        _ => Ok(()),
    }
}

/// The place so many instructions after the next one.
fn ahead(place: usize, d: u32) -> usize {
    place.saturating_add(1).saturating_add(d as usize)
}

/// Adds a stop with its point.
fn add_stop(text: &mut String, trees: &Trees, stop: Stop, point: u32) -> Result<(), AllocError> {
    let name = stop_name(stop);
    write!(text, "halt {name}")?;
    if let Some(word) = subject(stop) {
        let name = trees.text(word);
        write!(text, " {name}")?;
    }
    add_details(text, trees, stop)?;
    write!(text, " @{point}")
}

/// Adds the field, the format and the number of arguments of a stop that has them.
fn add_details(text: &mut String, trees: &Trees, stop: Stop) -> Result<(), AllocError> {
    match stop {
        Stop::ReadField(_, field) | Stop::WriteField(_, field) => {
            let field = trees.text(field);
            write!(text, ".{field}")
        }
        Stop::Print(format, count) => {
            let format = trees.text(format);
            write!(text, " {format:?} {count}")
        }
        Stop::Call(_, count) => write!(text, " {count}"),
        _ => Ok(()),
    }
}
