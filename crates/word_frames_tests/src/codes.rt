//! Functions in code, with the heights of their stacks.
ghost use Rattle.std.specs.Prelude.{◌<◌, ◌≤◌, IsTrue};
ghost use Rattle.thread_state.specs.Heights.{HasHeight};
ghost use Rattle.word_frames.specs.Seen.{IsKept, depth_of};

use bytecode::{Instr, ValueKind};
use c_ints::{BinOp, Kind};
use fused_code::fuse;
use local_evaluation::Stop;
use resolved_tree::Word;
use skeletons::CheckInKind;
use std::alloc::Global;
use thread_state::End;
use word_frames::Frames;

/// `digits(7, 5, 3)`
const ASK: &[Instr] = &[
    Instr::CheckIn(CheckInKind::Entry, 0),
    Instr::Constant(ValueKind::Number(Kind::I64), 7),
    Instr::Constant(ValueKind::Number(Kind::I64), 5),
    Instr::Constant(ValueKind::Number(Kind::I64), 3),
    Instr::Halt(Stop::Call(Word(1), 3), 1),
    Instr::Halt(Stop::Return, 2),
];

const ASK_HEIGHTS: &[Option<u8>] = &[Some(0), Some(0), Some(1), Some(2), Some(3), Some(1)];

/// `(a * 10 + b) * 10 + c` for parameters `a`, `b` and `c`
const DIGITS: &[Instr] = &[
    Instr::CheckIn(CheckInKind::Entry, 0),
    Instr::Load(2),
    Instr::Constant(ValueKind::Number(Kind::I64), 10),
    Instr::Binary(BinOp::Mul, Kind::I64),
    Instr::Load(1),
    Instr::Binary(BinOp::Add, Kind::I64),
    Instr::Constant(ValueKind::Number(Kind::I64), 10),
    Instr::Binary(BinOp::Mul, Kind::I64),
    Instr::Load(0),
    Instr::Binary(BinOp::Add, Kind::I64),
    Instr::Halt(Stop::Return, 1),
];

const DIGITS_HEIGHTS: &[Option<u8>] = &[
    Some(0),
    Some(0),
    Some(1),
    Some(2),
    Some(1),
    Some(2),
    Some(1),
    Some(2),
    Some(1),
    Some(2),
    Some(1),
];

/// `n ? n + sum(n - 1) : 0` for a parameter `n`
const SUM: &[Instr] = &[
    Instr::CheckIn(CheckInKind::Entry, 0),
    Instr::Load(0),
    Instr::JumpUnlessZero(2),
    Instr::Constant(ValueKind::Number(Kind::I64), 0),
    Instr::Halt(Stop::Return, 1),
    Instr::Load(0),
    Instr::Load(0),
    Instr::Constant(ValueKind::Number(Kind::I64), 1),
    Instr::Binary(BinOp::Sub, Kind::I64),
    Instr::Halt(Stop::Call(Word(2), 1), 2),
    Instr::Binary(BinOp::Add, Kind::I64),
    Instr::Halt(Stop::Return, 3),
];

const SUM_HEIGHTS: &[Option<u8>] = &[
    Some(0),
    Some(0),
    Some(1),
    Some(0),
    Some(1),
    Some(0),
    Some(1),
    Some(2),
    Some(3),
    Some(2),
    Some(2),
    Some(1),
];

/// The functions.
#[derive(Clone, Copy, PartialEq, Eq)]
pub(crate) enum Unit {
    Ask,
    Digits,
    Sum,
}

/// The function with a number.
pub(crate) fn unit_of(number: u32) -> Unit {
    match number {
        0 => Unit::Ask,
        1 => Unit::Digits,
        _ => Unit::Sum,
    }
}

/// The instruction of a function at a place.
pub(crate) fn instruction(unit: Unit, place: usize) -> Option<Instr> {
    match unit {
        Unit::Ask => ASK.get(place).copied(),
        Unit::Digits => DIGITS.get(place).copied(),
        Unit::Sum => SUM.get(place).copied(),
    }
}

/// No stack of these functions is higher.
pub(crate) const HIGHEST: usize = 3;

/// Whether there is room for each of their stacks.
fn has_room(frames: &Frames) -> bool
    ensures { IsTrue result → 3 ≤ frames.now.highest_stack }
{
    frames.highest_stack >= HIGHEST
}

/// Whether the stack has that height at a place.
fn has_height(heights: &[Option<u8>], place: usize, height: usize) -> bool
    ensures { IsTrue result → HasHeight heights.now place height }
{
    match heights.get(place) {
        Some(Some(there)) => *there as usize == height,
        _ => false,
    }
}

/// The innermost frame, of a function, goes on at a place with that height, unless the height is another or there is no room.
pub(crate) fn go_on(
    alloc: Global,
    frames: &mut Frames,
    unit: Unit,
    point: u32,
    place: usize,
    height: usize,
) -> Option<End>
    requires kept { IsKept frames.old }
    requires frame { 0 < depth_of frames.old }
    ensures { IsKept frames.new }
{
    match unit {
        Unit::Ask => ask(alloc, frames, point, place, height),
        Unit::Digits => digits(alloc, frames, point, place, height),
        Unit::Sum => sum(alloc, frames, point, place, height),
    }
}

fn ask(alloc: Global, frames: &mut Frames, point: u32, place: usize, height: usize) -> Option<End>
    requires kept { IsKept frames.old }
    requires frame { 0 < depth_of frames.old }
    ensures { IsKept frames.new }
{
    if !has_room(frames) || !has_height(ASK_HEIGHTS, place, height) {
        return None;
    }
    match fuse(alloc, ASK, ASK_HEIGHTS, 64) {
        Ok(ops) => Some(frames.go_on(ASK, ASK_HEIGHTS, ops.as_slice(), point, place, height)),
        Err(_) => None,
    }
}

fn digits(
    alloc: Global,
    frames: &mut Frames,
    point: u32,
    place: usize,
    height: usize,
) -> Option<End>
    requires kept { IsKept frames.old }
    requires frame { 0 < depth_of frames.old }
    ensures { IsKept frames.new }
{
    if !has_room(frames) || !has_height(DIGITS_HEIGHTS, place, height) {
        return None;
    }
    match fuse(alloc, DIGITS, DIGITS_HEIGHTS, 64) {
        Ok(ops) => Some(frames.go_on(DIGITS, DIGITS_HEIGHTS, ops.as_slice(), point, place, height)),
        Err(_) => None,
    }
}

fn sum(alloc: Global, frames: &mut Frames, point: u32, place: usize, height: usize) -> Option<End>
    requires kept { IsKept frames.old }
    requires frame { 0 < depth_of frames.old }
    ensures { IsKept frames.new }
{
    if !has_room(frames) || !has_height(SUM_HEIGHTS, place, height) {
        return None;
    }
    match fuse(alloc, SUM, SUM_HEIGHTS, 64) {
        Ok(ops) => Some(frames.go_on(SUM, SUM_HEIGHTS, ops.as_slice(), point, place, height)),
        Err(_) => None,
    }
}
