ghost use Rattle.std.specs.Prelude.{length, ◌≡◌, ◌≤◌};

use bytecode::{Instr, ValueKind};
use c_ints::{BinOp, Kind, UnOp};
use run_types::TrapKind;
use thread_state::{End, Reached, burst};

/// `do { sum += n; n -= 1; } while (n);` with `sum` and `n` as its variables.
const LOOP: &[Instr] = &[
    Instr::Load(0),
    Instr::Load(1),
    Instr::Binary(BinOp::Add, Kind::I64),
    Instr::Store(0),
    Instr::Load(1),
    Instr::Constant(ValueKind::Number(Kind::I64), 1),
    Instr::Binary(BinOp::Sub, Kind::I64),
    Instr::Store(1),
    Instr::Load(1),
    Instr::JumpIfZero(1),
    Instr::Back(11, 0, 2),
    Instr::Back(0, 1, 2),
];

const LOOP_HEIGHTS: &[Option<u8>] = &[
    Some(0),
    Some(1),
    Some(2),
    Some(1),
    Some(0),
    Some(1),
    Some(2),
    Some(1),
    Some(0),
    Some(1),
    Some(0),
    Some(0),
];

const OPERATION_HEIGHTS: &[Option<u8>] = &[Some(0), Some(1), Some(2), Some(1), Some(0)];

const STACK: &[Instr] = &[
    Instr::Load(0),
    Instr::Load(1),
    Instr::CopyUnder,
    Instr::Swap,
    Instr::Drop,
    Instr::Copy,
    Instr::Same,
    Instr::Store(0),
    Instr::Unary(UnOp::Negate, Kind::I32),
    Instr::Convert(Kind::U8),
    Instr::Copy,
    Instr::Store(1),
    Instr::IsNotZero,
    Instr::JumpUnlessZero(1),
    Instr::Jump(1),
    Instr::Back(0, 0, 2),
    Instr::Back(0, 1, 2),
];

const STACK_HEIGHTS: &[Option<u8>] = &[
    Some(0),
    Some(1),
    Some(2),
    Some(3),
    Some(3),
    Some(2),
    Some(3),
    Some(2),
    Some(1),
    Some(1),
    Some(1),
    Some(2),
    Some(1),
    Some(1),
    Some(0),
    Some(0),
    Some(0),
];

/// One turn of the loop.
pub fn turn_of_loop(words: &mut [u64; 68]) -> Reached {
    burst(LOOP, LOOP_HEIGHTS, 2, words, 0, 0, 0)
}

/// The instructions of the stack, once.
pub fn exchange(words: &mut [u64; 68]) -> Reached {
    burst(STACK, STACK_HEIGHTS, 2, words, 0, 0, 0)
}

/// What an operator gives on two words, as an instruction.
pub fn operate(op: BinOp, kind: Kind, a: u64, b: u64) -> Result<u64, TrapKind> {
    let code = [
        Instr::Load(0),
        Instr::Load(1),
        Instr::Binary(op, kind),
        Instr::Store(0),
        Instr::Back(0, 0, 2),
    ];
    let mut words = [0u64; 68];
    words[0] = a;
    words[1] = b;
    match burst(&code, OPERATION_HEIGHTS, 2, &mut words, 0, 0, 0).end {
        End::Rests => Ok(words[0]),
        End::Traps(kind) => Err(kind),
    }
}
