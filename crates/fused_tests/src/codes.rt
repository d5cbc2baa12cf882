use bytecode::{Instr, ValueKind};
use c_ints::{BinOp, Kind, UnOp};
use fused_code::fuse;
use std::alloc::{AllocError, Global};
use thread_state::Reached;

/// Code with three variables that has each form of operation.
const FORMS: &[Instr] = &[
    Instr::Load(0),
    Instr::Load(1),
    Instr::Binary(BinOp::Add, Kind::I32),
    Instr::Store(2),
    Instr::Load(2),
    Instr::Constant(ValueKind::Number(Kind::I32), 7),
    Instr::Binary(BinOp::Mul, Kind::U32),
    Instr::Store(2),
    Instr::Load(0),
    Instr::Load(1),
    Instr::Binary(BinOp::Lt, Kind::I32),
    Instr::JumpIfZero(2),
    Instr::Constant(ValueKind::Number(Kind::I32), 5),
    Instr::Store(1),
    Instr::Load(1),
    Instr::Constant(ValueKind::Number(Kind::I32), 9),
    Instr::Binary(BinOp::Eq, Kind::U32),
    Instr::JumpIfZero(1),
    Instr::Jump(2),
    Instr::Load(2),
    Instr::Store(0),
    Instr::Load(0),
    Instr::Load(1),
    Instr::Binary(BinOp::Div, Kind::I64),
    Instr::Convert(Kind::U8),
    Instr::Store(2),
    Instr::Load(0),
    Instr::Unary(UnOp::Negate, Kind::I32),
    Instr::Copy,
    Instr::Store(0),
    Instr::IsZero,
    Instr::JumpUnlessZero(1),
    Instr::Jump(0),
    Instr::Load(0),
    Instr::Load(1),
    Instr::Same,
    Instr::Load(0),
    Instr::Load(2),
    Instr::Different,
    Instr::CopyUnder,
    Instr::Swap,
    Instr::Drop,
    Instr::Binary(BinOp::Xor, Kind::U64),
    Instr::IsNotZero,
    Instr::Store(1),
    Instr::Load(2),
    Instr::JumpIfZero(1),
    Instr::Back(0, 1, 3),
    Instr::Back(0, 2, 3),
];

const FORMS_HEIGHTS: &[Option<u8>] = &[
    Some(0),
    Some(1),
    Some(2),
    Some(1),
    Some(0),
    Some(1),
    Some(2),
    Some(1),
    Some(0),
    Some(1),
    Some(2),
    Some(1),
    Some(0),
    Some(1),
    Some(0),
    Some(1),
    Some(2),
    Some(1),
    Some(0),
    Some(0),
    Some(1),
    Some(0),
    Some(1),
    Some(2),
    Some(1),
    Some(1),
    Some(0),
    Some(1),
    Some(1),
    Some(2),
    Some(1),
    Some(1),
    Some(0),
    Some(0),
    Some(1),
    Some(2),
    Some(1),
    Some(2),
    Some(3),
    Some(2),
    Some(3),
    Some(3),
    Some(2),
    Some(1),
    Some(1),
    Some(0),
    Some(1),
    Some(0),
    Some(0),
];

/// Code with three variables that has operators of their own, on words and on constants.
const OPERATORS: &[Instr] = &[
    Instr::Load(0),
    Instr::Constant(ValueKind::Number(Kind::I32), 3),
    Instr::Binary(BinOp::Sub, Kind::I32),
    Instr::Load(1),
    Instr::Binary(BinOp::Mul, Kind::I32),
    Instr::Constant(ValueKind::Number(Kind::I32), 100),
    Instr::Binary(BinOp::Rem, Kind::I32),
    Instr::Store(2),
    Instr::Load(2),
    Instr::Load(1),
    Instr::Binary(BinOp::Sub, Kind::U32),
    Instr::Constant(ValueKind::Number(Kind::I32), 5),
    Instr::Binary(BinOp::Shr, Kind::U32),
    Instr::Load(0),
    Instr::Binary(BinOp::Xor, Kind::U32),
    Instr::Store(0),
    Instr::Load(0),
    Instr::Constant(ValueKind::Number(Kind::I32), 40),
    Instr::Binary(BinOp::Ge, Kind::I32),
    Instr::JumpIfZero(1),
    Instr::Back(0, 1, 3),
    Instr::Load(1),
    Instr::Load(2),
    Instr::Binary(BinOp::Ne, Kind::U32),
    Instr::JumpIfZero(1),
    Instr::Back(0, 2, 3),
    Instr::Back(0, 3, 3),
];

const OPERATORS_HEIGHTS: &[Option<u8>] = &[
    Some(0),
    Some(1),
    Some(2),
    Some(1),
    Some(2),
    Some(1),
    Some(2),
    Some(1),
    Some(0),
    Some(1),
    Some(2),
    Some(1),
    Some(2),
    Some(1),
    Some(2),
    Some(1),
    Some(0),
    Some(1),
    Some(2),
    Some(1),
    Some(0),
    Some(0),
    Some(1),
    Some(2),
    Some(1),
    Some(0),
    Some(0),
];

/// The plain instructions, from the first place on.
pub fn plain(words: &mut [u64; 70]) -> Reached {
    thread_state::burst(FORMS, FORMS_HEIGHTS, 3, words, 0, 0, 0)
}

/// The operations of the code, from the first place on.
pub fn fused(alloc: Global, words: &mut [u64; 70]) -> Result<Reached, AllocError> {
    let ops = fuse(alloc, FORMS, FORMS_HEIGHTS, 3)?;
    Ok(fused_code::burst(ops.as_slice(), FORMS, FORMS_HEIGHTS, 3, words, 0, 0, 0))
}

/// The plain instructions of the second code, from the first place on.
pub fn plain_operators(words: &mut [u64; 70]) -> Reached {
    thread_state::burst(OPERATORS, OPERATORS_HEIGHTS, 3, words, 0, 0, 0)
}

/// Its operations, from the first place on.
pub fn fused_operators(alloc: Global, words: &mut [u64; 70]) -> Result<Reached, AllocError> {
    let ops = fuse(alloc, OPERATORS, OPERATORS_HEIGHTS, 3)?;
    Ok(fused_code::burst(
        ops.as_slice(),
        OPERATORS,
        OPERATORS_HEIGHTS,
        3,
        words,
        0,
        0,
        0,
    ))
}
