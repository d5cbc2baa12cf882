//! Bodies that are well formed.
use crate::bodies::{
    ARRAY, FIELD, FUNCTION, HANDLE_GLOBAL, INTEGER_GLOBAL, MUTEX, ONE, STRUCT, broken_at, verdict,
};
use bytecode::{Instr, ValueKind};
use c_ints::{BinOp, Kind};
use code_kinds::WordKind;
use local_evaluation::Stop;
use skeletons::CheckInKind;
use std::test::Fail;

#[test]
fn heights_of_a_sum(rt: HostRuntime) -> Result<(), Fail> {
    let code = [
        Instr::CheckIn(CheckInKind::Entry, 0),
        Instr::Load(0),
        ONE,
        Instr::Binary(BinOp::Add, Kind::I32),
        Instr::Halt(Stop::Return, 1),
        Instr::Drop,
    ];
    let Ok(verified) = verdict(rt.alloc(), &[WordKind::Integer], 1, &code)? else {
        return Err("the body is well formed".into());
    };
    let heights: [Option<u8>; 6] = [Some(0), Some(0), Some(1), Some(2), Some(1), None];
    assert!(rt; verified.heights.as_slice() == heights.as_slice());
    Ok(())
}

#[test]
fn loop_that_declares_a_variable(rt: HostRuntime) -> Result<(), Fail> {
    let code = [
        Instr::CheckIn(CheckInKind::Entry, 0),
        Instr::Load(0),
        Instr::JumpIfZero(3),
        Instr::Constant(ValueKind::Handle, 0),
        Instr::Store(1),
        Instr::Back(4, 1, 1),
        ONE,
        Instr::Halt(Stop::Return, 2),
    ];
    assert_eq!(rt; broken_at(rt.alloc(), &code)?, None);
    Ok(())
}

#[test]
fn transaction_with_a_call(rt: HostRuntime) -> Result<(), Fail> {
    let code = [
        Instr::CheckIn(CheckInKind::Entry, 0),
        Instr::Halt(Stop::Begin, 1),
        Instr::CheckIn(CheckInKind::Begin, 2),
        ONE,
        Instr::Halt(Stop::ReadGlobal(HANDLE_GLOBAL), 3),
        Instr::Halt(Stop::Call(FUNCTION, 2), 4),
        Instr::CheckIn(CheckInKind::Call, 5),
        Instr::Halt(Stop::WriteGlobal(INTEGER_GLOBAL), 6),
        Instr::Halt(Stop::End, 7),
        Instr::CheckIn(CheckInKind::End, 8),
        Instr::Halt(Stop::Return, 9),
    ];
    assert_eq!(rt; broken_at(rt.alloc(), &code)?, None);
    Ok(())
}

#[test]
fn objects_arrays_and_mutexes(rt: HostRuntime) -> Result<(), Fail> {
    let code = [
        Instr::CheckIn(CheckInKind::Entry, 0),
        Instr::Halt(Stop::New(STRUCT), 1),
        Instr::Halt(Stop::ReadField(STRUCT, FIELD), 2),
        Instr::Halt(Stop::Free(STRUCT), 3),
        Instr::Halt(Stop::ReadElement(ARRAY), 4),
        Instr::Drop,
        Instr::Halt(Stop::Lock(MUTEX), 5),
        Instr::Halt(Stop::Return, 6),
    ];
    assert_eq!(rt; broken_at(rt.alloc(), &code)?, None);
    Ok(())
}

#[test]
fn ways_that_meet_keep_common_variables(rt: HostRuntime) -> Result<(), Fail> {
    let code = [
        Instr::CheckIn(CheckInKind::Entry, 0),
        Instr::Load(0),
        Instr::JumpIfZero(2),
        ONE,
        Instr::Store(1),
        Instr::Load(0),
        Instr::Halt(Stop::Return, 1),
    ];
    assert_eq!(rt; broken_at(rt.alloc(), &code)?, None);
    Ok(())
}
