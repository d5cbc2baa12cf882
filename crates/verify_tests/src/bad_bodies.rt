//! Bodies that each break one rule, and the first instruction that breaks it.
use crate::bodies::{FUNCTION, HANDLE_GLOBAL, INTEGER_GLOBAL, NO_FORMAT, ONE, broken_at};
use bytecode::{Instr, ValueKind};
use c_ints::{BinOp, Kind};
use local_evaluation::Stop;
use skeletons::CheckInKind;
use std::test::Fail;

const ENTRY: Instr = Instr::CheckIn(CheckInKind::Entry, 0);

const RETURN: Instr = Instr::Halt(Stop::Return, 9);

const NULL: Instr = Instr::Constant(ValueKind::Handle, 0);

#[test]
fn bodies_that_do_not_begin_or_end(rt: HostRuntime) -> Result<(), Fail> {
    let alloc = rt.alloc();
    assert_eq!(rt; broken_at(alloc, &[])?, Some(0));
    assert_eq!(rt; broken_at(alloc, &[ONE, RETURN])?, Some(0));
    assert_eq!(rt; broken_at(alloc, &[ENTRY, ONE])?, Some(1));
    assert_eq!(rt;
        broken_at(alloc, &[ENTRY, Instr::Jump(7), ONE, RETURN])?,
        Some(1)
    );
    Ok(())
}

#[test]
fn words_that_are_not_there(rt: HostRuntime) -> Result<(), Fail> {
    let alloc = rt.alloc();
    assert_eq!(rt;
        broken_at(alloc, &[ENTRY, Instr::Drop, ONE, RETURN])?,
        Some(1)
    );
    assert_eq!(rt;
        broken_at(
            alloc,
            &[
                ENTRY,
                ONE,
                NULL,
                Instr::Binary(BinOp::Add, Kind::I32),
                RETURN
            ]
        )?,
        Some(3)
    );
    assert_eq!(rt;
        broken_at(alloc, &[ENTRY, ONE, NULL, Instr::Same, RETURN])?,
        Some(3)
    );
    assert_eq!(rt;
        broken_at(
            alloc,
            &[ENTRY, Instr::Constant(ValueKind::Handle, 8), ONE, RETURN]
        )?,
        Some(1)
    );
    Ok(())
}

#[test]
fn variables_that_are_not_there(rt: HostRuntime) -> Result<(), Fail> {
    let alloc = rt.alloc();
    assert_eq!(rt;
        broken_at(alloc, &[ENTRY, Instr::Load(1), RETURN])?,
        Some(1)
    );
    assert_eq!(rt;
        broken_at(alloc, &[ENTRY, ONE, Instr::Store(2), ONE, RETURN])?,
        Some(2)
    );
    assert_eq!(rt;
        broken_at(
            alloc,
            &[
                ENTRY,
                Instr::Load(0),
                Instr::JumpIfZero(2),
                ONE,
                Instr::Store(1),
                Instr::Load(1),
                RETURN
            ]
        )?,
        Some(5)
    );
    Ok(())
}

#[test]
fn ways_that_do_not_meet(rt: HostRuntime) -> Result<(), Fail> {
    let alloc = rt.alloc();
    assert_eq!(rt;
        broken_at(
            alloc,
            &[
                ENTRY,
                Instr::Load(0),
                Instr::JumpIfZero(1),
                ONE,
                ONE,
                RETURN
            ]
        )?,
        Some(3)
    );
    assert_eq!(rt;
        broken_at(
            alloc,
            &[
                ENTRY,
                Instr::Load(0),
                Instr::JumpIfZero(2),
                Instr::Halt(Stop::Begin, 1),
                Instr::CheckIn(CheckInKind::Begin, 2),
                ONE,
                RETURN
            ]
        )?,
        Some(4)
    );
    Ok(())
}

#[test]
fn loops_that_change_what_they_keep(rt: HostRuntime) -> Result<(), Fail> {
    let alloc = rt.alloc();
    assert_eq!(rt;
        broken_at(alloc, &[ENTRY, NULL, Instr::Store(0), Instr::Back(2, 1, 1)])?,
        Some(3)
    );
    assert_eq!(rt;
        broken_at(alloc, &[ENTRY, ONE, Instr::Drop, Instr::Back(2, 1, 2)])?,
        Some(0)
    );
    assert_eq!(rt; broken_at(alloc, &[ENTRY, Instr::Back(9, 1, 1)])?, Some(1));
    assert_eq!(rt;
        broken_at(
            alloc,
            &[ENTRY, Instr::Jump(1), Instr::Jump(0), Instr::Back(1, 1, 1)]
        )?,
        Some(3)
    );
    Ok(())
}

#[test]
fn transactions_and_check_ins(rt: HostRuntime) -> Result<(), Fail> {
    let alloc = rt.alloc();
    assert_eq!(rt;
        broken_at(alloc, &[ENTRY, Instr::Halt(Stop::End, 1), ONE, RETURN])?,
        Some(1)
    );
    assert_eq!(rt;
        broken_at(
            alloc,
            &[
                ENTRY,
                Instr::Halt(Stop::Begin, 1),
                Instr::CheckIn(CheckInKind::Begin, 2),
                ONE,
                RETURN
            ]
        )?,
        Some(4)
    );
    assert_eq!(rt;
        broken_at(
            alloc,
            &[
                ENTRY,
                Instr::Halt(Stop::Update, 1),
                Instr::CheckIn(CheckInKind::Update, 3),
                ONE,
                RETURN
            ]
        )?,
        Some(2)
    );
    assert_eq!(rt; broken_at(alloc, &[ENTRY, ENTRY, ONE, RETURN])?, Some(1));
    Ok(())
}

#[test]
fn stops_that_lack_what_they_take(rt: HostRuntime) -> Result<(), Fail> {
    let alloc = rt.alloc();
    assert_eq!(rt;
        broken_at(
            alloc,
            &[
                ENTRY,
                ONE,
                Instr::Halt(Stop::WriteGlobal(HANDLE_GLOBAL), 1),
                RETURN
            ]
        )?,
        Some(2)
    );
    assert_eq!(rt;
        broken_at(
            alloc,
            &[ENTRY, Instr::Halt(Stop::Lock(INTEGER_GLOBAL), 1), RETURN]
        )?,
        Some(1)
    );
    assert_eq!(rt;
        broken_at(
            alloc,
            &[ENTRY, ONE, Instr::Halt(Stop::Call(FUNCTION, 1), 1), RETURN]
        )?,
        Some(2)
    );
    assert_eq!(rt;
        broken_at(
            alloc,
            &[
                ENTRY,
                ONE,
                ONE,
                Instr::Halt(Stop::Print(NO_FORMAT, 2), 1),
                RETURN
            ]
        )?,
        Some(3)
    );
    assert_eq!(rt; broken_at(alloc, &[ENTRY, NULL, RETURN])?, Some(2));
    Ok(())
}
