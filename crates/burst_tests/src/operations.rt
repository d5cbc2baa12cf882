use crate::codes::operate;
use c_ints::{BinOp, Kind};
use run_types::TrapKind;

/// The word of a negative number.
fn minus(n: u64) -> u64 {
    0u64.wrapping_sub(n)
}

#[test]
fn overflow(rt: HostRuntime) {
    assert_eq!(rt;
        operate(BinOp::Add, Kind::I32, 0x7fff_ffff, 1),
        Err(TrapKind::Overflow)
    );
    assert_eq!(rt;
        operate(BinOp::Sub, Kind::I64, 1 << 63, 1),
        Err(TrapKind::Overflow)
    );
    assert_eq!(rt;
        operate(BinOp::Div, Kind::I32, minus(0x8000_0000), minus(1)),
        Err(TrapKind::Overflow)
    );
    assert_eq!(rt;
        operate(BinOp::Shl, Kind::I32, 1, 31),
        Err(TrapKind::Overflow)
    );
}

#[test]
fn division_by_zero(rt: HostRuntime) {
    assert_eq!(rt; operate(BinOp::Div, Kind::I32, 7, 0), Err(TrapKind::Divide));
    assert_eq!(rt; operate(BinOp::Rem, Kind::U64, 7, 0), Err(TrapKind::Divide));
}

#[test]
fn counts_of_shifts(rt: HostRuntime) {
    assert_eq!(rt; operate(BinOp::Shl, Kind::I32, 1, 32), Err(TrapKind::Shift));
    assert_eq!(rt;
        operate(BinOp::Shr, Kind::U64, 1, minus(1)),
        Err(TrapKind::Shift)
    );
    assert_eq!(rt;
        operate(BinOp::Shl, Kind::I64, minus(1), 1),
        Err(TrapKind::Shift)
    );
}

#[test]
fn signed_results(rt: HostRuntime) {
    assert_eq!(rt; operate(BinOp::Sub, Kind::I32, 5, 7), Ok(minus(2)));
    assert_eq!(rt; operate(BinOp::Mul, Kind::I64, minus(3), 5), Ok(minus(15)));
    assert_eq!(rt; operate(BinOp::Div, Kind::I32, minus(7), 2), Ok(minus(3)));
    assert_eq!(rt; operate(BinOp::Rem, Kind::I32, minus(7), 2), Ok(minus(1)));
    assert_eq!(rt; operate(BinOp::Shr, Kind::I32, minus(7), 1), Ok(minus(4)));
    assert_eq!(rt; operate(BinOp::Lt, Kind::I32, minus(1), 0), Ok(1));
}

#[test]
fn unsigned_results(rt: HostRuntime) {
    assert_eq!(rt; operate(BinOp::Sub, Kind::U32, 5, 7), Ok(0xffff_fffe));
    assert_eq!(rt; operate(BinOp::Mul, Kind::U64, 1 << 63, 2), Ok(0));
    assert_eq!(rt; operate(BinOp::Lt, Kind::U32, minus(1), 0), Ok(0));
    assert_eq!(rt;
        operate(BinOp::Xor, Kind::U32, minus(1), 1),
        Ok(0xffff_fffe)
    );
}

#[test]
fn narrow_kinds(rt: HostRuntime) {
    assert_eq!(rt;
        operate(BinOp::Add, Kind::I8, 100, 100),
        Err(TrapKind::Overflow)
    );
    assert_eq!(rt; operate(BinOp::Add, Kind::U8, 200, 100), Ok(44));
    assert_eq!(rt; operate(BinOp::Or, Kind::I16, 0x8000, 1), Ok(minus(0x7fff)));
    assert_eq!(rt; operate(BinOp::Mul, Kind::U16, 0x1234, 0x100), Ok(0x3400));
}
