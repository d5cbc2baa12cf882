//! That the definitions of `c_ints` mean what C means, and that each call succeeds.

mod tables;

use c_ints::{
    ArithTrap, Int, Kind, UnOp, binary, binary_kind, binary_wrap, common, convert, literal,
    promote, unary, unary_kind, unary_wrap,
};
use std::alloc::{AllocError, Global};
use tables::{BINARY, CONVERTED, LITERAL_FAULTS, LITERALS, TRAPS, UNARY, WRAPPED};

#[test]
fn binary_operators_give_what_c_gives(rt: HostRuntime) {
    for (row, (op, a, b, want)) in BINARY.iter().enumerate() {
        assert!(rt; binary(*op, *a, *b) == Ok(*want), "row {row}");
        assert!(rt;
            binary_kind(*op, a.kind(), b.kind()) == want.kind(),
            "row {row}"
        );
    }
}

#[test]
fn unary_operators_give_what_c_gives(rt: HostRuntime) {
    for (row, (op, a, want)) in UNARY.iter().enumerate() {
        let is_given = unary(*op, *a) == Ok(*want) && unary_wrap(*op, *a) == *want;
        assert!(rt; is_given, "row {row}");
        assert!(rt; unary_kind(*op, a.kind()) == want.kind(), "row {row}");
    }
}

#[test]
fn undefined_operations_trap(rt: HostRuntime) {
    for (row, (op, a, b, trap)) in TRAPS.iter().enumerate() {
        assert!(rt; binary(*op, *a, *b) == Err(*trap), "row {row}");
    }
    let least = Int::I64(i64::MIN);
    assert!(rt; unary(UnOp::Negate, least) == Err(ArithTrap::Overflow));
    assert!(rt; unary_wrap(UnOp::Negate, least) == least);
}

#[test]
fn signed_results_wrap(rt: HostRuntime) {
    for (row, (op, a, b, want)) in WRAPPED.iter().enumerate() {
        assert!(rt; binary_wrap(*op, *a, *b) == *want, "row {row}");
    }
}

#[test]
fn conversions_give_what_c_gives(rt: HostRuntime) {
    for (row, (a, want)) in CONVERTED.iter().enumerate() {
        assert!(rt; convert(*a, want.kind()) == *want, "row {row}");
    }
    assert!(rt; promote(Int::U16(65535)) == Int::I32(65535));
    assert!(rt; common(Kind::I64, Kind::U32) == Kind::I64);
    assert!(rt; Int::new(Kind::U8, 200).value() == 200);
}

/// Whether the text of a line is read as the line says.
fn is_read(alloc: Global, line: &str) -> Result<bool, AllocError> {
    let Some((text, want)) = line.split_once("@") else {
        return Ok(false);
    };
    let read = literal(text);
    let shown = format!(in alloc; "{read:?}")?;
    Ok(shown.as_str() == want)
}

/// The first of some lines that is read otherwise, or `None`.
fn first_other(alloc: Global, lines: &'static str) -> Result<Option<&'static str>, AllocError> {
    for line in lines.lines() {
        if !is_read(alloc, line)? {
            return Ok(Some(line));
        }
    }
    Ok(None)
}

#[test]
fn constants_have_the_value_and_type_that_c_gives(rt: HostRuntime) {
    let other = first_other(rt.alloc(), LITERALS).expect(&rt, "memory");
    assert_eq!(rt; other, None);
}

#[test]
fn other_texts_are_no_constants(rt: HostRuntime) {
    let other = first_other(rt.alloc(), LITERAL_FAULTS).expect(&rt, "memory");
    assert_eq!(rt; other, None);
}
