//! The texts that `program_gen` makes: for some seeds and sizes they are those that another program computed, and they are
//! accepted as programs.
use crate::texts::typed_of;
use program_gen::generate;
use std::alloc::{AllocError, Global};

/// The program and its offer that a seed and a size make. The size isn't 0.
fn texts_of(alloc: Global, seed: u64, size: u32) -> Result<(Vec<u8>, Vec<u8>), AllocError> {
    if size > 0 {
        generate(alloc, seed, size)
    } else {
        Err(AllocError)
    }
}

/// A seed, a size, the program and its offer.
static SAMPLES: [(u64, u32, &str, &str); 3] = [
    (
        7,
        1,
        "\
int g;
int f0(void) { g = g + 8; return 1; }
int main(void) {
dsu_tx { printf(\"%d\\n\", f0() + f0()); }
return 0; }
",
        "\
int g;
int f0(void) { g = g + 9; return 1; }
int main(void) {
dsu_tx { printf(\"%d\\n\", f0() + f0()); }
return 0; }
",
    ),
    (
        7,
        3,
        "\
int g;
int f0(void) { g = g + 8; return 1; }
int f1(void) { int s = f0(); g = g + 1; return s; }
int f2(void) { int s = f0(); g = g + 0; return s; }
int main(void) {
dsu_tx { printf(\"%d\\n\", f0() + f0()); }
dsu_tx { printf(\"%d\\n\", f1() + f2()); }
dsu_tx { printf(\"%d\\n\", f2() + f1()); }
return 0; }
",
        "\
int g;
int f0(void) { g = g + 8; return 1; }
int f1(void) { int s = f0(); g = g + 2; return s; }
int f2(void) { int s = f0(); g = g + 0; return s; }
int main(void) {
dsu_tx { printf(\"%d\\n\", f0() + f0()); }
dsu_tx { printf(\"%d\\n\", f1() + f2()); }
dsu_tx { printf(\"%d\\n\", f2() + f1()); }
return 0; }
",
    ),
    (
        123_456_789,
        5,
        "\
int g;
int f0(void) { g = g + 8; return 1; }
int f1(void) { int s = f0(); g = g + 6; return s; }
int f2(void) { int s = f1(); g = g + 8; return s; }
int f3(void) { int s = f1(); g = g + 8; return s; }
int f4(void) { int s = f0(); g = g + 8; return s; }
int main(void) {
dsu_tx { printf(\"%d\\n\", f0() + f2()); }
dsu_tx { printf(\"%d\\n\", f1() + f1()); }
dsu_tx { printf(\"%d\\n\", f2() + f2()); }
dsu_tx { printf(\"%d\\n\", f3() + f2()); }
dsu_tx { printf(\"%d\\n\", f4() + f2()); }
return 0; }
",
        "\
int g;
int f0(void) { g = g + 8; return 1; }
int f1(void) { int s = f0(); g = g + 6; return s; }
int f2(void) { int s = f1(); g = g + 9; return s; }
int f3(void) { int s = f1(); g = g + 8; return s; }
int f4(void) { int s = f0(); g = g + 8; return s; }
int main(void) {
dsu_tx { printf(\"%d\\n\", f0() + f2()); }
dsu_tx { printf(\"%d\\n\", f1() + f1()); }
dsu_tx { printf(\"%d\\n\", f2() + f2()); }
dsu_tx { printf(\"%d\\n\", f3() + f2()); }
dsu_tx { printf(\"%d\\n\", f4() + f2()); }
return 0; }
",
    ),
];

#[test]
fn small_texts_are_as_computed_elsewhere(rt: HostRuntime) -> Result<(), AllocError> {
    for (seed, size, program, offer) in &SAMPLES {
        let (older, newer) = texts_of(rt.alloc(), *seed, *size)?;
        assert!(rt; older.as_slice() == program.as_bytes(), "{seed} {size}");
        assert!(rt; newer.as_slice() == offer.as_bytes(), "{seed} {size}");
    }
    Ok(())
}

/// A seed, a size, the length of both texts, and the checksums of the program and of its offer.
static CHECKSUMS: [(u64, u32, usize, u32, u32); 5] = [
    (0, 2, 206, 1_037_341_192, 1_510_860_135),
    (123_456_789, 64, 6_111, 1_327_179_628, 708_242_413),
    (
        4_611_686_018_427_387_904,
        101,
        9_645,
        1_230_142_081,
        393_276_930,
    ),
    (7, 200, 19_471, 3_910_524_226, 2_377_356_769),
    (
        9_223_372_036_854_775_807,
        200,
        19_479,
        405_455_022,
        205_311_373,
    ),
];

/// The bytes as the digits of a number in base 31, modulo 2^32.
fn checksum(bytes: &[u8]) -> u32 {
    let mut sum: u32 = 0;
    for byte in bytes {
        sum = sum.wrapping_mul(31).wrapping_add(u32::from(*byte));
    }
    sum
}

#[test]
fn larger_texts_have_the_checksums_computed_elsewhere(rt: HostRuntime) -> Result<(), AllocError> {
    for (seed, size, len, program, offer) in &CHECKSUMS {
        let (older, newer) = texts_of(rt.alloc(), *seed, *size)?;
        assert!(rt; (older.len(), newer.len()) == (*len, *len), "{seed} {size}");
        let sums = (checksum(older.as_slice()), checksum(newer.as_slice()));
        assert!(rt; sums == (*program, *offer), "{seed} {size}");
    }
    Ok(())
}

/// Whether a text is read without a fault.
fn is_accepted(alloc: Global, text: &[u8]) -> bool {
    match typed_of(alloc, text) {
        Ok(typed) => {
            drop(typed);
            true
        }
        Err(_) => false,
    }
}

/// Seeds and sizes.
static SIZES: [(u64, u32); 5] = [
    (7, 1),
    (7, 2),
    (0, 57),
    (7, 200),
    (9_223_372_036_854_775_807, 200),
];

#[test]
fn both_texts_are_read(rt: HostRuntime) -> Result<(), AllocError> {
    for (seed, size) in &SIZES {
        let (program, offer) = texts_of(rt.alloc(), *seed, *size)?;
        assert!(rt;
            is_accepted(rt.alloc(), program.as_slice()),
            "{seed} {size}"
        );
        assert!(rt; is_accepted(rt.alloc(), offer.as_slice()), "{seed} {size}");
    }
    Ok(())
}
