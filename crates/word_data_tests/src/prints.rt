//! Prints.
use crate::Bench;
use word_data::longest_print;

/// The word of -1, and of the least `int` and the least `long`.
const MINUS_ONE: u64 = u64::MAX;

const LEAST_INT: u64 = 0xffff_ffff_8000_0000;

const LEAST_LONG: u64 = 0x8000_0000_0000_0000;

#[test]
fn signed_conversions(rt: HostRuntime) {
    let mut bench = Bench::new(rt.alloc(), 0).expect(&rt, "memory");
    assert!(rt; bench.prints("%d", 1, &[0], "0"));
    assert!(rt; bench.prints("%d", 1, &[MINUS_ONE], "-1"));
    assert!(rt; bench.prints("%d", 1, &[0xffff_ffff], "-1"));
    assert!(rt; bench.prints("%d", 1, &[0x7fff_ffff], "2147483647"));
    assert!(rt; bench.prints("%d", 1, &[LEAST_INT], "-2147483648"));
    assert!(rt; bench.prints("%ld", 1, &[MINUS_ONE], "-1"));
    assert!(rt; bench.prints("%ld", 1, &[0xffff_ffff], "4294967295"));
    assert!(rt; bench.prints("%ld", 1, &[LEAST_LONG - 1], "9223372036854775807"));
    assert!(rt; bench.prints("%ld", 1, &[LEAST_LONG], "-9223372036854775808"));
}

#[test]
fn unsigned_conversions(rt: HostRuntime) {
    let mut bench = Bench::new(rt.alloc(), 0).expect(&rt, "memory");
    assert!(rt; bench.prints("%u", 1, &[MINUS_ONE], "4294967295"));
    assert!(rt; bench.prints("%u", 1, &[LEAST_INT], "2147483648"));
    assert!(rt; bench.prints("%lu", 1, &[MINUS_ONE], "18446744073709551615"));
    assert!(rt; bench.prints("%lu", 1, &[LEAST_LONG], "9223372036854775808"));
}

#[test]
fn the_newest_words_in_their_order(rt: HostRuntime) {
    let mut bench = Bench::new(rt.alloc(), 0).expect(&rt, "memory");
    assert!(rt; bench.prints("%d%%, %u\n", 2, &[1, 2, 3], "2%, 3\n"));
    assert!(rt; bench.prints("%d-%u-%ld-%lu", 4, &[1, 2, 3, 4, 5], "2-3-4-5"));
    assert!(rt; bench.prints("no word\n", 0, &[1], "no word\n"));
    assert!(rt; bench.prints("", 0, &[], ""));
}

#[test]
fn bytes_are_added_to_those_before(rt: HostRuntime) {
    let mut bench = Bench::new(rt.alloc(), 0).expect(&rt, "memory");
    assert!(rt; bench.prints("%d ", 1, &[41], "41 "));
    assert!(rt; bench.print_more("and 42"));
    assert!(rt; bench.printed() == b"41 and 42".as_slice());
}

#[test]
fn the_longest_print_of_a_format(rt: HostRuntime) {
    assert!(rt; longest_print("") == Some(0));
    assert!(rt; longest_print("no word\n") == Some(8));
    assert!(rt; longest_print("%d") == Some(20));
    assert!(rt; longest_print("%%%%") == Some(2));
    assert!(rt; longest_print("a%ld, %lu%% %u\n") == Some(66));
}
