use crate::codes::{fused, fused_operators, plain, plain_operators};
use std::alloc::Global;
use std::process::Abort;
use thread_state::Reached;

/// The word of a negative number.
fn minus(n: u64) -> u64 {
    0u64.wrapping_sub(n)
}

/// Whether operations come to what the plain instructions do, with the same variables.
fn agree(rt: &impl Abort, alloc: Global, first: u64, second: u64) -> Reached {
    let mut words = [0u64; 70];
    words[0] = first;
    words[1] = second;
    let mut same = words;
    let there = plain(&mut words);
    let here = fused(alloc, &mut same).expect(rt, "memory");
    assert_eq!(rt; here.place, there.place);
    assert_eq!(rt; here.height, there.height);
    assert!(rt; here.end == there.end);
    for n in 0..3usize {
        assert_eq!(rt; same[n], words[n]);
    }
    here
}

/// The same for the second code.
fn operators_agree(rt: &impl Abort, alloc: Global, first: u64, second: u64) -> Reached {
    let mut words = [0u64; 70];
    words[0] = first;
    words[1] = second;
    let mut same = words;
    let there = plain_operators(&mut words);
    let here = fused_operators(alloc, &mut same).expect(rt, "memory");
    assert_eq!(rt; here.place, there.place);
    assert_eq!(rt; here.height, there.height);
    assert!(rt; here.end == there.end);
    for n in 0..3usize {
        assert_eq!(rt; same[n], words[n]);
    }
    here
}

#[test]
fn goes_to_the_end(rt: HostRuntime) {
    assert_eq!(rt; agree(&rt, rt.alloc(), 20, 3).place, 47);
    assert_eq!(rt; agree(&rt, rt.alloc(), 20, 9).place, 47);
    agree(&rt, rt.alloc(), 3, 20);
    agree(&rt, rt.alloc(), 0, 7);
    agree(&rt, rt.alloc(), minus(5), 9);
    agree(&rt, rt.alloc(), minus(256), 1);
}

#[test]
fn traps_where_the_instructions_do(rt: HostRuntime) {
    assert_eq!(rt; agree(&rt, rt.alloc(), 0x7fff_ffff, 1).place, 2);
    assert_eq!(rt; agree(&rt, rt.alloc(), 5, 0).place, 23);
}

#[test]
fn operators_go_to_the_end(rt: HostRuntime) {
    assert_eq!(rt; operators_agree(&rt, rt.alloc(), 9, 5).place, 25);
    assert_eq!(rt; operators_agree(&rt, rt.alloc(), 3, 100).place, 20);
    assert_eq!(rt; operators_agree(&rt, rt.alloc(), 39, 0).place, 26);
    operators_agree(&rt, rt.alloc(), minus(7), minus(9));
}

#[test]
fn operators_trap_where_the_instructions_do(rt: HostRuntime) {
    assert_eq!(rt;
        operators_agree(&rt, rt.alloc(), minus(0x8000_0000), 1).place,
        2
    );
    assert_eq!(rt;
        operators_agree(&rt, rt.alloc(), 0x1_0003, 0x1_0000).place,
        4
    );
}
