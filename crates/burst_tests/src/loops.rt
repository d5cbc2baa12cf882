use crate::codes::{exchange, turn_of_loop};

#[test]
fn a_million_turns(rt: HostRuntime) {
    let mut words = [0u64; 68];
    words[1] = 1_000_000;
    for _ in 1..1_000_000 {
        assert_eq!(rt; turn_of_loop(&mut words).place, 10);
    }
    assert_eq!(rt; turn_of_loop(&mut words).place, 11);
    assert_eq!(rt; words[0], 500_000_500_000);
    assert_eq!(rt; words[1], 0);
}

#[test]
fn exchanges_and_tests(rt: HostRuntime) {
    let mut words = [0u64; 68];
    words[0] = 5;
    words[1] = 300;
    let reached = exchange(&mut words);
    assert_eq!(rt; reached.place, 15);
    assert_eq!(rt; reached.height, 0);
    assert_eq!(rt; words[0], 1);
    assert_eq!(rt; words[1], 212);
}

#[test]
fn jumps_past_a_jump(rt: HostRuntime) {
    let mut words = [0u64; 68];
    words[0] = 5;
    words[1] = 256;
    let reached = exchange(&mut words);
    assert_eq!(rt; reached.place, 16);
    assert_eq!(rt; words[1], 0);
}
