//! Which trap of a run an operator's trap becomes.

use c_ints::ArithTrap;
use run_types::TrapKind;

#[test]
fn traps_of_operators(rt: HostRuntime) {
    assert!(rt; TrapKind::from(ArithTrap::Overflow) == TrapKind::Overflow);
    assert!(rt; TrapKind::from(ArithTrap::Divide) == TrapKind::Divide);
    assert!(rt; TrapKind::from(ArithTrap::Shift) == TrapKind::Shift);
}
