//! Globals and arrays.
use crate::Bench;
use run_types::TrapKind;
use word_data::{Did, SharedStop};

const INDEX: Did = Did::Trap(TrapKind::Index);

#[test]
fn a_global_is_read_and_written(rt: HostRuntime) {
    let mut bench = Bench::new(rt.alloc(), 0).expect(&rt, "memory");
    assert!(rt; bench.goes(SharedStop::ReadGlobal(0), &[5], &[5, 7]));
    assert!(rt; bench.goes(SharedStop::WriteGlobal(0), &[5, 8], &[5, 8]));
    assert!(rt;
        bench.goes(
            SharedStop::ReadGlobal(0),
            &[1, 2, 3, 4, 5, 6],
            &[1, 2, 3, 4, 5, 6, 8]
        )
    );
}

#[test]
fn a_number_of_no_global_reads_0(rt: HostRuntime) {
    let mut bench = Bench::new(rt.alloc(), 0).expect(&rt, "memory");
    assert!(rt; bench.goes(SharedStop::WriteGlobal(3), &[8], &[8]));
    assert!(rt; bench.goes(SharedStop::ReadGlobal(3), &[], &[0]));
    assert!(rt; bench.goes(SharedStop::ReadGlobal(u32::MAX), &[], &[0]));
}

#[test]
fn elements_are_read_and_written(rt: HostRuntime) {
    let mut bench = Bench::new(rt.alloc(), 0).expect(&rt, "memory");
    assert!(rt;
        bench.goes(
            SharedStop::WriteElement(1),
            &[5, 1, u64::MAX],
            &[5, u64::MAX]
        )
    );
    assert!(rt; bench.goes(SharedStop::ReadElement(1), &[5, 0], &[5, 10]));
    assert!(rt; bench.goes(SharedStop::ReadElement(1), &[5, 1], &[5, u64::MAX]));
    assert!(rt; bench.goes(SharedStop::ReadElement(1), &[5, 2], &[5, 30]));
    assert!(rt; bench.goes(SharedStop::ReadGlobal(0), &[], &[7]));
}

#[test]
fn an_index_outside_traps(rt: HostRuntime) {
    let mut bench = Bench::new(rt.alloc(), 0).expect(&rt, "memory");
    for (row, index) in [(1, 3), (1, u64::MAX), (1, 1 << 32), (2, 0), (3, 0), (0, 1)] {
        let read = SharedStop::ReadElement(row);
        let write = SharedStop::WriteElement(row);
        assert!(rt; bench.comes(0, read, &[5, index], INDEX, &[5, index]));
        assert!(rt; bench.comes(0, write, &[index, 9], INDEX, &[index, 9]));
    }
    assert!(rt; bench.goes(SharedStop::ReadElement(1), &[0], &[10]));
}
