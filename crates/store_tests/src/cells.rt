//! Cells are added where there is room, and each is read as it was last written.
use object_store::Cells;
use std::alloc::{AllocError, Global};

/// The words of three cells, after the one in the middle was written; the last is added in room that is reserved later.
fn words(alloc: Global) -> Result<[u64; 4], AllocError> {
    let mut cells = Cells::new(alloc);
    cells.reserve_cells(2)?;
    let first = cells.add_cell(5);
    let second = cells.add_cell(u64::MAX);
    cells.reserve_cells(1)?;
    let third = cells.add_cell(7);
    cells.write(second, 6);
    Ok([
        cells.read(first),
        cells.read(second),
        cells.read(third),
        cells.len() as u64,
    ])
}

#[test]
fn cells_are_read_as_written(rt: HostRuntime) {
    assert!(rt; words(rt.alloc()).expect(&rt, "memory") == [5, 6, 7, 3]);
}
