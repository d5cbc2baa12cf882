//! Pairs of texts with what becomes of old data.
use crate::texts::read_with_main;
use crate::values::all_same;
use local_evaluation::Value;
use std::alloc::Global;
use std::test::Fail;
use type_transformers::{Change, cells_after, transforms};
use versioned_structs::{Fields, MOST_FIELDS, apply};

/// Two texts without their `main`, between which the data of one name changes, with old values and what they become.
pub(crate) struct Case {
    pub old: &'static str,
    pub new: &'static str,
    pub values: &'static [Value],
    pub due: &'static [Value],
}

/// The changes between two texts without their `main`.
pub(crate) fn changes(alloc: Global, old: &str, new: &str) -> Result<Vec<Change>, Fail> {
    let old = read_with_main(alloc, old)?;
    let new = read_with_main(alloc, new)?;
    match transforms(alloc, old.get(), new.get()) {
        Ok(changes) => Ok(changes),
        Err(_) => Err(Fail::new("a transformer has a fault")),
    }
}

/// Whether old values become others by a change.
fn gives(alloc: Global, change: &Change, values: &[Value], due: &[Value]) -> Result<bool, Fail> {
    match change {
        Change::Struct(_, transform) => {
            if values.len() > MOST_FIELDS {
                return Err(Fail::new("too many fields"));
            }
            let fields = apply(transform, &Fields::of(values));
            Ok(all_same(fields.as_slice(), due))
        }
        Change::Global(_, change) => {
            let cells = cells_after(alloc, change, values)?;
            Ok(all_same(&cells, due))
        }
    }
}

/// Whether one name changes, and its old values become what is due.
fn holds(alloc: Global, case: &Case) -> Result<bool, Fail> {
    let changes = changes(alloc, case.old, case.new)?;
    let [change] = changes.as_slice() else {
        return Ok(false);
    };
    gives(alloc, change, case.values, case.due)
}

/// The number of the first case that doesn't hold.
pub(crate) fn first_wrong(alloc: Global, cases: &[Case]) -> Result<Option<usize>, Fail> {
    for (row, case) in cases.iter().enumerate() {
        if !holds(alloc, case)? {
            return Ok(Some(row));
        }
    }
    Ok(None)
}
