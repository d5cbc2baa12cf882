//! Copies of tables of names.
ghost use Rattle.std.specs.Prelude.{◌≡◌, ◌<◌, ◌↔◌, length, slice_get, Some, IfOk, IsTrue};

use name_sets::{NameId, Names, NamesFault};
use std::alloc::{AllocError, Global};

/// A copy of a table: the same texts with the same ids. It has room for all of them, so only memory can be wanting.
pub fn copy_names(alloc: Global, names: &Names) -> Result<Names, AllocError>
    ensures { IfOk result (λ copy. copy ≡ names.now) }
{
    let mut copy = Names::new(alloc);
    for index in 0..names.len() {
        match copy.add(text_at(names, index)) {
            Ok(_) => {}
            Err(NamesFault::Memory) => return Err(AllocError),
            Err(NamesFault::Full) => unreachable!(),
        }
    }
    Ok(copy)
}

/// Whether two tables have the same texts with the same ids. It takes no memory.
pub fn same_names(names: &Names, other: &Names) -> bool
    ensures { IsTrue result ↔ (names.now ≡ other.now) }
{
    let many = names.len();
    if many != other.len() {
        return false;
    }
    for index in 0..many {
        if !is_same(text_at(names, index), text_at(other, index)) {
            return false;
        }
    }
    true
}

/// The text with a number.
fn text_at(table: &Names, index: usize) -> &str
    requires { index < length table.now }
    ensures { slice_get table.now index ≡ Some result.now }
{
    let _many = table.len();
    table.text(NameId::new(index).unwrap())
}

/// Whether two texts are the same.
fn is_same(text: &str, other: &str) -> bool
    ensures { IsTrue result ↔ (text.now ≡ other.now) }
{
    text == other
}
