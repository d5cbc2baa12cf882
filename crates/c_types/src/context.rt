ghost use Rattle.std.specs.Prelude.{◌≡◌, ◌≤◌, ◌+◌, Some, min, take, if◌then◌else◌};
ghost use Rattle.std.specs.List.{list_any, slice_get};
ghost use Rattle.c_expr_types.specs.declared.fault.TypeKind.TheVariants.{OverLimit};
ghost use Rattle.c_types.specs.Definitions.{cells_in, cells_of, many_cells, many_names, name_added, named_twice, names_of, tagged_twice};
ghost use Rattle.c_expr_types.specs.Faults.{first, unless};
ghost use Rattle.c_definitions.specs.Index.{key_of, keys, new_key};
ghost use Rattle.c_types.specs.TransformSyntax.{of_global, of_struct};

use crate::limits::MOST_CELLS;
use c_definitions::{Key, Known, key_of};
use c_expr_types::{Fault, TypeKind, unless};
use c_tree::{Def, DefKind, Name};
use name_sets::MOST_NAMES;

/// More cells than are allowed; greater numbers aren't told apart.
const TOO_MANY: u64 = MOST_CELLS + 1;

/// A definition of a text, with what comes before it.
#[derive(Drop)]
pub struct Context<'a> {
    pub known: &'a Known<'a>,
    /// How many definitions come before it.
    pub index: usize,
    pub definition: &'a Def,
    /// How many names there are up to and with it.
    pub names: usize,
    /// How many cells, or 65,537 where they are more.
    pub cells: u64,
    ghost at_index: { slice_get known.now index ≡ Some definition.now },
    ghost names_counted: { names ≡ names_of (take (index + 1) known.now) },
    ghost cells_counted: { cells ≡ min (cells_of (take (index + 1) known.now)) 65537 },
}

impl<'a> Context<'a> {
    /// The fault of a name that stands for something before.
    pub(crate) fn named_twice(&self, name: &Name) -> Option<Fault>
        ensures { result ≡ first (named_twice (take self.now.index self.now.known.now) name.now) }
    {
        let is_taken = self
            .known
            .is_found_before(Key::Name, name.text.as_str(), self.index);
        unless(!is_taken, TypeKind::DeclaredTwice, name.place)
    }

    /// The fault of a tag that is a struct's before.
    pub(crate) fn tagged_twice(&self, tag: &Name) -> Option<Fault>
        ensures { result ≡ first (tagged_twice (take self.now.index self.now.known.now) tag.now) }
    {
        let is_taken = self
            .known
            .is_found_before(Key::Struct, tag.text.as_str(), self.index);
        unless(!is_taken, TypeKind::DeclaredTwice, tag.place)
    }

    /// Whether a transformer of a struct comes before.
    pub(crate) fn is_struct_transformed(&self, tag: &Name) -> bool
        ensures { result ≡ list_any (λ d. of_struct tag.now.text d.kind) (take self.now.index self.now.known.now) }
    {
        self.known
            .is_found_before(Key::StructTransformer, tag.text.as_str(), self.index)
    }

    /// Whether a transformer of a global comes before.
    pub(crate) fn is_global_transformed(&self, name: &Name) -> bool
        ensures { result ≡ list_any (λ d. of_global name.now.text d.kind) (take self.now.index self.now.known.now) }
    {
        self.known
            .is_found_before(Key::GlobalTransformer, name.text.as_str(), self.index)
    }

    /// The fault of the definition where it isn't within a limit.
    pub(crate) fn over_limit(&self, is_within: bool) -> Option<Fault>
        ensures { result ≡ first (unless is_within OverLimit self.now.definition.now.place) }
    {
        unless(is_within, TypeKind::OverLimit, self.definition.place)
    }

    /// The fault of too many names.
    pub(crate) fn many_names(&self) -> Option<Fault>
        ensures { result ≡ first (many_names (take self.now.index self.now.known.now) self.now.definition.now) }
    {
        self.over_limit(self.names <= MOST_NAMES)
    }

    /// The fault of too many cells.
    pub(crate) fn many_cells(&self) -> Option<Fault>
        ensures { result ≡ first (many_cells (take self.now.index self.now.known.now) self.now.definition.now) }
    {
        self.over_limit(self.cells < TOO_MANY)
    }
}

/// 1 where something isn't taken.
fn one_unless(is_taken: bool) -> usize
    ensures { result ≡ (if is_taken then 0 else 1) }
{
    if is_taken { 0 } else { 1 }
}

/// 1 where a definition is found by a name that none before it is found by.
fn new_key(known: &Known, by: Key, index: usize, kind: &DefKind) -> usize
    ensures { result ≡ new_key (key_of by kind.now) (keys by (take index known.now)) }
{
    match key_of(by, kind) {
        Some(name) => one_unless(known.is_found_before(by, name.as_str(), index)),
        None => 0,
    }
}

/// How many names a definition adds to those of the definitions before it.
pub(crate) fn name_added(known: &Known, index: usize, kind: &DefKind) -> usize
    ensures bound { result ≤ 1 }
    ensures value { result ≡ name_added (take index known.now) kind.now }
{
    new_key(known, Key::Struct, index, kind) + new_key(known, Key::Name, index, kind)
}

/// How many cells there are with those of a definition more, or 65,537 where they are more.
pub(crate) fn more_cells(cells: u64, kind: &DefKind) -> u64
    requires { cells ≤ 65537 }
    ensures { result ≡ min (cells + cells_in kind.now) 65537 }
{
    match kind {
        DefKind::Global(_) => (cells + 1).min(TOO_MANY),
        DefKind::Array(array) => {
            let own = array.length.value.value().unsigned_abs();
            cells + own.min(u128::from(TOO_MANY - cells)) as u64
        }
        _ => cells,
    }
}
