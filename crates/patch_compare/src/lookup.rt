//! A name in both texts.
ghost use Rattle.std.specs.Prelude.{◌≡◌, map, option_map, IfSome, Some};
ghost use Rattle.c_tree.specs.Bare.{bare_def};
ghost use Rattle.c_tree.specs.BareExpr.{Bytes};
ghost use Rattle.name_sets.specs.NameLists.{is_among};
ghost use Rattle.c_semantics.specs.Changes.{agree};
ghost use Rattle.c_semantics.specs.Texts.{defined, definition, names};
ghost use Rattle.patch_faults.specs.Sorts.{other_sort};
ghost use Rattle.patch_compare.specs.Extents.{same_by};

use crate::alike::{same_definition, same_interface, same_sort};
use c_definitions::Known;
use c_tree::Def;

/// What of two definitions is compared.
#[derive(Clone, Copy)]
pub(crate) enum Extent {
    /// The definitions themselves.
    Whole,
    /// Their interfaces.
    Interface,
}

/// The definition of a name; a struct's is `struct` with its tag after a blank.
fn definition<'a>(known: &Known<'a>, name: &str) -> Option<&'a Def>
    ensures found { option_map (λ d. bare_def d.now) result ≡ definition (map bare_def known.now) name.now }
    ensures named { IfSome result (λ d. defined (bare_def d.now) ≡ Some name.now) }
{
    known.declared(name)
}

/// Whether a text defines a name.
pub(crate) fn is_defined(known: &Known, name: &str) -> bool
    ensures { result ≡ is_among (names (map bare_def known.now)) name.now }
{
    definition(known, name).is_some()
}

/// Whether two texts define a name as different sorts.
pub(crate) fn has_other_sort(name: &str, old: &Known, new: &Known) -> bool
    ensures { result ≡ other_sort (definition (map bare_def old.now) name.now) (definition (map bare_def new.now) name.now) }
{
    match (definition(old, name), definition(new, name)) {
        (Some(a), Some(b)) => !same_sort(&a.kind, &b.kind),
        _ => false,
    }
}

/// Whether two texts define a name, and alike.
pub(crate) fn agree(extent: Extent, name: &str, old: &Known, new: &Known) -> bool
    ensures { result ≡ agree (same_by extent) (definition (map bare_def old.now) name.now) (definition (map bare_def new.now) name.now) }
{
    match (definition(old, name), definition(new, name)) {
        (Some(a), Some(b)) => same_by(extent, a, b),
        _ => false,
    }
}

/// Whether two definitions of one name are the same, by what of them is compared.
fn same_by(extent: Extent, a: &Def, b: &Def) -> bool
    ensures { (name : Bytes) → defined (bare_def a.now) ≡ Some name → defined (bare_def b.now) ≡ Some name
        → result ≡ same_by extent (bare_def a.now) (bare_def b.now) }
{
    match extent {
        Extent::Whole => same_definition(a, b),
        Extent::Interface => same_interface(&a.kind, &b.kind),
    }
}
