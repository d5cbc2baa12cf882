//! The names on which two texts differ.
ghost use Rattle.std.specs.Prelude.{◌≡◌, ◌||◌, ◌&&◌, map, bytes_eq, not, IfOk, IfSome, OnOk, Some, string_bytes};
ghost use Rattle.std.specs.Option.{option_map};
ghost use Rattle.c_tree.specs.Bare.{bare_def};
ghost use Rattle.c_tree.specs.BareExpr.{Bytes};
ghost use Rattle.name_sets.specs.NameLists.{is_among, name_set};
ghost use Rattle.c_semantics.specs.Texts.{defined, definition, names};
ghost use Rattle.version_spans.specs.declared.names.NameForm.{NameForm as Form};
ghost use Rattle.version_spans.specs.Beginnings.{differ};
ghost use Rattle.version_spans.specs.Kept.{AreDifferences, name_of, texts_in};

use crate::names::NameSet;
use c_definitions::Known;
use c_tree::Def;
use patch_compare::same_definition;
use sorted_names::names_in_order;
use std::alloc::{AllocError, Global};

/// The names on which two texts differ. Each table is owned by a function of its own, which lends it on.
pub(crate) fn differences(alloc: Global, old: &[Def], new: &[Def]) -> Result<NameSet, AllocError>
    ensures { IfOk result (AreDifferences (map bare_def old.now) (map bare_def new.now)) }
{
    let Ok(known) = Known::of(alloc, old) else {
        return Err(AllocError);
    };
    let answer = differences_with(alloc, old, &known, new);
    drop(known);
    answer
}

/// The names on which two texts differ, of which the older has a table.
fn differences_with(
    alloc: Global,
    old: &[Def],
    old_known: &Known,
    new: &[Def],
) -> Result<NameSet, AllocError>
    requires { old_known.now ≡ old.now }
    ensures { IfOk result (AreDifferences (map bare_def old.now) (map bare_def new.now)) }
{
    let Ok(known) = Known::of(alloc, new) else {
        return Err(AllocError);
    };
    let answer = differences_known(alloc, old, new, old_known, &known);
    drop(known);
    answer
}

/// The names on which two texts with tables differ.
fn differences_known(
    alloc: Global,
    old: &[Def],
    new: &[Def],
    old_known: &Known,
    new_known: &Known,
) -> Result<NameSet, AllocError>
    requires old { old_known.now ≡ old.now }
    requires new { new_known.now ≡ new.now }
    ensures { IfOk result (AreDifferences (map bare_def old.now) (map bare_def new.now)) }
{
    let old_names = names_in_order(alloc, old)?;
    let new_names = names_in_order(alloc, new)?;
    let mut set = NameSet::new(alloc);
    put_differing(&mut set, old_names.as_slice(), old_known, new_known)?;
    put_differing(&mut set, new_names.as_slice(), old_known, new_known)?;
    Ok(set)
}

/// Puts in those of some names on which two texts differ.
fn put_differing(
    set: &mut NameSet,
    names: &[String],
    old: &Known,
    new: &Known,
) -> Result<(), AllocError>
    ensures { OnOk result ((form : Form) (text : Bytes) → is_among (texts_in set.new form) text
        ≡ ((is_among (map string_bytes names.now) (name_of form text) && differ (map bare_def old.now) (map bare_def new.now) (name_of form text))
        || is_among (texts_in set.old form) text)) }
{
    for name in names {
        put_if_differing(set, name.as_str(), old, new)?;
    }
    Ok(())
}

/// Puts a name in if two texts differ on it.
fn put_if_differing(
    set: &mut NameSet,
    name: &str,
    old: &Known,
    new: &Known,
) -> Result<(), AllocError>
    ensures { OnOk result ((form : Form) (text : Bytes) → is_among (texts_in set.new form) text
        ≡ ((bytes_eq (name_of form text) name.now && differ (map bare_def old.now) (map bare_def new.now) (name_of form text))
        || is_among (texts_in set.old form) text)) }
{
    if differ(name, old, new) {
        set.put_in_forms(name)
    } else {
        Ok(())
    }
}

/// Whether two texts differ on a name.
fn differ(name: &str, old: &Known, new: &Known) -> bool
    ensures { result ≡ differ (map bare_def old.now) (map bare_def new.now) name.now }
{
    match (definition(old, name), definition(new, name)) {
        (Some(a), Some(b)) => !same_definition(a, b),
        (None, None) => false,
        (_, _) => true,
    }
}

/// The definition of a name; a struct's is `struct` with its tag after a blank.
fn definition<'a>(known: &Known<'a>, name: &str) -> Option<&'a Def>
    ensures found { option_map (λ d. bare_def d.now) result ≡ definition (map bare_def known.now) name.now }
    ensures named { IfSome result (λ d. defined (bare_def d.now) ≡ Some name.now) }
{
    known.declared(name)
}
