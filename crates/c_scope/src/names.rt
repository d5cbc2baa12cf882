//! The names with their innermost declarations.
ghost use Rattle.std.specs.Prelude.{◌≡◌, ◌<◌, None, length, set, slice_index_or, IfOk, IfSome, IfNone, OnOk, OnErr};
ghost use Rattle.c_scope.specs.Names.{texts_of, places_of, IsNumber, Lacks, HasName};

use indexmap::IndexMap;
use std::alloc::AllocError;

/// The names that were ever declared, each with the place of the step that holds its innermost
/// declaration, if it has one now.
pub(crate) type Names = IndexMap<String, Option<usize>>;

/// The number of a name, which is its index in the map, or `None` if it isn't there.
pub(crate) fn number_of(names: &Names, text: &str) -> Option<usize>
    ensures found { IfSome result (IsNumber (texts_of names.now.entries) text.now) }
    ensures absent { IfNone result (Lacks (texts_of names.now.entries) text.now) }
{
    let name = names.get_index_of(text)?;
    Some(name)
}

/// The number of a name, which is added if it isn't there.
pub(crate) fn add(names: &mut Names, text: &str) -> Result<usize, AllocError>
    ensures added { OnOk result (HasName names.old.entries text.now names.new.entries) }
    ensures number { IfOk result (IsNumber (texts_of names.new.entries) text.now) }
    ensures absent { OnErr result (Lacks (texts_of names.old.entries) text.now) }
    ensures fault { OnErr result (names.new.entries ≡ names.old.entries) }
{
    if let Some(name) = number_of(names, text) {
        return Ok(name);
    }
    let name = names.len();
    let owned = String::from_str(*names.allocator(), text)?;
    names.insert(owned, None)?;
    Ok(name)
}

/// The place of the innermost declaration of the name with a number.
pub(crate) fn place(names: &Names, name: usize) -> Option<usize>
    requires { name < length names.now.entries }
    ensures { result ≡ slice_index_or (places_of names.now.entries) name None }
{
    names[name]
}

/// Writes the place of the innermost declaration of the name with a number.
pub(crate) fn set_place(names: &mut Names, name: usize, place: Option<usize>)
    requires { name < length names.old.entries }
    ensures texts { texts_of names.new.entries ≡ texts_of names.old.entries }
    ensures places { places_of names.new.entries ≡ set (places_of names.old.entries) name place }
{
    names[name] = place;
}
