ghost use Rattle.std.specs.Prelude.{◌≡◌, Some, [], ◌∷◌, ◌++◌, map, option_map, IfOk, OnOk, string_bytes};
ghost use Rattle.c_tree.specs.Bare.{bare_def, bare_kind};
ghost use Rattle.c_semantics.specs.Texts.{defined, names};
ghost use Rattle.name_sets.specs.NameLists.{name_set};

use c_tree::{Def, DefKind};
use name_resolution::name_of_struct;
use std::alloc::{AllocError, Global};

/// The names that some definitions define, in the order of their bytes, each once. A struct's name is `struct` and its tag
/// after a blank. It fails only when out of memory.
pub fn names_in_order(alloc: Global, definitions: &[Def]) -> Result<Vec<String>, AllocError>
    ensures { IfOk result (λ texts. map string_bytes texts.items ≡ name_set (names (map bare_def definitions.now))) }
{
    let mut texts = names_in_text(alloc, definitions)?;
    texts.sort()?;
    texts.dedup();
    Ok(texts)
}

/// The names in the order of the text.
fn names_in_text(alloc: Global, definitions: &[Def]) -> Result<Vec<String>, AllocError>
    ensures { IfOk result (λ texts. map string_bytes texts.items ≡ names (map bare_def definitions.now)) }
{
    let mut texts = Vec::new(alloc);
    for definition in definitions {
        add_name(alloc, &definition.kind, &mut texts)?;
    }
    Ok(texts)
}

/// Adds the name that a definition defines, if it defines one.
fn add_name(alloc: Global, kind: &DefKind, texts: &mut Vec<String>) -> Result<(), AllocError>
    ensures { OnOk result (map string_bytes texts.new.items
        ≡ map string_bytes texts.old.items ++ names (bare_kind kind.now ∷ [])) }
{
    if let Some(name) = defined(alloc, kind)? {
        texts.push(name)?;
    }
    Ok(())
}

/// The name that a definition defines, if it defines one.
fn defined(alloc: Global, kind: &DefKind) -> Result<Option<String>, AllocError>
    ensures { IfOk result (λ name. option_map string_bytes name ≡ defined (bare_kind kind.now)) }
{
    match kind {
        DefKind::Struct(tag, _) => Ok(Some(name_of_struct(alloc, tag.text.as_str())?)),
        DefKind::Mutex(name) => copied(alloc, name.text.as_str()),
        DefKind::Function(function) => copied(alloc, function.name.text.as_str()),
        DefKind::Global(declaration) => copied(alloc, declaration.name.text.as_str()),
        DefKind::Array(array) => copied(alloc, array.name.text.as_str()),
        DefKind::Forward(_)
        | DefKind::Prototype(_)
        | DefKind::TransformStruct(_)
        | DefKind::TransformGlobal(_, _) => Ok(None),
    }
}

/// A copy of a name.
fn copied(alloc: Global, name: &str) -> Result<Option<String>, AllocError>
    ensures { IfOk result (λ copy. option_map string_bytes copy ≡ Some name.now) }
{
    let name = String::from_str(alloc, name)?;
    Ok(Some(name))
}
