//! The lines of names, of fields and of globals.
ghost use Rattle.std.specs.Prelude.{◌≡◌, ◌++◌, OnOk, map, codes};
ghost use Rattle.std.specs.List.{flat_map};
ghost use Rattle.dsu_io.specs.Sinks.{joined};
ghost use Rattle.c_tree.specs.Bare.{bare_binding};
ghost use Rattle.type_transformers.specs.Hows.{how_of, how_of_global};
ghost use Rattle.changes_report.specs.ChangesText.{how_word, name_line, field_line, global_line};
ghost use Rattle.changes_report.specs.Shown.{fields_text};

use c_tree::Binding;
use dsu_io::Text;
use std::alloc::AllocError;
use type_transformers::GlobalChange;
use versioned_structs::FieldChange;

/// Adds pieces to a text, one after the other.
pub(crate) fn add(text: &mut Vec<u8>, pieces: &[&[u8]]) -> Result<(), AllocError>
    ensures { OnOk result (text.new.items ≡ text.old.items ++ joined pieces.now) }
{
    for piece in pieces {
        text.extend_from_slice(piece)?;
    }
    Ok(())
}

/// Adds the line of a name.
fn add_name(text: &mut Vec<u8>, word: &[u8], name: &Text) -> Result<(), AllocError>
    ensures { OnOk result (text.new.items ≡ text.old.items ++ name_line word.now name.now) }
{
    add(text, &[word, b" ", name.as_str().as_bytes(), b"\n"])
}

/// Adds a line for each of some names.
pub(crate) fn add_names(text: &mut Vec<u8>, word: &[u8], names: &[Text]) -> Result<(), AllocError>
    ensures { OnOk result (text.new.items ≡ text.old.items ++ flat_map (name_line word.now) names.now) }
{
    for name in names {
        add_name(text, word, name)?;
    }
    Ok(())
}

/// How a field gets its value.
fn word_of_field(change: &FieldChange) -> &'static [u8]
    ensures { result.now ≡ how_word (how_of change.now) }
{
    match change {
        FieldChange::Copied(_) => b"copied",
        FieldChange::Zero(_) => b"zero",
        FieldChange::Given(_, _) => b"given",
    }
}

/// How a global gets its value.
fn word_of_global(change: &GlobalChange) -> &'static [u8]
    ensures { result.now ≡ how_word (how_of_global change.now) }
{
    match change {
        GlobalChange::Copied(_, _) => b"copied",
        GlobalChange::Zero(_, _) => b"zero",
        GlobalChange::Given(_, _) => b"given",
    }
}

/// Adds the line of a field of a struct, which has that full name.
fn add_field(
    text: &mut Vec<u8>,
    name: &str,
    field: &Binding,
    change: &FieldChange,
) -> Result<(), AllocError>
    ensures { OnOk result (text.new.items
        ≡ text.old.items ++ field_line name.now field.now.name.text (how_of change.now)) }
{
    add_start(text, name)?;
    add(text, &[field.name.text.as_str().as_bytes(), b" "])?;
    add_end(text, word_of_field(change))
}

/// Adds what a line of a struct or a global begins with.
fn add_start(text: &mut Vec<u8>, name: &str) -> Result<(), AllocError>
    ensures { OnOk result (text.new.items ≡ text.old.items ++ codes "transform " ++ name.now ++ codes " ") }
{
    add(text, &[b"transform ", name.as_bytes(), b" "])
}

/// Adds how a value comes, and the end of the line.
fn add_end(text: &mut Vec<u8>, word: &[u8]) -> Result<(), AllocError>
    ensures { OnOk result (text.new.items ≡ text.old.items ++ word.now ++ codes "\n") }
{
    add(text, &[word, b"\n"])
}

/// Adds the lines of the fields of a struct, which has that full name.
pub(crate) fn add_fields(
    text: &mut Vec<u8>,
    name: &str,
    fields: &[Binding],
    changes: &[FieldChange],
) -> Result<(), AllocError>
    ensures { OnOk result (text.new.items ≡ text.old.items
        ++ fields_text name.now (map bare_binding fields.now) (map how_of changes.now)) }
{
    for index in 0..fields.len().min(changes.len()) {
        add_field(text, name, &fields[index], &changes[index])?;
    }
    Ok(())
}

/// Adds the line of a global.
pub(crate) fn add_global(
    text: &mut Vec<u8>,
    name: &str,
    change: &GlobalChange,
) -> Result<(), AllocError>
    ensures { OnOk result (text.new.items ≡ text.old.items ++ global_line name.now (how_of_global change.now)) }
{
    add_start(text, name)?;
    add_end(text, word_of_global(change))
}
