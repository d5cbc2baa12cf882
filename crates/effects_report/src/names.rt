//! Sets of names.
ghost use Rattle.std.specs.Prelude.{◌≡◌, ◌++◌, ◌<◌, ◌==◌, length};
ghost use Rattle.std.specs.Int.{bit_at};
ghost use Rattle.dsu_io.specs.Causes.{HasCause};
ghost use Rattle.dsu_io.specs.Sinks.{PutAppends};
ghost use Rattle.name_sets.specs.Texts.{text_of};
ghost use Rattle.effects_report.specs.EffectsText.{names_text};
ghost use Rattle.effects_report.specs.Shown.{name_if, names_in};

use dsu_io::{Failed, Sink, put, put_all};
use name_sets::{NameId, NameSet, Names};

/// Writes a word and the names of a set, each after a blank.
pub(crate) fn put_set<S: Sink>(
    word: &[u8],
    names: &Names,
    set: &NameSet,
    sink: &mut S,
) -> Result<(), Failed>
    ensures bytes { PutAppends (S.told sink.old) (S.told sink.new) result
        (word.now ++ names_text (names_in names.now set.now)) }
    ensures cause { HasCause (S.faults sink.old) (S.faults sink.new) result }
{
    put(sink, word)?;
    put_names(names, set, sink)
}

/// Writes the names of a set, each after a blank, in the order of the table.
fn put_names<S: Sink>(names: &Names, set: &NameSet, sink: &mut S) -> Result<(), Failed>
    ensures bytes { PutAppends (S.told sink.old) (S.told sink.new) result
        (names_text (names_in names.now set.now)) }
    ensures cause { HasCause (S.faults sink.old) (S.faults sink.new) result }
{
    for index in 0..names.len() {
        match put_name_if(names, set, index, sink) {
            Ok(()) => {}
            Err(failed) => return Err(failed),
        }
    }
    Ok(())
}

/// Writes a blank and the name with a number, if the set has it.
fn put_name_if<S: Sink>(
    names: &Names,
    set: &NameSet,
    index: usize,
    sink: &mut S,
) -> Result<(), Failed>
    requires { index < length names.now }
    ensures bytes { PutAppends (S.told sink.old) (S.told sink.new) result
        (names_text (name_if names.now set.now index)) }
    ensures cause { HasCause (S.faults sink.old) (S.faults sink.new) result }
{
    if is_in(names, set, index) {
        put_all(sink, &[b" ", text_at(names, index).as_bytes()])
    } else {
        Ok(())
    }
}

/// The text with a number.
pub(crate) fn text_at(names: &Names, index: usize) -> &str
    requires { index < length names.now }
    ensures { result.now ≡ text_of names.now index }
{
    names.text(id_at(names, index))
}

/// Whether a set has the name with a number.
fn is_in(names: &Names, set: &NameSet, index: usize) -> bool
    requires { index < length names.now }
    ensures { result ≡ (bit_at set.now index == 1) }
{
    set.holds(id_at(names, index))
}

/// The id with a number.
pub(crate) fn id_at(names: &Names, index: usize) -> NameId
    requires { index < length names.now }
    ensures { result ≡ index }
{
    let _many = names.len();
    NameId::new(index).unwrap()
}
