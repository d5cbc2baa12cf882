//! The lines of the text.
ghost use Rattle.std.specs.Prelude.{◌≡◌, ◌<◌, length, map, All, slice_index};
ghost use Rattle.std.specs.List.{flat_map};
ghost use Rattle.dsu_io.specs.Causes.{HasCause};
ghost use Rattle.dsu_io.specs.Sinks.{PutAppends};
ghost use Rattle.name_sets.specs.Texts.{text_of};
ghost use Rattle.skeletons.specs.Meaning.{check_in_of};
ghost use Rattle.check_in_places.specs.CheckIns.{head_text};
ghost use Rattle.effects_report.specs.EffectsText.{row_text, line_text, title_text, block_text, blocks_text};
ghost use Rattle.effects_report.specs.Shown.{IsReady, names_in, row_at, line_of, block_of};

use crate::names::{put_set, text_at};
use crate::sets::{concrete_at, future_at, prior_at, standard_at};
use check_in_places::{Lines, Section, Spot, kind_word};
use contextual_effects::Effects;
use dsu_io::{Failed, Sink, put, put_all};
use itoa::Buffer;
use name_sets::{NameId, Names};

/// Writes the line, the column and the kind of a check-in.
fn put_head<S: Sink>(lines: &Lines, spot: Spot, sink: &mut S) -> Result<(), Failed>
    ensures bytes { PutAppends (S.told sink.old) (S.told sink.new) result
        (head_text lines.now.text.now spot.at (check_in_of spot.kind)) }
    ensures cause { HasCause (S.faults sink.old) (S.faults sink.new) result }
{
    let place = lines.place(spot.at);
    let mut line_digits = Buffer::new();
    let mut column_digits = Buffer::new();
    let line = line_digits.format(place.0).as_bytes();
    let column = column_digits.format(place.1).as_bytes();
    put_all(
        sink,
        &[b"  ", line, b":", column, b" ", kind_word(spot.kind)],
    )
}

/// Writes the three sets at a place of the flow.
fn put_row<S: Sink>(names: &Names, effects: &Effects, at: usize, sink: &mut S) -> Result<(), Failed>
    ensures bytes { PutAppends (S.told sink.old) (S.told sink.new) result
        (row_text (row_at names.now effects.now at)) }
    ensures cause { HasCause (S.faults sink.old) (S.faults sink.new) result }
{
    put_set(b" prior:", names, &prior_at(effects, at), sink)?;
    put_set(b" future:", names, &future_at(effects, at), sink)?;
    put_set(b" concrete:", names, &concrete_at(effects, at), sink)?;
    put(sink, b"\n")
}

/// Writes the line of a check-in.
fn put_line<S: Sink>(
    lines: &Lines,
    names: &Names,
    effects: &Effects,
    spot: Spot,
    sink: &mut S,
) -> Result<(), Failed>
    ensures bytes { PutAppends (S.told sink.old) (S.told sink.new) result
        (line_text lines.now.text.now (line_of names.now effects.now spot)) }
    ensures cause { HasCause (S.faults sink.old) (S.faults sink.new) result }
{
    put_head(lines, spot, sink)?;
    put_row(names, effects, spot.point, sink)
}

/// Writes the lines of check-ins.
fn put_lines<S: Sink>(
    lines: &Lines,
    names: &Names,
    effects: &Effects,
    spots: &[Spot],
    sink: &mut S,
) -> Result<(), Failed>
    ensures bytes { PutAppends (S.told sink.old) (S.told sink.new) result
        (flat_map (line_text lines.now.text.now) (map (line_of names.now effects.now) spots.now)) }
    ensures cause { HasCause (S.faults sink.old) (S.faults sink.new) result }
{
    for spot in spots {
        match put_line(lines, names, effects, *spot, sink) {
            Ok(()) => {}
            Err(failed) => return Err(failed),
        }
    }
    Ok(())
}

/// Writes the first line of a function.
fn put_title<S: Sink>(
    names: &Names,
    effects: &Effects,
    function: NameId,
    sink: &mut S,
) -> Result<(), Failed>
    requires { function < length names.now }
    ensures bytes { PutAppends (S.told sink.old) (S.told sink.new) result
        (title_text (text_of names.now function) (names_in names.now (slice_index effects.now.standard function))) }
    ensures cause { HasCause (S.faults sink.old) (S.faults sink.new) result }
{
    put(sink, b"function ")?;
    put_text(names, function, sink)?;
    put_set(b":", names, &standard_at(effects, function), sink)?;
    put(sink, b"\n")
}

/// Writes a name.
fn put_text<S: Sink>(names: &Names, name: NameId, sink: &mut S) -> Result<(), Failed>
    requires { name < length names.now }
    ensures bytes { PutAppends (S.told sink.old) (S.told sink.new) result (text_of names.now name) }
    ensures cause { HasCause (S.faults sink.old) (S.faults sink.new) result }
{
    put(sink, text_at(names, name.index()).as_bytes())
}

/// Writes the lines of a function.
fn put_section<S: Sink>(
    lines: &Lines,
    names: &Names,
    effects: &Effects,
    section: &Section,
    sink: &mut S,
) -> Result<(), Failed>
    requires { IsReady names.now section.now }
    ensures bytes { PutAppends (S.told sink.old) (S.told sink.new) result
        (block_text lines.now.text.now (block_of names.now effects.now section.now)) }
    ensures cause { HasCause (S.faults sink.old) (S.faults sink.new) result }
{
    put_title(names, effects, section.function, sink)?;
    put_lines(lines, names, effects, section.spots.as_slice(), sink)
}

/// Writes the lines of functions.
pub(crate) fn put_sections<S: Sink>(
    lines: &Lines,
    names: &Names,
    effects: &Effects,
    sections: &[Section],
    sink: &mut S,
) -> Result<(), Failed>
    requires { All (IsReady names.now) sections.now }
    ensures bytes { PutAppends (S.told sink.old) (S.told sink.new) result
        (blocks_text lines.now.text.now (map (block_of names.now effects.now) sections.now)) }
    ensures cause { HasCause (S.faults sink.old) (S.faults sink.new) result }
{
    for section in sections {
        match put_section(lines, names, effects, section, sink) {
            Ok(()) => {}
            Err(failed) => return Err(failed),
        }
    }
    Ok(())
}
