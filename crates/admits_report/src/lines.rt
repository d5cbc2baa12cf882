//! The lines of functions.
ghost use Rattle.std.specs.Prelude.{◌≡◌, ◌++◌, OnOk, codes, map};
ghost use Rattle.std.specs.Fmt.{decimal};
ghost use Rattle.std.specs.List.{flat_map};
ghost use Rattle.name_sets.specs.Texts.{text_of};
ghost use Rattle.skeletons.specs.Meaning.{check_in_of};
ghost use Rattle.check_in_places.specs.CheckIns.{head_text};
ghost use Rattle.admits_report.specs.AdmitsText.{answer_words, block_text, count_text, line_text, start_text, title_text};
ghost use Rattle.admits_report.specs.Shown.{answer_shown, block_of, line_of};

use crate::answers::{CheckInAnswer, FunctionAnswers};
use crate::counts::Counts;
use crate::words::{add, add_answer, bytes_of};
use check_in_places::{Lines, Spot, kind_word};
use con_freeness::Effect;
use itoa::Buffer;
use name_sets::{NameId, Names};
use std::alloc::AllocError;

/// Adds what the line of a check-in begins with.
fn add_head(text: &mut Vec<u8>, lines: &Lines<'_>, spot: Spot) -> Result<(), AllocError>
    ensures { OnOk result (text.new.items
        ≡ text.old.items ++ head_text lines.now.text.now spot.at (check_in_of spot.kind)) }
{
    let place = lines.place(spot.at);
    let mut line_digits = Buffer::new();
    let mut column_digits = Buffer::new();
    let line = line_digits.format(place.0).as_bytes();
    let column = column_digits.format(place.1).as_bytes();
    add(
        text,
        &[b"  ", line, b":", column, b" ", kind_word(spot.kind)],
    )
}

/// Adds a blank, an answer and the end of the line.
fn add_end_of_line(
    text: &mut Vec<u8>,
    names: &Names,
    answer: Option<Effect>,
) -> Result<(), AllocError>
    ensures { OnOk result (text.new.items
        ≡ text.old.items ++ (codes " " ++ answer_words (answer_shown names.now answer) ++ codes "\n")) }
{
    add(text, &[b" "])?;
    add_answer(text, names, answer)?;
    add(text, &[b"\n"])
}

/// Adds the line of a check-in.
fn add_line(
    text: &mut Vec<u8>,
    lines: &Lines<'_>,
    names: &Names,
    line: CheckInAnswer,
) -> Result<(), AllocError>
    ensures { OnOk result (text.new.items
        ≡ text.old.items ++ line_text lines.now.text.now (line_of names.now line)) }
{
    add_head(text, lines, line.spot)?;
    add_end_of_line(text, names, line.answer)
}

/// Adds the lines of check-ins.
fn add_lines(
    text: &mut Vec<u8>,
    lines: &Lines<'_>,
    names: &Names,
    check_ins: &[CheckInAnswer],
) -> Result<(), AllocError>
    ensures { OnOk result (text.new.items ≡ text.old.items
        ++ flat_map (line_text lines.now.text.now) (map (line_of names.now) check_ins.now)) }
{
    for line in check_ins {
        add_line(text, lines, names, *line)?;
    }
    Ok(())
}

/// Adds the first line of a function.
fn add_title(text: &mut Vec<u8>, names: &Names, function: NameId) -> Result<(), AllocError>
    ensures { OnOk result (text.new.items ≡ text.old.items ++ title_text (text_of names.now function)) }
{
    add(text, &[b"function ", bytes_of(names, function), b":\n"])
}

/// Adds the line of a function's start.
fn add_start(text: &mut Vec<u8>, names: &Names, answer: Option<Effect>) -> Result<(), AllocError>
    ensures { OnOk result (text.new.items ≡ text.old.items ++ start_text (answer_shown names.now answer)) }
{
    add(text, &[b"  start"])?;
    add_end_of_line(text, names, answer)
}

/// Adds the lines of a function.
fn add_function(
    text: &mut Vec<u8>,
    lines: &Lines<'_>,
    names: &Names,
    function: &FunctionAnswers,
) -> Result<(), AllocError>
    ensures { OnOk result (text.new.items
        ≡ text.old.items ++ block_text lines.now.text.now (block_of names.now function.now)) }
{
    add_title(text, names, function.function)?;
    add_start(text, names, function.start)?;
    add_lines(text, lines, names, function.lines.as_slice())
}

/// Adds the lines of functions.
pub(crate) fn add_functions(
    text: &mut Vec<u8>,
    lines: &Lines<'_>,
    names: &Names,
    functions: &[FunctionAnswers],
) -> Result<(), AllocError>
    ensures { OnOk result (text.new.items ≡ text.old.items
        ++ flat_map (block_text lines.now.text.now) (map (block_of names.now) functions.now)) }
{
    for function in functions {
        add_function(text, lines, names, function)?;
    }
    Ok(())
}

/// Adds the last line.
pub(crate) fn add_counts(text: &mut Vec<u8>, counts: Counts) -> Result<(), AllocError>
    ensures { OnOk result (text.new.items ≡ text.old.items ++ count_text counts.admitted counts.all) }
{
    let mut admitted_digits = Buffer::new();
    let mut all_digits = Buffer::new();
    let admitted = admitted_digits.format(counts.admitted).as_bytes();
    let all = all_digits.format(counts.all).as_bytes();
    add(text, &[b"admitted at ", admitted, b" of ", all, b"\n"])
}
