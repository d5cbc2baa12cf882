//! What the rows of functions and check-ins answer.
ghost use Rattle.std.specs.Prelude.{◌≡◌, IfOk, map};
ghost use Rattle.std.specs.List.{AllZip};
ghost use Rattle.admits_report.specs.Answered.{AreAnswersOf, AreLinesFor, spot_of};

use crate::admission::Admission;
use crate::tested::{check_in_answer, start_answer};
use check_in_places::{Section, Spot};
use con_freeness::Effect;
use name_sets::NameId;
use std::alloc::{AllocError, Global};

/// A check-in, and what its row answers.
#[derive(Clone, Copy)]
pub(crate) struct CheckInAnswer {
    pub spot: Spot,
    pub answer: Option<Effect>,
}

/// A function, and what the rows of its start and of its check-ins answer.
#[derive(Drop)]
pub(crate) struct FunctionAnswers {
    pub function: NameId,
    pub start: Option<Effect>,
    /// In the order of the places of the check-ins.
    pub lines: Vec<CheckInAnswer>,
}

/// What the rows of some functions answer.
pub(crate) fn answers(
    alloc: Global,
    admission: &Admission<'_>,
    sections: &[Section],
) -> Result<Vec<FunctionAnswers>, AllocError>
    ensures { IfOk result (λ answers. AllZip (AreAnswersOf admission.now) sections.now answers.items) }
{
    let mut answers = Vec::new(alloc);
    for section in sections {
        let function = answers_of(alloc, admission, section)?;
        answers.push(function)?;
    }
    Ok(answers)
}

/// What the rows of a function answer.
fn answers_of(
    alloc: Global,
    admission: &Admission<'_>,
    section: &Section,
) -> Result<FunctionAnswers, AllocError>
    ensures { IfOk result (AreAnswersOf admission.now section.now) }
{
    let lines = lines_of(alloc, admission, section.function, section.spots.as_slice())?;
    Ok(FunctionAnswers {
        function: section.function,
        start: start_answer(admission, section.function),
        lines,
    })
}

/// What the rows of a function's check-ins answer.
fn lines_of(
    alloc: Global,
    admission: &Admission<'_>,
    function: NameId,
    spots: &[Spot],
) -> Result<Vec<CheckInAnswer>, AllocError>
    ensures spots { IfOk result (λ lines. map spot_of lines.items ≡ spots.now) }
    ensures answers { IfOk result (λ lines. AreLinesFor admission.now function lines.items) }
{
    let mut lines = Vec::new(alloc);
    for spot in spots {
        let answer = check_in_answer(admission, function, *spot);
        lines.push(CheckInAnswer {
            spot: *spot,
            answer,
        })?;
    }
    Ok(lines)
}
