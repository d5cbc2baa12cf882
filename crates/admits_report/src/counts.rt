//! How many rows admit.
ghost use Rattle.std.specs.Prelude.{◌≡◌, ◌+◌, ◌^◌, ◌≤◌, [], ◌∷◌, length, count_by, map};
ghost use Rattle.std.specs.List.{flat_map};
ghost use Rattle.std.specs.Option.{is_none};
ghost use Rattle.admits_report.specs.Shown.{ids_of, ids_of_line};

use crate::answers::{CheckInAnswer, FunctionAnswers};
use con_freeness::Effect;

/// How many answers there are, and how many of them admit. Each of up to 2^64 functions may have 2^64, so that the sums have room.
#[derive(Clone, Copy)]
pub(crate) struct Counts {
    pub admitted: u128,
    pub all: u128,
}

/// Those of some functions.
pub(crate) fn counts_of(functions: &[FunctionAnswers]) -> Counts
    ensures admitted { result.admitted ≡ count_by is_none (flat_map ids_of functions.now) }
    ensures all { result.all ≡ length (flat_map ids_of functions.now) }
{
    let mut counts = Counts {
        admitted: 0,
        all: 0,
    };
    for function in functions {
        add_function(&mut counts, function);
    }
    counts
}

/// Adds those of a function.
fn add_function(counts: &mut Counts, function: &FunctionAnswers)
    requires admitted { counts.old.admitted + 2 ^ 64 ≤ 2 ^ 128 }
    requires all { counts.old.all + 2 ^ 64 ≤ 2 ^ 128 }
    ensures admitted { counts.new.admitted ≡ counts.old.admitted + count_by is_none (ids_of function.now) }
    ensures all { counts.new.all ≡ counts.old.all + length (ids_of function.now) }
    ensures fewer { counts.new.admitted ≤ counts.old.admitted + 2 ^ 64 }
    ensures few { counts.new.all ≤ counts.old.all + 2 ^ 64 }
{
    let lines = function.lines.as_slice();
    let admitted = admitted_by(function.start) + admitted_among(lines);
    let all = lines.len() + 1;
    counts.admitted += admitted as u128;
    counts.all += all as u128;
}

/// How many of some check-ins admit.
fn admitted_among(lines: &[CheckInAnswer]) -> usize
    ensures many { result ≡ count_by is_none (map ids_of_line lines.now) }
    ensures few { result ≤ length lines.now }
{
    let mut admitted = 0;
    for line in lines {
        admitted += admitted_by(line.answer);
    }
    admitted
}

/// How many of one answer admit.
fn admitted_by(answer: Option<Effect>) -> usize
    ensures many { result ≡ count_by is_none (answer ∷ []) }
    ensures few { result ≤ 1 }
{
    match answer {
        None => 1,
        Some(_) => 0,
    }
}
