//! How many bytes a text's stops print at most.
ghost use Rattle.std.specs.Prelude.{◌≡◌, ◌≤◌, IfOk, Some, slice_get, ℕ};
ghost use Rattle.resolved_tree.specs.Trees.{table};
ghost use Rattle.word_data.specs.Lengths.{most_printed};
ghost use Rattle.code_image.specs.declared.act.StopPlace.{StopPlace as Place};
ghost use Rattle.code_image.specs.declared.function.CodeFunction.{CodeFunction as Function};
ghost use Rattle.code_image.specs.StopHeights.{StopsPrint, act_prints};

use code_image::{Act, CodeFunction, StopPlace};
use resolved_tree::Trees;
use std::alloc::AllocError;
use word_data::SharedStop;

/// The most bytes that one stop of some functions prints; an error where they are more than a print may write.
pub(crate) fn longest_print(trees: &Trees, functions: &[CodeFunction]) -> Result<usize, AllocError>
    ensures short { IfOk result (λ most. most ≤ most_printed) }
    ensures prints { IfOk result (λ most. (n : ℕ) (f : Function) → slice_get functions.now n ≡ Some f
        → StopsPrint (table trees.now) most f.stops.items) }
{
    let mut most = 0usize;
    for function in functions {
        most = longest_with(trees, function.stops.as_slice(), most)?;
    }
    Ok(most)
}

/// The greater of a number and of the bytes that one of some stops prints at most.
fn longest_with(
    trees: &Trees,
    stops: &[Option<StopPlace>],
    least: usize,
) -> Result<usize, AllocError>
    requires { least ≤ most_printed }
    ensures short { IfOk result (λ most. most ≤ most_printed) }
    ensures longer { IfOk result (λ most. least ≤ most) }
    ensures prints { IfOk result (λ most. StopsPrint (table trees.now) most stops.now) }
{
    let mut most = least;
    for stop in stops {
        let length = longest_at(trees, *stop)?;
        if length > most {
            most = length;
        }
    }
    Ok(most)
}

/// The most bytes that are printed at a place.
fn longest_at(trees: &Trees, stop: Option<StopPlace>) -> Result<usize, AllocError>
    ensures short { IfOk result (λ length. length ≤ most_printed) }
    ensures prints { IfOk result (λ length. (x : Place) → stop ≡ Some x → act_prints (table trees.now) x.act ≤ length) }
{
    match stop {
        Some(place) => longest_of(trees, place.act),
        None => Ok(0),
    }
}

/// The most bytes that an act prints.
fn longest_of(trees: &Trees, act: Act) -> Result<usize, AllocError>
    ensures short { IfOk result (λ length. length ≤ most_printed) }
    ensures prints { IfOk result (λ length. length ≡ act_prints (table trees.now) act) }
{
    match act {
        Act::Shared(SharedStop::Print(format, _)) => {
            word_data::longest_print(trees.text(format)).ok_or(AllocError)
        }
        _ => Ok(0),
    }
}
