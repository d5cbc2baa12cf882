//! The verifier.
ghost use Rattle.std.specs.Prelude.{◌≡◌, ℕ, suc, ◌<◌, ◌≤◌, length, vec_len, slice_get, map, Option, option_map, MatchBool, IfOk, IfErr, MatchOption};
ghost use Rattle.code_kinds.specs.WellFormed.{entry, most_variables};
ghost use Rattle.code_verify.specs.Meeting.{met as met_of};
ghost use Rattle.code_verify.specs.Passing.{Brought, Followed, Broken};
ghost use Rattle.code_verify.specs.Seen.{shape_of, shapes_of, keeps_of, function_code};
ghost use Rattle.code_verify.specs.Verified.{AreShapes, Begun, IsVerified, Explains};

use crate::after::after;
use crate::carry::{bring, carry_all, shape_at};
use crate::keeps::{instruction_at, keeps};
use crate::shape::{Due, Shape};
use crate::source::{Body, Source, Verified, VerifyFault};
use crate::ways::ways_from;
use crate::words::copy_words;
use skeletons::CheckInKind;
use std::alloc::{AllocError, Global};

/// So many words at most are on a frame's stack.
const DEEPEST: usize = 66;

/// So many variables at most has a function.
const MOST_VARIABLES: u32 = 64;

/// So many places of which nothing is known.
fn nothing(alloc: Global, places: usize) -> Result<Vec<Option<Shape>>, AllocError>
    ensures length { IfOk result (λ known. vec_len known ≡ places) }
    ensures nothing { IfOk result (λ known. (q : ℕ) → shapes_of known.items q ≡ Option.None) }
{
    let mut known = Vec::new(alloc);
    while known.len() < places {
        known.push(None)?;
    }
    Ok(known)
}

/// The shape with which a function begins.
fn entered(alloc: Global, body: &Body) -> Result<Shape, AllocError>
    ensures { IfOk result (λ s. shape_of s ≡ entry body.now.parameters.items) }
{
    Ok(Shape {
        stack: Vec::new(alloc),
        variables: copy_words(alloc, body.parameters.as_slice())?,
        transactions: 0,
        due: Some(Due {
            kind: CheckInKind::Entry,
            number: 0,
        }),
    })
}

/// What is known where a function begins; none where it can't begin.
fn begun(
    alloc: Global,
    body: &Body,
    keeps: &[Option<u32>],
) -> Result<Option<Vec<Option<Shape>>>, AllocError>
    ensures { IfOk result (λ known. MatchOption known
        (length body.now.parameters.items ≤ body.now.room → body.now.room ≤ most_variables → 0 < vec_len body.now.code
        → met_of (keeps_of keeps.now 0) Option.None (entry body.now.parameters.items) ≡ Option.None)
        (λ k. Begun (keeps_of keeps.now) body.now k.items)) }
{
    if body.parameters.len() > body.room as usize || body.room > MOST_VARIABLES {
        return Ok(None);
    }
    let mut known = nothing(alloc, body.code.len())?;
    let entry = entered(alloc, body)?;
    if bring(&mut known, keeps, entry, 0) {
        Ok(Some(known))
    } else {
        Ok(None)
    }
}

/// Follows the instruction at a place.
fn step(
    alloc: Global,
    source: &Source,
    body: &Body,
    keeps: &[Option<u32>],
    known: &mut Vec<Option<Shape>>,
    place: usize,
) -> Result<bool, AllocError>
    requires inside { place < vec_len body.now.code }
    requires places { vec_len known.old ≡ vec_len body.now.code }
    ensures length { IfOk result (λ fine. vec_len known.new ≡ vec_len known.old) }
    ensures follows { IfOk result (λ fine. MatchBool fine
        (Followed (function_code source.now body.now) (keeps_of keeps.now) place (shapes_of known.old.items) (shapes_of known.new.items))
        (Broken (function_code source.now body.now) (keeps_of keeps.now) place (shapes_of known.old.items))) }
{
    let Some(shape) = shape_at(known.as_slice(), place) else {
        return Ok(true);
    };
    let copy = shape.copy(alloc)?;
    let instr = instruction_at(body.code.as_slice(), place);
    let Some(left) = after(source, body.result, body.room, instr, copy)? else {
        return Ok(false);
    };
    if left.stack.len() > DEEPEST {
        return Ok(false);
    }
    carry_all(alloc, known, keeps, place, &left, ways_from(instr))
}

/// The shapes of all places.
fn shapes(alloc: Global, source: &Source, body: &Body) -> Result<Vec<Option<Shape>>, VerifyFault>
    ensures length { IfOk result (λ known. vec_len known ≡ vec_len body.now.code) }
    ensures shapes { IfOk result (λ known. AreShapes (function_code source.now body.now) (shapes_of known.items)) }
    ensures fault { IfErr result (λ fault. Explains (function_code source.now body.now) fault) }
{
    let keeps = keeps(alloc, body.code.as_slice())?;
    let Some(known) = begun(alloc, body, keeps.as_slice())? else {
        return Err(VerifyFault::Bad(0));
    };
    let mut known = known;
    for place in 0..body.code.len() {
        let fine = step(alloc, source, body, keeps.as_slice(), &mut known, place)?;
        if !fine {
            return Err(VerifyFault::Bad(place));
        }
    }
    Ok(known)
}

/// How many words are on the stack at a place. Lack of memory is reported where they are 256 or more.
fn height(known: &Option<Shape>) -> Result<Option<u8>, AllocError>
    ensures { IfOk result (λ height. height ≡ option_map (λ s. length s.stack.items) known.now) }
{
    match known {
        Some(shape) => match u8::try_from(shape.stack.len()) {
            Ok(height) => Ok(Some(height)),
            Err(_) => Err(AllocError),
        },
        None => Ok(None),
    }
}

/// How many words are on the stack at each place.
fn heights(alloc: Global, known: &[Option<Shape>]) -> Result<Vec<Option<u8>>, AllocError>
    ensures { IfOk result (λ heights. heights.items ≡ map (λ o. option_map (λ s. length s.stack.items) o) known.now) }
{
    let mut heights = Vec::new(alloc);
    for shape in known {
        heights.push(height(shape)?)?;
    }
    Ok(heights)
}

/// Finds out whether a body is well formed. `Bad` comes exactly where it isn't, with the place of the first instruction that
/// breaks it, 0 where there is none; `Memory` where memory runs out.
pub fn verify(alloc: Global, source: &Source, body: Body) -> Result<Verified, VerifyFault>
    ensures well_formed { IfOk result (λ v. IsVerified (function_code source.now body) v.heights.items) }
    ensures same { IfOk result (λ v. v.body ≡ body) }
    ensures fault { IfErr result (λ fault. Explains (function_code source.now body) fault) }
{
    let known = shapes(alloc, source, &body)?;
    let heights = heights(alloc, known.as_slice())?;
    Ok(Verified { body, heights })
}
