//! What private instructions make of a shape.
ghost use Rattle.std.specs.Prelude.{◌≡◌, ◌∷◌, [], slice_get, Option, option_map, if◌then◌else◌, MatchOption, IfOk};
ghost use Rattle.code_kinds.specs.WordKinds.{same_kind as is_same_kind};
ghost use Rattle.code_kinds.specs.Shapes.{on_stack, constant_kind as constant_kind_of, keeps_kind as keeps_kind_of, stored as stored_of, one, two, integer};
ghost use Rattle.code_verify.specs.Seen.{shape_of, IsShort};

use crate::shape::Shape;
use crate::words::same_kind;
use bytecode::ValueKind;
use code_kinds::WordKind;
use std::alloc::AllocError;

/// A shape with another word on its stack.
fn put(shape: Shape, kind: WordKind) -> Result<Shape, AllocError>
    ensures { IfOk result (λ more. shape_of more ≡ on_stack (shape_of shape) (kind ∷ (shape_of shape).stack)) }
{
    let mut shape = shape;
    shape.stack.push(kind)?;
    Ok(shape)
}

/// The newest word, which leaves the stack.
fn newest(shape: &mut Shape) -> Option<WordKind>
    ensures { MatchOption result ((shape_of shape.old).stack ≡ [])
        (λ k. shape_of shape.old ≡ on_stack (shape_of shape.new) (k ∷ (shape_of shape.new).stack)) }
{
    shape.stack.pop()
}

/// What a constant is; none where a handle isn't null, or a thread isn't none.
pub(crate) fn constant_kind(kind: ValueKind, word: u64) -> Option<WordKind>
    ensures { result ≡ constant_kind_of kind word }
{
    match kind {
        ValueKind::Number(_) => Some(WordKind::Integer),
        ValueKind::Handle if word == 0 => Some(WordKind::Handle),
        ValueKind::Thread if word == 0 => Some(WordKind::Thread),
        ValueKind::Handle | ValueKind::Thread => None,
    }
}

/// What the variable with a number is.
fn kind_at(variables: &[WordKind], number: usize) -> Option<WordKind>
    ensures { result ≡ slice_get variables.now number }
{
    variables.get(number).copied()
}

/// What a variable is.
pub(crate) fn variable(shape: &Shape, number: u32) -> Option<WordKind>
    ensures { result ≡ slice_get (shape_of shape.now).variables number }
{
    kind_at(shape.variables.as_slice(), number as usize)
}

/// A word on the stack, if there is one.
pub(crate) fn loaded(shape: Shape, kind: Option<WordKind>) -> Result<Option<Shape>, AllocError>
    ensures { IfOk result (λ more. option_map shape_of more ≡ option_map (λ k. on_stack (shape_of shape) (k ∷ (shape_of shape).stack)) kind) }
{
    match kind {
        Some(kind) => Ok(Some(put(shape, kind)?)),
        None => Ok(None),
    }
}

/// Without the newest word.
pub(crate) fn dropped(shape: Shape) -> Option<Shape>
    ensures { let s = shape_of shape in option_map shape_of result ≡ one s.stack (λ a under. Some (on_stack s under)) }
{
    let mut shape = shape;
    let _newest = newest(&mut shape)?;
    Some(shape)
}

/// With the newest word twice.
pub(crate) fn copied(shape: Shape) -> Result<Option<Shape>, AllocError>
    ensures { let s = shape_of shape in IfOk result (λ more. option_map shape_of more ≡ one s.stack (λ a under. Some (on_stack s (a ∷ a ∷ under)))) }
{
    let mut shape = shape;
    let Some(a) = newest(&mut shape) else {
        return Ok(None);
    };
    Ok(Some(put(put(shape, a)?, a)?))
}

/// With an integer in place of the newest word.
pub(crate) fn tested(shape: Shape) -> Result<Option<Shape>, AllocError>
    ensures { let s = shape_of shape in IfOk result (λ more. option_map shape_of more ≡ one s.stack (λ a under. Some (on_stack s (WordKind.Integer ∷ under)))) }
{
    let mut shape = shape;
    let Some(_a) = newest(&mut shape) else {
        return Ok(None);
    };
    Ok(Some(put(shape, WordKind::Integer)?))
}

/// With an integer in place of the newest word, which is one.
pub(crate) fn computed(shape: Shape) -> Result<Option<Shape>, AllocError>
    ensures { let s = shape_of shape in IfOk result (λ more. option_map shape_of more ≡ integer s.stack (λ under. Some (on_stack s (WordKind.Integer ∷ under)))) }
{
    let mut shape = shape;
    match newest(&mut shape) {
        Some(WordKind::Integer) => Ok(Some(put(shape, WordKind::Integer)?)),
        Some(WordKind::Handle) => Ok(None),
        Some(WordKind::Thread) => Ok(None),
        None => Ok(None),
    }
}

/// With an integer in place of the two newest words, which are integers.
pub(crate) fn combined(shape: Shape) -> Result<Option<Shape>, AllocError>
    ensures { let s = shape_of shape in IfOk result (λ more. option_map shape_of more
        ≡ integer s.stack (λ below. integer below (λ under. Some (on_stack s (WordKind.Integer ∷ under))))) }
{
    let mut shape = shape;
    match newest(&mut shape) {
        Some(WordKind::Integer) => computed(shape),
        Some(WordKind::Handle) => Ok(None),
        Some(WordKind::Thread) => Ok(None),
        None => Ok(None),
    }
}

/// The two newest words, the newest first, which leave the stack.
fn newest_two(shape: &mut Shape) -> Option<(WordKind, WordKind)>
    ensures { MatchOption result (IsShort (shape_of shape.old).stack)
        (λ p. shape_of shape.old ≡ on_stack (shape_of shape.new) (p.0 ∷ p.1 ∷ (shape_of shape.new).stack)) }
{
    let b = newest(shape)?;
    let a = newest(shape)?;
    Some((b, a))
}

/// With the newest word under the one after it too.
pub(crate) fn copied_under(shape: Shape) -> Result<Option<Shape>, AllocError>
    ensures { let s = shape_of shape in IfOk result (λ more. option_map shape_of more ≡ two s.stack (λ b a under. Some (on_stack s (b ∷ a ∷ b ∷ under)))) }
{
    let mut shape = shape;
    let Some((b, a)) = newest_two(&mut shape) else {
        return Ok(None);
    };
    Ok(Some(put(put(put(shape, b)?, a)?, b)?))
}

/// With the two newest words the other way round.
pub(crate) fn swapped(shape: Shape) -> Result<Option<Shape>, AllocError>
    ensures { let s = shape_of shape in IfOk result (λ more. option_map shape_of more ≡ two s.stack (λ b a under. Some (on_stack s (a ∷ b ∷ under)))) }
{
    let mut shape = shape;
    let Some((b, a)) = newest_two(&mut shape) else {
        return Ok(None);
    };
    Ok(Some(put(put(shape, b)?, a)?))
}

/// With an integer in place of the two newest words, which are of one kind.
pub(crate) fn compared(shape: Shape) -> Result<Option<Shape>, AllocError>
    ensures { let s = shape_of shape in IfOk result (λ more. option_map shape_of more
        ≡ two s.stack (λ b a under. if is_same_kind a b then Some (on_stack s (WordKind.Integer ∷ under)) else None)) }
{
    let mut shape = shape;
    let Some((b, a)) = newest_two(&mut shape) else {
        return Ok(None);
    };
    if same_kind(a, b) {
        Ok(Some(put(shape, WordKind::Integer)?))
    } else {
        Ok(None)
    }
}

/// Whether a variable is of a kind.
fn keeps_kind(variables: &[WordKind], number: usize, kind: WordKind) -> bool
    ensures { result ≡ keeps_kind_of number kind variables.now }
{
    match kind_at(variables, number) {
        Some(found) => same_kind(kind, found),
        None => false,
    }
}

/// With the newest word in a variable: one of its kind, or one that takes the place of those from there on.
pub(crate) fn stored(shape: Shape, room: u32, number: u32) -> Result<Option<Shape>, AllocError>
    ensures { let s = shape_of shape in IfOk result (λ more. option_map shape_of more
        ≡ one s.stack (λ k under. option_map (λ variables. record s { stack = under; variables = variables }) (stored_of room number k s.variables))) }
{
    let mut shape = shape;
    let Some(kind) = newest(&mut shape) else {
        return Ok(None);
    };
    let place = number as usize;
    if keeps_kind(shape.variables.as_slice(), place, kind) {
        return Ok(Some(shape));
    }
    if place <= shape.variables.len() && number < room {
        shape.variables.truncate(place);
        shape.variables.push(kind)?;
        Ok(Some(shape))
    } else {
        Ok(None)
    }
}
