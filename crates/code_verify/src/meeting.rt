//! What is known at a place to which several ways lead.
ghost use Rattle.std.specs.Prelude.{◌≡◌, option_map};
ghost use Rattle.skeletons.specs.Meaning.{check_in_of};
ghost use Rattle.code_kinds.specs.Shapes.{same_check_in as is_same_check_in};
ghost use Rattle.code_verify.specs.Meeting.{same_due as is_same_due, alike as are_alike, meet as meet_of, cut as cut_of, met as met_of};
ghost use Rattle.code_verify.specs.Seen.{due_of, shape_of};

use crate::shape::{Due, Shape};
use crate::words::{common, same_stack};
use skeletons::CheckInKind;

/// Whether two kinds of check-in are one.
pub(crate) fn same_check_in(a: CheckInKind, b: CheckInKind) -> bool
    ensures { result ≡ is_same_check_in (check_in_of a) (check_in_of b) }
{
    match a {
        CheckInKind::Entry => matches!(b, CheckInKind::Entry),
        CheckInKind::Call => matches!(b, CheckInKind::Call),
        CheckInKind::Begin => matches!(b, CheckInKind::Begin),
        CheckInKind::End => matches!(b, CheckInKind::End),
        CheckInKind::Update => matches!(b, CheckInKind::Update),
    }
}

/// Whether the same check-in comes next, or none.
fn same_due(a: Option<Due>, b: Option<Due>) -> bool
    ensures { result ≡ is_same_due (option_map due_of a) (option_map due_of b) }
{
    match a {
        None => b.is_none(),
        Some(a) => match b {
            None => false,
            Some(b) => same_check_in(a.kind, b.kind) && a.number == b.number,
        },
    }
}

/// Whether two shapes differ in their variables at most.
fn alike(a: &Shape, b: &Shape) -> bool
    ensures { result ≡ are_alike (shape_of a.now) (shape_of b.now) }
{
    same_stack(a.stack.as_slice(), b.stack.as_slice())
        && (a.transactions == b.transactions && same_due(a.due, b.due))
}

/// What is known where a shape was known, or none, and a way brings another; none where they don't agree.
fn meet(there: Option<&Shape>, shape: Shape) -> Option<Shape>
    ensures { option_map shape_of result ≡ meet_of (option_map (λ s. shape_of s.now) there.entry) (shape_of shape) }
{
    let mut shape = shape;
    let Some(old) = there else {
        return Some(shape);
    };
    if !alike(old, &shape) {
        return None;
    }
    let many = common(old.variables.as_slice(), shape.variables.as_slice());
    shape.variables.truncate(many);
    Some(shape)
}

/// A shape where a loop begins that keeps so many variables, if one does; none where there are fewer.
fn cut(keeps: Option<u32>, shape: Shape) -> Option<Shape>
    ensures { option_map shape_of result ≡ cut_of keeps (shape_of shape) }
{
    let mut shape = shape;
    let Some(many) = keeps else {
        return Some(shape);
    };
    if many as usize <= shape.variables.len() {
        shape.variables.truncate(many as usize);
        Some(shape)
    } else {
        None
    }
}

/// What is known at a place after a way has come.
pub(crate) fn met(keeps: Option<u32>, there: Option<&Shape>, shape: Shape) -> Option<Shape>
    ensures { option_map shape_of result ≡ met_of keeps (option_map (λ s. shape_of s.now) there.entry) (shape_of shape) }
{
    cut(keeps, meet(there, shape)?)
}
