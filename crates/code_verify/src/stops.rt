//! What stops take from the stack and leave there.
ghost use Rattle.std.specs.Prelude.{◌≡◌, ◌∷◌, ℕ, List, map, length, Option, option_map, option_and_then, if◌then◌else◌, IfOk};
ghost use Rattle.c_format.specs.declared.reading.Reading.TheVariants as reading;
ghost use Rattle.c_format.specs.Formats.{kinds};
ghost use Rattle.c_tree.specs.Bare.{bare_binding};
ghost use Rattle.local_evaluation.specs.Pieces.{stop_of};
ghost use Rattle.code_kinds.specs.WordKinds.{word_kind as kind_of_type};
ghost use Rattle.code_kinds.specs.StopKinds.{Words, integers, take_one as take_one_of, take_arguments, after_stop as after_stop_of};
ghost use Rattle.code_verify.specs.Seen.{stack_of, trees_of, look_of};

use crate::names::{
    element_kind, field_kind, is_mutex, is_struct, parameters, result_kind, variable_kind,
};
use crate::source::Source;
use crate::stack::{exchange, push, push_if, take_integers, take_one, take_parameters};
use c_format::Reading;
use c_tree::Binding;
use code_kinds::WordKind;
use local_evaluation::Stop;
use std::alloc::AllocError;

/// How many words the conversions of a format take; none where a `%` begins no conversion.
fn conversions(format: &[u8]) -> Option<usize>
    ensures { result ≡ option_map length (kinds reading.Text format.now) }
{
    let mut reading = Reading::Text;
    let mut many = 0;
    for i in 0..format.len() {
        if reading.taken(format[i]).is_some() {
            many += 1;
        }
        reading = reading.read(format[i]);
    }
    if matches!(reading, Reading::Text) {
        Some(many)
    } else {
        None
    }
}

/// A stack with a word, if something was found.
fn push_when(
    found: bool,
    kind: WordKind,
    stack: Vec<WordKind>,
) -> Result<Option<Vec<WordKind>>, AllocError>
    ensures { IfOk result (λ more. option_map (λ v. stack_of v.items) more ≡ (if found then Some (kind ∷ stack_of stack.items) else None)) }
{
    if found {
        Ok(Some(push(stack, kind)?))
    } else {
        Ok(None)
    }
}

/// A stack whose newest word is of a kind, if there is one: what is written is given back.
fn write(kind: Option<WordKind>, stack: Vec<WordKind>) -> Result<Option<Vec<WordKind>>, AllocError>
    ensures { IfOk result (λ more. option_map (λ v. stack_of v.items) more
        ≡ option_and_then (λ k. take_one_of k (stack_of stack.items) (λ under. Some (k ∷ under))) kind) }
{
    match kind {
        Some(kind) => exchange(kind, kind, stack),
        None => Ok(None),
    }
}

/// A stack with a word of a kind, if there is one, in place of its newest.
fn replace(
    kind: Option<WordKind>,
    taken: WordKind,
    stack: Vec<WordKind>,
) -> Result<Option<Vec<WordKind>>, AllocError>
    ensures { IfOk result (λ more. option_map (λ v. stack_of v.items) more
        ≡ option_and_then (λ k. take_one_of taken (stack_of stack.items) (λ under. Some (k ∷ under))) kind) }
{
    match kind {
        Some(kind) => exchange(taken, kind, stack),
        None => Ok(None),
    }
}

/// The same, with what is written as its newest word, and another one under it.
fn write_under(
    kind: Option<WordKind>,
    taken: WordKind,
    stack: Vec<WordKind>,
) -> Result<Option<Vec<WordKind>>, AllocError>
    ensures { IfOk result (λ more. option_map (λ v. stack_of v.items) more
        ≡ option_and_then (λ k. take_one_of k (stack_of stack.items) (λ below. take_one_of taken below (λ under. Some (k ∷ under)))) kind) }
{
    let Some(kind) = kind else {
        return Ok(None);
    };
    match take_one(kind, stack) {
        Some(below) => exchange(taken, kind, below),
        None => Ok(None),
    }
}

/// A stack without the arguments that a format takes, and with how many bytes were printed.
fn print(
    format: &str,
    many: usize,
    stack: Vec<WordKind>,
) -> Result<Option<Vec<WordKind>>, AllocError>
    ensures { IfOk result (λ more. option_map (λ v. stack_of v.items) more
        ≡ option_and_then (λ ks. take_arguments many (integers ks) (stack_of stack.items) (λ under. Some (WordKind.Integer ∷ under))) (kinds reading.Text format.now)) }
{
    let Some(taken) = conversions(format.as_bytes()) else {
        return Ok(None);
    };
    if taken != many {
        return Ok(None);
    }
    match take_integers(many, stack) {
        Some(under) => Ok(Some(push(under, WordKind::Integer)?)),
        None => Ok(None),
    }
}

/// A stack without the arguments of a function, and with what its call gives.
fn call(
    expected: Option<&[Binding]>,
    many: usize,
    given: WordKind,
    stack: Vec<WordKind>,
) -> Result<Option<Vec<WordKind>>, AllocError>
    ensures { IfOk result (λ more. option_map (λ v. stack_of v.items) more
        ≡ option_and_then (λ ks. take_arguments many ks (stack_of stack.items) (λ under. Some (given ∷ under)))
        (option_map (λ ps. map (λ p. kind_of_type p.declared) (map bare_binding ps.now)) expected.entry)) }
{
    let Some(expected) = expected else {
        return Ok(None);
    };
    if expected.len() != many {
        return Ok(None);
    }
    match take_parameters(expected, stack) {
        Some(under) => Ok(Some(push(under, given)?)),
        None => Ok(None),
    }
}

/// The stack after a stop, in a function whose value is of a kind; none where the stop doesn't find what it takes.
pub(crate) fn after_stop(
    source: &Source,
    value: WordKind,
    stop: Stop,
    stack: Vec<WordKind>,
) -> Result<Option<Vec<WordKind>>, AllocError>
    ensures { IfOk result (λ more. option_map (λ v. stack_of v.items) more
        ≡ after_stop_of (look_of source.now) value (stop_of (trees_of source.now) stop) (stack_of stack.items)) }
{
    let trees = source.trees;
    let known = source.known;
    match stop {
        Stop::ReadGlobal(name) => push_if(variable_kind(known, trees.text(name)), stack),
        Stop::WriteGlobal(name) => write(variable_kind(known, trees.text(name)), stack),
        Stop::ReadElement(name) => replace(
            element_kind(known, trees.text(name)),
            WordKind::Integer,
            stack,
        ),
        Stop::WriteElement(name) => write_under(
            element_kind(known, trees.text(name)),
            WordKind::Integer,
            stack,
        ),
        Stop::ReadField(tag, name) => replace(
            field_kind(source, tag, name)?,
            WordKind::Handle,
            stack,
        ),
        Stop::WriteField(tag, name) => write_under(
            field_kind(source, tag, name)?,
            WordKind::Handle,
            stack,
        ),
        Stop::New(tag) => push_when(is_struct(source, tag)?, WordKind::Handle, stack),
        Stop::Free(_) => exchange(WordKind::Handle, WordKind::Integer, stack),
        Stop::Print(format, many) => print(trees.text(format), many, stack),
        Stop::InitMutex(name) => push_when(
            is_mutex(known, trees.text(name)),
            WordKind::Integer,
            stack,
        ),
        Stop::Lock(name) => push_when(is_mutex(known, trees.text(name)), WordKind::Integer, stack),
        Stop::Unlock(name) => push_when(
            is_mutex(known, trees.text(name)),
            WordKind::Integer,
            stack,
        ),
        Stop::Spawn(name) => call(
            parameters(known, trees.text(name)),
            1,
            WordKind::Thread,
            stack,
        ),
        Stop::Join => exchange(WordKind::Thread, WordKind::Integer, stack),
        Stop::Call(name, many) => call(
            parameters(known, trees.text(name)),
            many,
            result_kind(known, trees.text(name)),
            stack,
        ),
        Stop::Return => Ok(take_one(value, stack)),
        Stop::Back => Ok(None),
        Stop::Begin => Ok(Some(stack)),
        Stop::End => Ok(Some(stack)),
        Stop::Update => Ok(Some(stack)),
    }
}
