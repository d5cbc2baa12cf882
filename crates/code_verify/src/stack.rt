//! What is taken from a stack and put there.
ghost use Rattle.std.specs.Prelude.{◌≡◌, [], ◌∷◌, map, reverse, replicate, option_map, option_and_then, MatchOption, IfOk, List, Option};
ghost use Rattle.c_tree.specs.Bare.{bare_binding};
ghost use Rattle.code_kinds.specs.WordKinds.{word_kind as kind_of_type};
ghost use Rattle.code_kinds.specs.StopKinds.{Words, take_one as take_one_of, take_all};
ghost use Rattle.code_verify.specs.Seen.{stack_of};

use crate::words::{same_kind, word_kind};
use c_tree::Binding;
use code_kinds::WordKind;
use std::alloc::AllocError;

/// The newest word, which leaves the stack.
pub(crate) fn pop(stack: &mut Vec<WordKind>) -> Option<WordKind>
    ensures { MatchOption result (stack_of stack.old.items ≡ []) (λ k. stack_of stack.old.items ≡ k ∷ stack_of stack.new.items) }
{
    stack.pop()
}

/// A stack with another word.
pub(crate) fn push(stack: Vec<WordKind>, kind: WordKind) -> Result<Vec<WordKind>, AllocError>
    ensures { IfOk result (λ more. stack_of more.items ≡ kind ∷ stack_of stack.items) }
{
    let mut stack = stack;
    stack.push(kind)?;
    Ok(stack)
}

/// A stack without its newest word, if that is of a kind.
pub(crate) fn take_one(kind: WordKind, stack: Vec<WordKind>) -> Option<Vec<WordKind>>
    ensures { (go : Words → Option Words)
        → take_one_of kind (stack_of stack.items) go ≡ option_and_then go (option_map (λ v. stack_of v.items) result) }
{
    let mut stack = stack;
    let newest = pop(&mut stack)?;
    if same_kind(kind, newest) {
        Some(stack)
    } else {
        None
    }
}

/// A stack without so many words, if those are integers.
pub(crate) fn take_integers(many: usize, stack: Vec<WordKind>) -> Option<Vec<WordKind>>
    ensures { (go : Words → Option Words)
        → take_all (replicate many WordKind.Integer) (stack_of stack.items) go ≡ option_and_then go (option_map (λ v. stack_of v.items) result) }
{
    if many == 0 {
        return Some(stack);
    }
    take_integers(many - 1, take_one(WordKind::Integer, stack)?)
}

/// A stack without the words of some parameters, the last of which is the newest.
pub(crate) fn take_parameters(parameters: &[Binding], stack: Vec<WordKind>) -> Option<Vec<WordKind>>
    ensures { (go : Words → Option Words)
        → take_all (reverse (map (λ p. kind_of_type p.declared) (map bare_binding parameters.now))) (stack_of stack.items) go
        ≡ option_and_then go (option_map (λ v. stack_of v.items) result) }
{
    let Some((last, older)) = parameters.split_last() else {
        return Some(stack);
    };
    take_parameters(older, take_one(word_kind(&last.declared), stack)?)
}

/// A stack with a word in place of its newest, if that is of a kind.
pub(crate) fn exchange(
    taken: WordKind,
    given: WordKind,
    stack: Vec<WordKind>,
) -> Result<Option<Vec<WordKind>>, AllocError>
    ensures { IfOk result (λ more. option_map (λ v. stack_of v.items) more ≡ take_one_of taken (stack_of stack.items) (λ under. Some (given ∷ under))) }
{
    match take_one(taken, stack) {
        Some(under) => Ok(Some(push(under, given)?)),
        None => Ok(None),
    }
}

/// A stack with a word, if there is one.
pub(crate) fn push_if(
    kind: Option<WordKind>,
    stack: Vec<WordKind>,
) -> Result<Option<Vec<WordKind>>, AllocError>
    ensures { IfOk result (λ more. option_map (λ v. stack_of v.items) more ≡ option_map (λ k. k ∷ stack_of stack.items) kind) }
{
    match kind {
        Some(kind) => Ok(Some(push(stack, kind)?)),
        None => Ok(None),
    }
}
