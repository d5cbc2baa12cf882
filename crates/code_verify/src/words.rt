//! Kinds of words, and lists of them.
ghost use Rattle.std.specs.Prelude.{◌≡◌, ◌≤◌, length, IfOk};
ghost use Rattle.c_tree.specs.Bare.{bare_type};
ghost use Rattle.code_kinds.specs.WordKinds.{word_kind as kind_of_type, same_kind as is_same_kind};
ghost use Rattle.code_verify.specs.Meeting.{common as common_of, same_words as are_same_words};
ghost use Rattle.code_verify.specs.Seen.{stack_of};

use c_tree::CType;
use code_kinds::WordKind;
use std::alloc::{AllocError, Global};

/// What a word of a type of the text is.
pub(crate) fn word_kind(declared: &CType) -> WordKind
    ensures { result ≡ kind_of_type (bare_type declared.now) }
{
    match declared {
        CType::Integer(_) => WordKind::Integer,
        CType::Handle(_) => WordKind::Handle,
        CType::Thread => WordKind::Thread,
    }
}

/// Whether two kinds are one.
pub(crate) fn same_kind(a: WordKind, b: WordKind) -> bool
    ensures { result ≡ is_same_kind a b }
{
    match a {
        WordKind::Integer => matches!(b, WordKind::Integer),
        WordKind::Handle => matches!(b, WordKind::Handle),
        WordKind::Thread => matches!(b, WordKind::Thread),
    }
}

/// A copy of some kinds.
pub(crate) fn copy_words(alloc: Global, words: &[WordKind]) -> Result<Vec<WordKind>, AllocError>
    ensures { IfOk result (λ v. v.items ≡ words.now) }
{
    let mut copy = Vec::new(alloc);
    copy.extend_from_slice(words)?;
    Ok(copy)
}

/// Whether two stacks have the same words.
pub(crate) fn same_stack(a: &[WordKind], b: &[WordKind]) -> bool
    ensures { result ≡ are_same_words (stack_of a.now) (stack_of b.now) }
{
    let Some((x, xs)) = a.split_last() else {
        return b.is_empty();
    };
    let Some((y, ys)) = b.split_last() else {
        return false;
    };
    same_kind(*x, *y) && same_stack(xs, ys)
}

/// With how many kinds both lists begin.
pub(crate) fn common(a: &[WordKind], b: &[WordKind]) -> usize
    ensures value { result ≡ length (common_of a.now b.now) }
    ensures small { result ≤ length a.now }
{
    let Some((x, xs)) = a.split_first() else {
        return 0;
    };
    let Some((y, ys)) = b.split_first() else {
        return 0;
    };
    if same_kind(*x, *y) {
        common(xs, ys) + 1
    } else {
        0
    }
}
