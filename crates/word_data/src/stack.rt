//! The words on a frame's stack.
ghost use Rattle.std.specs.Prelude.{◌≡◌, ◌+◌, ◌<◌, ◌≤◌, ◌∷◌, Some, drop, length, slice_get};
ghost use Rattle.thread_state.specs.Frames.{IsSameOutside};
ghost use Rattle.word_data.specs.Stacks.{Leaves, stack_of};
ghost use Rattle.word_data.specs.Performing.{LeavesOne};

use crate::stop::{Did, Stack};

/// The word with so many newer ones.
#[inline(always)]
pub(crate) fn word_under(words: &[u64], stack: Stack, newer: usize) -> u64
    requires taken { newer < stack.height }
    requires space { stack.low + stack.height < length words.now }
    ensures { slice_get (stack_of words.now stack) newer ≡ Some result }
{
    words[stack.low + stack.height - 1 - newer]
}

/// Leaves a word in place of so many of the newest ones, and the frame goes on.
#[inline(always)]
pub(crate) fn leave(words: &mut [u64], stack: Stack, taken: usize, word: u64) -> Did
    requires taken { taken ≤ stack.height }
    requires space { stack.low + stack.height < length words.old }
    ensures leaves { Leaves words.new stack result (word ∷ drop taken (stack_of words.old stack)) }
    ensures elsewhere { IsSameOutside stack.low (stack.low + stack.height + 1) words.old words.new }
    ensures keeps { LeavesOne taken stack result words.old words.new }
{
    let height = stack.height - taken;
    words[stack.low + height] = word;
    Did::On(height + 1)
}
