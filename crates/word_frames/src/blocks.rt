//! Where the words of frames are in a row of words, and how they come there.
ghost use Rattle.std.specs.Prelude.{◌≡◌, ℕ, ◌+◌, ◌<◌, ◌≤◌, IsTrue, length, reverse, slice_index, vec_capacity};
ghost use Rattle.source_model.specs.Moves.{frame_count};
ghost use Rattle.thread_state.specs.Frames.{IsSameOutside, most_words, upward};
ghost use Rattle.word_frames.specs.Blocks.{base_of, room};

/// How many words are after the last block: those of a stack as high as any, and one.
pub(crate) const SPARE: usize = 67;

/// How many variables a frame has.
pub(crate) fn variables() -> usize
    ensures value { result ≡ room }
    ensures few { result ≡ 64 }
{
    64
}

/// Where the words of the frame with a number begin, where no stack is higher than this.
pub(crate) fn base(highest_stack: usize, n: usize) -> usize
    requires most { highest_stack ≤ most_words }
    requires few { n ≤ frame_count }
    ensures value { result ≡ base_of highest_stack n }
    ensures small { result ≤ base_of most_words frame_count }
{
    1 + n * (variables() + highest_stack)
}

/// Adds words, for which there is room, until there are so many.
pub(crate) fn fill(words: &mut Vec<u64>, count: usize)
    requires { count ≤ vec_capacity words.old }
    ensures long { count ≤ length words.new.items }
    ensures longer { length words.old.items ≤ length words.new.items }
    ensures same { (i : ℕ) → i < length words.old.items → slice_index words.new.items i ≡ slice_index words.old.items i }
    ensures capacity { vec_capacity words.new ≡ vec_capacity words.old }
{
    while words.len() < count {
        words.push_reserved(0);
    }
}

/// Copies so many words to places after them, the last one first.
pub(crate) fn copy_reversed(words: &mut [u64], from: usize, to: usize, count: usize)
    requires apart { from + count ≤ to }
    requires space { to + count ≤ length words.old }
    ensures copied { upward words.new to count ≡ reverse (upward words.old from count) }
    ensures elsewhere { IsSameOutside to (to + count) words.old words.new }
{
    for i in 0..count {
        words[to + i] = words[from + (count - 1 - i)];
    }
}

/// Copies so many words of one row, from a place on, to places of another.
pub(crate) fn copy(from: &[u64], at: usize, to: &mut [u64], start: usize, count: usize)
    requires there { at + count ≤ length from.now }
    requires space { start + count ≤ length to.old }
    ensures copied { (i : ℕ) → i < count → slice_index to.new (start + i) ≡ slice_index from.now (at + i) }
    ensures elsewhere { IsSameOutside start (start + count) to.old to.new }
{
    for i in 0..count {
        to[start + i] = from[at + i];
    }
}

/// Whether so many words of one row, from a place on, are those of another.
pub(crate) fn is_copy(from: &[u64], at: usize, to: &[u64], start: usize, count: usize) -> bool
    requires there { at + count ≤ length from.now }
    requires space { start + count ≤ length to.now }
    ensures { IsTrue result → (i : ℕ) → i < count → slice_index to.now (start + i) ≡ slice_index from.now (at + i) }
{
    for i in 0..count {
        if to[start + i] != from[at + i] {
            return false;
        }
    }
    true
}
