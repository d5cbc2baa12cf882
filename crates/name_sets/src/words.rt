//! The words of a set: the same operations one word at a time, and eight words at a time.
ghost use Rattle.std.specs.Prelude.{◌≡◌, ◌≢◌, ℕ, ◌+◌, ◌*◌, ◌<◌, ◌≤◌, length, slice_index};
ghost use Rattle.std.specs.Bool.{MatchBool};
ghost use Rattle.name_sets.specs.Row.{Unites, TellsGrowth, TellsCommon, word_common};
ghost use lib.Lanes.{chunk, put_chunk};

use std::simd::prelude::*;

/// Adds the bits of the other words, one word at a time, and answers whether a bit was added.
pub(crate) fn unite_plain(words: &mut [u64; 32], other: &[u64; 32]) -> bool
    ensures words { Unites words.old other.now words.new }
    ensures grew { TellsGrowth words.old other.now result }
{
    let mut grew = false;
    for k in 0..32usize {
        let both = words[k] | other[k];
        grew |= both != words[k];
        words[k] = both;
    }
    grew
}

/// Whether two rows of words have a bit in common, one word at a time.
pub(crate) fn meet_plain(words: &[u64; 32], other: &[u64; 32]) -> bool
    ensures { TellsCommon words.now other.now result }
{
    for k in 0..32usize {
        if words[k] & other[k] != 0 {
            return true;
        }
    }
    false
}

/// The eight words from `at` on.
fn load(words: &[u64; 32], at: usize) -> u64x8
    requires { at ≤ 24 }
    ensures { result ≡ chunk at 8 words.now }
{
    u64x8::from_slice(&words[at..])
}

/// Writes eight words from `at` on.
fn store(words: &mut [u64], at: usize, lanes: u64x8)
    requires { at + 8 ≤ length words.old }
    ensures { words.new ≡ put_chunk at words.old lanes }
{
    lanes.copy_to_slice(&mut words[at..]);
}

/// Whether one of eight words isn't 0.
pub(crate) fn has_bits(lanes: u64x8) -> bool
    ensures { MatchBool result ((k : ℕ) × (slice_index lanes k ≢ 0))
        ((k : ℕ) → slice_index lanes k ≡ 0) }
{
    lanes.reduce_or() != 0
}

/// `unite_plain`, eight words at a time.
pub(crate) fn unite(words: &mut [u64; 32], other: &[u64; 32]) -> bool
    ensures words { Unites words.old other.now words.new }
    ensures grew { TellsGrowth words.old other.now result }
{
    let mut grew = false;
    for block in 0..4usize {
        let at = 8 * block;
        let mine = load(words, at);
        let both = mine | load(other, at);
        grew |= has_bits(both ^ mine);
        store(words, at, both);
    }
    grew
}

/// The bits that two rows have in common, in the eight words from `at` on.
pub(crate) fn common(words: &[u64; 32], other: &[u64; 32], at: usize) -> u64x8
    requires { at ≤ 24 }
    ensures { (k : ℕ) → k < 8
        → slice_index result k ≡ word_common words.now other.now (at + k) }
{
    load(words, at) & load(other, at)
}

/// `meet_plain`, eight words at a time.
pub(crate) fn meet(words: &[u64; 32], other: &[u64; 32]) -> bool
    ensures { TellsCommon words.now other.now result }
{
    for block in 0..4usize {
        if has_bits(common(words, other, 8 * block)) {
            return true;
        }
    }
    false
}
