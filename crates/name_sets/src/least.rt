//! The search for the least common name.
ghost use Rattle.std.specs.Prelude.{◌≡◌, ℕ, ◌+◌, ◌*◌, ◌<◌, ◌≤◌, length, slice_index, IfSome};
ghost use Rattle.std.specs.Option.{ForSome};
ghost use Rattle.name_sets.specs.IdSet.{Holds};
ghost use Rattle.name_sets.specs.Search.{TellsLeastBelow, IsLesser, Shows, ShowEight, ShowCommon};
ghost use Rattle.name_sets.specs.Row.{word_common};

use crate::{NameId, Names, words};
use std::simd::prelude::*;

/// The one of two names whose text comes first, where the older may not be there.
fn lesser(names: &Names, old: Option<NameId>, id: NameId) -> NameId
    requires old { ForSome old (λ o. o < length names.now) }
    requires id { id < length names.now }
    ensures { IsLesser names.now old id result }
{
    match old {
        Some(old) if !names.before(id, old) => old,
        _ => id,
    }
}

/// Goes on with the least name so far over the ids of one word, whose first bit stands for `base`.
fn least_of_word(names: &Names, word: u64, base: usize, so_far: Option<NameId>) -> Option<NameId>
    requires base { base + 64 ≤ 2048 }
    requires ids { (j : ℕ) → Holds word j → base + j < length names.now }
    requires known { ForSome so_far (λ id. id < length names.now) }
    ensures known { IfSome result (λ id. id < length names.now) }
    ensures least { (set : ℕ) → Shows word set base
        → TellsLeastBelow names.now set base so_far
        → TellsLeastBelow names.now set (base + 64) result }
{
    let mut least = so_far;
    let mut left = word;
    while left != 0 {
        let bit = left.trailing_zeros();
        let id = NameId::at(base + bit as usize);
        least = Some(lesser(names, least, id));
        left &= !(1 << bit);
    }
    least
}

/// Goes on over the ids of eight words, whose first bit stands for `base`.
fn least_of_eight(
    names: &Names,
    words: &[u64; 8],
    base: usize,
    so_far: Option<NameId>,
) -> Option<NameId>
    requires base { base + 512 ≤ 2048 }
    requires ids { (i j : ℕ) → i < 8 → Holds (slice_index words.now i) j
        → base + 64 * i + j < length names.now }
    requires known { ForSome so_far (λ id. id < length names.now) }
    ensures known { IfSome result (λ id. id < length names.now) }
    ensures least { (set : ℕ) → ShowEight words.now set base
        → TellsLeastBelow names.now set base so_far
        → TellsLeastBelow names.now set (base + 512) result }
{
    let mut least = so_far;
    for i in 0..8usize {
        least = least_of_word(names, words[i], base + 64 * i, least);
    }
    least
}

/// Goes on over the ids of eight words, where these have any.
fn least_of_block(
    names: &Names,
    lanes: u64x8,
    base: usize,
    so_far: Option<NameId>,
) -> Option<NameId>
    requires base { base + 512 ≤ 2048 }
    requires ids { (i j : ℕ) → i < 8 → Holds (slice_index lanes i) j
        → base + 64 * i + j < length names.now }
    requires known { ForSome so_far (λ id. id < length names.now) }
    ensures known { IfSome result (λ id. id < length names.now) }
    ensures least { (set : ℕ) → ShowEight lanes set base
        → TellsLeastBelow names.now set base so_far
        → TellsLeastBelow names.now set (base + 512) result }
{
    if words::has_bits(lanes) {
        least_of_eight(names, &lanes.to_array(), base, so_far)
    } else {
        so_far
    }
}

/// The least name by text among those whose bits are in both rows.
pub(crate) fn least_of_rows(names: &Names, words: &[u64; 32], other: &[u64; 32]) -> Option<NameId>
    requires { (k j : ℕ) → k < 32 → Holds (word_common words.now other.now k) j
        → 64 * k + j < length names.now }
    ensures { (set : ℕ) → ShowCommon words.now other.now set
        → TellsLeastBelow names.now set 2048 result }
{
    let mut least = None;
    for block in 0..4usize {
        let shared = words::common(words, other, 8 * block);
        least = least_of_block(names, shared, 512 * block, least);
    }
    least
}
