ghost use Rattle.bytecode.specs.Instructions as instruction;
ghost use Rattle.thread_state.specs.Turns.{IsReady, Turns};

use crate::turn::{Spot, Turn};
use bytecode::ValueKind;

/// Puts a word on the stack.
#[inline(always)]
pub(crate) fn constant(
    heights: &[Option<u8>],
    words: &mut [u64],
    spot: Spot,
    kind: ValueKind,
    word: u64,
) -> Turn
    requires { IsReady heights.now words.old (instruction.Constant kind word) spot }
    ensures { Turns heights.now words.old words.new (instruction.Constant kind word) spot result }
{
    words[spot.base + spot.room + spot.height] = word;
    Turn::Goes(spot.place + 1, spot.height + 1)
}

/// Puts the word of a variable on the stack.
#[inline(always)]
pub(crate) fn load(heights: &[Option<u8>], words: &mut [u64], spot: Spot, n: u32) -> Turn
    requires { IsReady heights.now words.old (instruction.Load n) spot }
    ensures { Turns heights.now words.old words.new (instruction.Load n) spot result }
{
    words[spot.base + spot.room + spot.height] = words[spot.base + n as usize];
    Turn::Goes(spot.place + 1, spot.height + 1)
}

/// Takes the newest word into a variable.
#[inline(always)]
pub(crate) fn store(heights: &[Option<u8>], words: &mut [u64], spot: Spot, n: u32) -> Turn
    requires { IsReady heights.now words.old (instruction.Store n) spot }
    ensures { Turns heights.now words.old words.new (instruction.Store n) spot result }
{
    let top = spot.base + spot.room + spot.height;
    words[spot.base + n as usize] = words[top - 1];
    Turn::Goes(spot.place + 1, spot.height - 1)
}

/// Copies the newest word.
#[inline(always)]
pub(crate) fn copy(heights: &[Option<u8>], words: &mut [u64], spot: Spot) -> Turn
    requires { IsReady heights.now words.old instruction.Copy spot }
    ensures { Turns heights.now words.old words.new instruction.Copy spot result }
{
    let top = spot.base + spot.room + spot.height;
    words[top] = words[top - 1];
    Turn::Goes(spot.place + 1, spot.height + 1)
}

/// Copies the newest word under the one after it.
#[inline(always)]
pub(crate) fn copy_under(heights: &[Option<u8>], words: &mut [u64], spot: Spot) -> Turn
    requires { IsReady heights.now words.old instruction.CopyUnder spot }
    ensures { Turns heights.now words.old words.new instruction.CopyUnder spot result }
{
    let top = spot.base + spot.room + spot.height;
    let newest = words[top - 1];
    let under = words[top - 2];
    words[top - 2] = newest;
    words[top - 1] = under;
    words[top] = newest;
    Turn::Goes(spot.place + 1, spot.height + 1)
}

/// Exchanges the two newest words.
#[inline(always)]
pub(crate) fn swap(heights: &[Option<u8>], words: &mut [u64], spot: Spot) -> Turn
    requires { IsReady heights.now words.old instruction.Swap spot }
    ensures { Turns heights.now words.old words.new instruction.Swap spot result }
{
    let top = spot.base + spot.room + spot.height;
    let newest = words[top - 1];
    let under = words[top - 2];
    words[top - 2] = newest;
    words[top - 1] = under;
    Turn::Goes(spot.place + 1, spot.height)
}

/// Drops the newest word.
#[inline(always)]
pub(crate) fn drop_newest(heights: &[Option<u8>], words: &mut [u64], spot: Spot) -> Turn
    requires { IsReady heights.now words.old instruction.Drop spot }
    ensures { Turns heights.now words.old words.new instruction.Drop spot result }
{
    Turn::Goes(spot.place + 1, spot.height - 1)
}
