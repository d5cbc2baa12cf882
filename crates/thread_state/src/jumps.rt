ghost use Rattle.bytecode.specs.Instructions as instruction;
ghost use Rattle.thread_state.specs.Turns.{IsReady, Turns};

use crate::turn::{Spot, Turn};

/// Goes on so many instructions further.
#[inline(always)]
pub(crate) fn jump(heights: &[Option<u8>], words: &mut [u64], spot: Spot, distance: u32) -> Turn
    requires { IsReady heights.now words.old (instruction.Jump distance) spot }
    ensures { Turns heights.now words.old words.new (instruction.Jump distance) spot result }
{
    Turn::Goes(spot.place + 1 + distance as usize, spot.height)
}

/// Jumps where the newest word is 0.
#[inline(always)]
pub(crate) fn jump_if_zero(
    heights: &[Option<u8>],
    words: &mut [u64],
    spot: Spot,
    distance: u32,
) -> Turn
    requires { IsReady heights.now words.old (instruction.JumpIfZero distance) spot }
    ensures { Turns heights.now words.old words.new (instruction.JumpIfZero distance) spot result }
{
    let top = spot.base + spot.room + spot.height;
    if words[top - 1] == 0 {
        Turn::Goes(spot.place + 1 + distance as usize, spot.height - 1)
    } else {
        Turn::Goes(spot.place + 1, spot.height - 1)
    }
}

/// Jumps where the newest word isn't 0.
#[inline(always)]
pub(crate) fn jump_unless_zero(
    heights: &[Option<u8>],
    words: &mut [u64],
    spot: Spot,
    distance: u32,
) -> Turn
    requires { IsReady heights.now words.old (instruction.JumpUnlessZero distance) spot }
    ensures { Turns heights.now words.old words.new (instruction.JumpUnlessZero distance) spot result }
{
    let top = spot.base + spot.room + spot.height;
    if words[top - 1] == 0 {
        Turn::Goes(spot.place + 1, spot.height - 1)
    } else {
        Turn::Goes(spot.place + 1 + distance as usize, spot.height - 1)
    }
}
