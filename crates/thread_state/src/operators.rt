ghost use Rattle.bytecode.specs.Instructions as instruction;
ghost use Rattle.thread_state.specs.Turns.{IsReady, Turns};

use crate::steps::End;
use crate::turn::{Spot, Turn};
use c_ints::{BinOp, Kind, UnOp};
use run_types::TrapKind;

/// Converts the newest word to a kind.
#[inline(always)]
pub(crate) fn convert(heights: &[Option<u8>], words: &mut [u64], spot: Spot, kind: Kind) -> Turn
    requires { IsReady heights.now words.old (instruction.Convert kind) spot }
    ensures { Turns heights.now words.old words.new (instruction.Convert kind) spot result }
{
    let top = spot.base + spot.room + spot.height;
    words[top - 1] = word_arithmetic::convert(kind, words[top - 1]);
    Turn::Goes(spot.place + 1, spot.height)
}

/// An operator on the newest word.
#[inline(always)]
pub(crate) fn unary(
    heights: &[Option<u8>],
    words: &mut [u64],
    spot: Spot,
    op: UnOp,
    kind: Kind,
) -> Turn
    requires { IsReady heights.now words.old (instruction.Unary op kind) spot }
    ensures { Turns heights.now words.old words.new (instruction.Unary op kind) spot result }
{
    let top = spot.base + spot.room + spot.height;
    match word_arithmetic::unary(op, kind, words[top - 1]) {
        Ok(word) => {
            words[top - 1] = word;
            Turn::Goes(spot.place + 1, spot.height)
        }
        Err(trap) => Turn::Ends(End::Traps(TrapKind::from(trap))),
    }
}

/// An operator on the two newest words.
#[inline(always)]
pub(crate) fn binary(
    heights: &[Option<u8>],
    words: &mut [u64],
    spot: Spot,
    op: BinOp,
    kind: Kind,
) -> Turn
    requires { IsReady heights.now words.old (instruction.Binary op kind) spot }
    ensures { Turns heights.now words.old words.new (instruction.Binary op kind) spot result }
{
    let top = spot.base + spot.room + spot.height;
    match word_arithmetic::binary(op, kind, words[top - 2], words[top - 1]) {
        Ok(word) => {
            words[top - 2] = word;
            Turn::Goes(spot.place + 1, spot.height - 1)
        }
        Err(trap) => Turn::Ends(End::Traps(TrapKind::from(trap))),
    }
}

/// Whether the newest word is 0.
#[inline(always)]
pub(crate) fn is_zero(heights: &[Option<u8>], words: &mut [u64], spot: Spot) -> Turn
    requires { IsReady heights.now words.old instruction.IsZero spot }
    ensures { Turns heights.now words.old words.new instruction.IsZero spot result }
{
    let top = spot.base + spot.room + spot.height;
    words[top - 1] = (words[top - 1] == 0) as u64;
    Turn::Goes(spot.place + 1, spot.height)
}

/// Whether the newest word isn't 0.
#[inline(always)]
pub(crate) fn is_not_zero(heights: &[Option<u8>], words: &mut [u64], spot: Spot) -> Turn
    requires { IsReady heights.now words.old instruction.IsNotZero spot }
    ensures { Turns heights.now words.old words.new instruction.IsNotZero spot result }
{
    let top = spot.base + spot.room + spot.height;
    words[top - 1] = (words[top - 1] != 0) as u64;
    Turn::Goes(spot.place + 1, spot.height)
}

/// Whether the two newest words are the same.
#[inline(always)]
pub(crate) fn same(heights: &[Option<u8>], words: &mut [u64], spot: Spot) -> Turn
    requires { IsReady heights.now words.old instruction.Same spot }
    ensures { Turns heights.now words.old words.new instruction.Same spot result }
{
    let top = spot.base + spot.room + spot.height;
    words[top - 2] = (words[top - 2] == words[top - 1]) as u64;
    Turn::Goes(spot.place + 1, spot.height - 1)
}

/// Whether the two newest words differ.
#[inline(always)]
pub(crate) fn different(heights: &[Option<u8>], words: &mut [u64], spot: Spot) -> Turn
    requires { IsReady heights.now words.old instruction.Different spot }
    ensures { Turns heights.now words.old words.new instruction.Different spot result }
{
    let top = spot.base + spot.room + spot.height;
    words[top - 2] = (words[top - 2] != words[top - 1]) as u64;
    Turn::Goes(spot.place + 1, spot.height - 1)
}
