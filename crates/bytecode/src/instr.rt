use crate::kind::ValueKind;
use c_ints::{BinOp, Kind, UnOp};
use local_evaluation::Stop;
use skeletons::CheckInKind;

/// An instruction of a function's code. A number of an instruction is a distance, counted from the next one; a point's number
/// is that in the function's skeleton.
#[derive(Clone, Copy)]
pub enum Instr {
    /// Puts a word on the stack that is a value of a kind.
    Constant(ValueKind, u64),
    /// Puts the word of a variable on the stack.
    Load(u32),
    /// Takes the newest word into a variable.
    Store(u32),
    /// Copies the newest word.
    Copy,
    /// Copies the newest word under the one after it.
    CopyUnder,
    /// Exchanges the two newest words.
    Swap,
    /// Drops the newest word.
    Drop,
    /// Converts the newest word, an integer's, to a kind.
    Convert(Kind),
    /// An operator on an integer, at the kind in which it works.
    Unary(UnOp, Kind),
    /// An operator on two integers, at the kind in which it works.
    Binary(BinOp, Kind),
    /// Whether the newest word is 0, as an `int`.
    IsZero,
    /// Whether the newest word isn't 0, as an `int`.
    IsNotZero,
    /// Whether the two newest words are the same, as an `int`.
    Same,
    /// Whether the two newest words differ, as an `int`.
    Different,
    /// Goes on so many instructions further.
    Jump(u32),
    /// Takes the newest word, and jumps where it is 0.
    JumpIfZero(u32),
    /// Takes the newest word, and jumps where it isn't 0.
    JumpUnlessZero(u32),
    /// A stop other than a back edge, with its point.
    Halt(Stop, u32),
    /// The back edge of a loop that begins so many instructions before, with its point and the number of variables in scope.
    Back(u32, u32, u32),
    /// A check-in, with its point.
    CheckIn(CheckInKind, u32),
}
