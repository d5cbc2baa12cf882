//! What a thread evaluates by itself.
ghost use Rattle.std.specs.Prelude.{◌≡◌};
ghost use Rattle.local_evaluation.specs.Ends.{halt_of, own_stop, shared_read, shared_write};

use crate::piece::{Piece, Stop};
use crate::value::Value;
use resolved_tree::{Place, Word};
use run_types::TrapKind;

/// A part of the scopes of a frame.
#[derive(Clone, Copy)]
pub enum Local {
    /// A scope begins.
    Block,
    /// A variable in the scope that began last.
    Variable(Word, Value),
}

/// What a frame has still to evaluate, its values and its variables; in each the newest is the last.
#[derive(Drop)]
pub struct Work {
    pub pieces: Vec<Piece>,
    pub values: Vec<Value>,
    pub scopes: Vec<Local>,
}

/// How local evaluation ends.
#[derive(Clone, Copy)]
pub enum Halt {
    /// Before a stop at the point with a number.
    At(Stop, u32),
    /// With a trap.
    Trap(TrapKind),
    /// With nothing left to do.
    Nothing,
}

/// How the step of a piece ends local evaluation. It is much smaller than [`Halt`], and a step answers nothing else.
#[derive(Clone, Copy)]
pub(crate) enum End {
    /// Before the stop that the piece itself is.
    Here,
    /// Before the stop at a loop's back edge, at the point with a number.
    Back(u32),
    /// With a trap.
    Trap(TrapKind),
    /// With nothing left to do.
    Nothing,
}

impl End {
    /// How local evaluation ends where the step of a piece ends it so.
    pub(crate) fn halt(self, piece: Piece) -> Halt
        ensures { result ≡ halt_of piece self }
    {
        match self {
            End::Here => own_stop(piece),
            End::Back(n) => Halt::At(Stop::Back, n),
            End::Trap(kind) => Halt::Trap(kind),
            End::Nothing => Halt::Nothing,
        }
    }
}

/// The stop that a piece is: `At`, or the access of a place that isn't a local variable.
fn own_stop(piece: Piece) -> Halt
    ensures { result ≡ own_stop piece }
{
    match piece {
        Piece::At(stop, n) => Halt::At(stop, n),
        Piece::Get(place, n) => shared_read(place, n),
        Piece::Set(place, n) => shared_write(place, n),
        _ => Halt::Nothing,
    }
}

/// The stop that the read of a place is.
fn shared_read(place: Place, n: u32) -> Halt
    ensures { result ≡ shared_read place n }
{
    match place {
        Place::Local(_) => Halt::Nothing,
        Place::Global(name) => Halt::At(Stop::ReadGlobal(name), n),
        Place::Element(name, _) => Halt::At(Stop::ReadElement(name), n),
        Place::Field(tag, _, name) => Halt::At(Stop::ReadField(tag, name), n),
    }
}

/// The stop that the write of a place is.
fn shared_write(place: Place, n: u32) -> Halt
    ensures { result ≡ shared_write place n }
{
    match place {
        Place::Local(_) => Halt::Nothing,
        Place::Global(name) => Halt::At(Stop::WriteGlobal(name), n),
        Place::Element(name, _) => Halt::At(Stop::WriteElement(name), n),
        Place::Field(tag, _, name) => Halt::At(Stop::WriteField(tag, name), n),
    }
}

/// A statement by which a loop's body is left.
#[derive(Clone, Copy)]
pub(crate) enum Jump {
    Break,
    Continue,
}
