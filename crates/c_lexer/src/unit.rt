ghost use Rattle.std.specs.Prelude.{◌≡◌};
ghost use Rattle.c_lexer.specs.Cut.{fault_at};

use crate::token::{LexFault, TokenKind};

/// A unit of a text: what is at a place, up to the next unit.
#[derive(Clone, Copy)]
pub struct Unit {
    /// Its length in bytes.
    pub len: usize,
    pub reading: Reading,
}

/// How a unit is read: it stands between tokens, is a token, or is a fault.
#[derive(Clone, Copy)]
pub enum Reading {
    Space,
    Lexeme(TokenKind),
    Bad(Fault),
}

/// Why a unit is a fault.
#[derive(Clone, Copy)]
pub enum Fault {
    Byte,
    Literal,
    Directive,
}

impl Fault {
    /// The fault, where its unit begins at the place.
    pub fn at(self, place: usize) -> LexFault
        ensures { result ≡ fault_at place self }
    {
        match self {
            Fault::Byte => LexFault::BadByte(place),
            Fault::Literal => LexFault::BadLiteral(place),
            Fault::Directive => LexFault::Directive(place),
        }
    }
}
