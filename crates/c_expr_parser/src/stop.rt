ghost use Rattle.std.specs.Prelude.{◌≡◌};

use std::alloc::AllocError;

/// Why some tokens aren't what is wanted. A place is reported by the number of tokens that are left there.
#[derive(Clone, Copy)]
pub enum Stop {
    /// The next token doesn't fit, or there is none.
    Stuck(usize),
    /// The next token fits and is too deep.
    Deep(usize),
    /// Lack of memory.
    Memory,
}

impl From<AllocError> for Stop {
    ghost use Rattle.c_expr_parser.specs.declared.stop.Stop.TheVariants.{Memory};

    ghost from_gives = { λ _ stop. stop ≡ Memory };

    fn from(_: AllocError) -> Stop {
        Stop::Memory
    }
}
