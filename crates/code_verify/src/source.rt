use bytecode::Instr;
use c_definitions::Known;
use code_kinds::WordKind;
use resolved_tree::Trees;
use std::alloc::AllocError;

/// The text that a body belongs to: the table of its words, and its definitions.
#[derive(Clone, Copy)]
pub struct Source<'a> {
    pub trees: &'a Trees,
    pub known: &'a Known<'a>,
}

/// A function's code, as whoever made it hands it over.
#[derive(Drop)]
pub struct Body {
    /// What the words of its parameters are.
    pub parameters: Vec<WordKind>,
    /// What the word of its value is.
    pub result: WordKind,
    /// How many variables it has at most at once, its parameters with them.
    pub room: u32,
    pub code: Vec<Instr>,
}

/// Code that was found well formed.
#[derive(Drop)]
pub struct Verified {
    pub body: Body,
    /// How many words are on the stack at each place; none where control doesn't come.
    pub heights: Vec<Option<u8>>,
}

/// Why code isn't verified.
#[derive(Debug, Clone, Copy, PartialEq, Eq)]
pub enum VerifyFault {
    /// The place of the first instruction that breaks the body, 0 where it has none.
    Bad(usize),
    /// Memory ran out.
    Memory,
}

impl From<AllocError> for VerifyFault {
    ghost use Rattle.std.specs.Prelude.{◌≡◌};
    ghost use Rattle.code_verify.specs.declared.source.VerifyFault.TheVariants.{Memory};

    ghost from_gives = { λ _ fault. fault ≡ Memory };

    fn from(_: AllocError) -> VerifyFault {
        VerifyFault::Memory
    }
}
