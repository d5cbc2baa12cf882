//! A verified body.
ghost use Rattle.std.specs.Prelude.{◌≡◌, ◌<◌, ◌≤◌, ◌+◌, length, slice_get, Some, IfOk, IfErr};
ghost use Rattle.resolved_tree.specs.Nodes.{Table};
ghost use Rattle.bytecode.specs.Seen.{code_of};
ghost use Rattle.code_verify.specs.Seen.{function_code};
ghost use Rattle.code_verify.specs.Verified.{IsVerified, Explains};
ghost use Rattle.thread_state.specs.Frames.{IsSameOutside, most_words, state_at};
ghost use Rattle.thread_state.specs.Heights.{HasHeight};
ghost use Rattle.thread_state.specs.Bursts.{Bursts};
ghost use Rattle.sound_code.specs.Executable.{IsExecutable};
ghost use Rattle.sound_code.proofs.Propositions.{executable_prop};

use bytecode::Instr;
use code_verify::{Body, Source, Verified, VerifyFault, verify};
use name_sets::NameId;
use sound_code::verified_code_is_sound;
use std::alloc::Global;
use thread_state::{Reached, burst};

/// A function's code that was verified, with what its execution needs at hand.
#[derive(Drop)]
pub struct CodeUnit {
    /// The function.
    pub function: NameId,
    /// The version whose text brought the body.
    pub generation: u32,
    /// The code, with the height of the stack at each place.
    pub verified: Verified,
    ghost executable: { IsExecutable verified.body verified.heights.items } by { executable_prop verified.body verified.heights.items },
}

impl CodeUnit {
    /// Verifies the body of a function that a version's text brings. `Bad` comes exactly where it isn't well formed, with the
    /// place of the first instruction that breaks it; `Memory` where memory runs out.
    pub fn verify(
        alloc: Global,
        source: &Source,
        body: Body,
        function: NameId,
        generation: u32,
    ) -> Result<CodeUnit, VerifyFault>
        ensures verified { IfOk result (λ unit. IsVerified (function_code source.now body) unit.verified.heights.items) }
        ensures body { IfOk result (λ unit. unit.verified.body ≡ body) }
        ensures function { IfOk result (λ unit. unit.function ≡ function) }
        ensures generation { IfOk result (λ unit. unit.generation ≡ generation) }
        ensures fault { IfErr result (λ fault. Explains (function_code source.now body) fault) }
    {
        verified_code_is_sound();
        let verified = verify(alloc, source, body)?;
        Ok(CodeUnit {
            function,
            generation,
            verified,
        })
    }

    /// The instruction at a place.
    #[inline(always)]
    pub fn instruction(&self, place: usize) -> Instr
        requires { place < length self.now.verified.body.code.items }
        ensures { slice_get self.now.verified.body.code.items place ≡ Some result }
    {
        self.verified.body.code[place]
    }

    /// How many variables it has at most at once, its parameters with them.
    #[inline(always)]
    pub fn room(&self) -> usize
        ensures { result ≡ self.now.verified.body.room }
    {
        self.verified.body.room as usize
    }

    /// How many parameters it has.
    #[inline(always)]
    pub fn parameters(&self) -> usize
        ensures count { result ≡ length self.now.verified.body.parameters.items }
        ensures room { result ≤ self.now.verified.body.room }
    {
        self.verified.body.parameters.len()
    }

    /// Executes private instructions of a frame of the body from a place on, up to the next stop, back edge or check-in, or up
    /// to a trap. The frame's variables are words from `base` on, and its stack comes after them. It takes no memory, and time
    /// linear in the instructions that it executes.
    #[inline(always)]
    pub fn burst(&self, words: &mut [u64], base: usize, place: usize, height: usize) -> Reached
        requires held { HasHeight self.now.verified.heights.items place height }
        requires space { base + self.now.verified.body.room + most_words ≤ length words.old }
        ensures ends { let room = self.now.verified.body.room in (t : Table) → Bursts (code_of t self.now.verified.body.code.items)
            (state_at words.old base room place height) result.end (state_at words.new base room result.place result.height) }
        ensures held { HasHeight self.now.verified.heights.items result.place result.height }
        ensures elsewhere { IsSameOutside base (base + self.now.verified.body.room + most_words) words.old words.new }
    {
        burst(
            self.verified.body.code.as_slice(),
            self.verified.heights.as_slice(),
            self.verified.body.room as usize,
            words,
            base,
            place,
            height,
        )
    }
}
