//! What an engine asks of a run.
ghost use Rattle.std.specs.Prelude.{◌≡◌, option_map};
ghost use Rattle.resolved_tree.specs.Nodes.{Table};
ghost use Rattle.code_machine.specs.Queries.{place_seen, waiting_of as code_waiting_of};
ghost use Rattle.code_machine.specs.Seen.{finish_of, words_of};
ghost use Rattle.source_runner.specs.Queries.{place_at};
ghost use Rattle.source_runner.specs.States.{ending_of};
ghost use Rattle.source_runner.specs.Waits.{waiting_of};
ghost use Rattle.compiled_run.specs.Compiled.{seen_place};

use crate::run::CompiledRun;
use c_types::Typed;
use code_image::CodeImage;
use code_machine::{CodeWait, Finish, FramePlace};
use code_run_laws::code_moves_as_the_source_machine;
use resolved_tree::Word;
use run_machine::{Machine, Moved};
use run_types::Ending;
use source_runner::{FrameAt, SourceWait, Stepped};
use std::alloc::AllocError;
use type_transformers::Change;

/// Where a frame is.
fn frame_at(place: Option<FramePlace>) -> Option<FrameAt>
    ensures { (t : Table) → option_map (place_at t) result ≡ option_map seen_place (option_map (place_seen t) place) }
{
    match place {
        Some(place) => Some(FrameAt {
            function: place.function,
            version: place.version,
            point: place.point,
        }),
        None => None,
    }
}

/// What a thread waits for, with the names of the texts.
fn awaited(image: &CodeImage, wait: Option<CodeWait>) -> Option<SourceWait<'_>>
    ensures { option_map waiting_of result ≡ option_map (code_waiting_of (words_of image.now)) wait }
{
    match wait {
        Some(CodeWait::Mutex(name, holder)) => {
            Some(SourceWait::Mutex(image.word(name), holder as usize))
        }
        Some(CodeWait::Thread(slot)) => Some(SourceWait::Thread(slot as usize)),
        None => None,
    }
}

/// How a run has ended.
fn ending(finish: Option<Finish>) -> Option<Ending>
    ensures { result ≡ ending_of (option_map finish_of finish) }
{
    match finish {
        Some(Finish::Finished(n)) => Some(Ending::Finished(n)),
        Some(Finish::Trapped(kind, slot)) => Some(Ending::Trap(kind, slot)),
        None => None,
    }
}

impl Machine for CompiledRun {
    ghost use Rattle.compiled_run.specs.Compiled.{CanBeAsked, Lasts, Spent, compiled_shown};

    ghost shown = { compiled_shown };

    ghost lasts = { Lasts };

    ghost spent = { Spent };

    ghost asks = { CanBeAsked };

    #[inline(always)]
    fn step(&mut self, slot: u8) -> Result<Moved, AllocError> {
        if self.failed {
            return Err(AllocError);
        }
        match self.make_move(slot) {
            Ok(moved) => Ok(moved),
            Err(error) => {
                self.failed = true;
                Err(error)
            }
        }
    }

    fn install(&mut self, number: usize, changes: &[Change]) -> Result<Stepped, AllocError> {
        self.install_text(number, changes)
    }

    fn output_from(&self, from: usize) -> &[u8] {
        let output = self.machine.output();
        if from < self.kept {
            return output;
        }
        let start = from - self.kept;
        // An output never shrinks.
        if output.len() < start {
            return output;
        }
        &output[start..]
    }

    #[inline(always)]
    fn forget(&mut self) {
        if let Some(kept) = self.kept.checked_add(self.machine.output().len()) {
            self.kept = kept;
            self.machine.forget();
        }
    }

    fn misused(&self) -> bool {
        false
    }

    #[inline(always)]
    fn ending(&self) -> Option<Ending> {
        ending(self.machine.finish())
    }

    #[inline(always)]
    fn is_live(&self, slot: u8) -> bool {
        self.machine.is_live(slot)
    }

    #[inline(always)]
    fn can_move(&self, slot: u8) -> bool {
        code_moves_as_the_source_machine();
        if self.machine.finish().is_some() {
            return false;
        }
        if !self.machine.is_live(slot) {
            return false;
        }
        !self.machine.is_held(slot)
    }

    fn waits(&self, slot: u8) -> Option<SourceWait<'_>> {
        code_moves_as_the_source_machine();
        awaited(self.machine.image(), self.machine.waits(slot))
    }

    fn text(&self, number: usize) -> Option<&Typed> {
        self.texts.get(number)
    }

    fn word(&self, word: Word) -> &str {
        self.machine.image().word(word)
    }

    fn in_transaction(&self, slot: u8) -> bool {
        self.machine.in_transaction(slot)
    }

    fn frame(&self, slot: u8) -> Option<FrameAt> {
        frame_at(self.machine.frame_up(slot, 0))
    }

    fn frame_up(&self, slot: u8, up: usize) -> Option<FrameAt> {
        frame_at(self.machine.frame_up(slot, up))
    }

    fn next_point(&self, slot: u8) -> Option<u32> {
        match self.machine.next_stop(slot) {
            Some(next) => Some(next.point),
            None => None,
        }
    }

    fn entering(&self, slot: u8) -> Option<Word> {
        self.machine.entering(slot)
    }
}
