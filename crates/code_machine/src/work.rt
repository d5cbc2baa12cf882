//! Private work on a copy: what is kept of it.
ghost use Rattle.std.specs.Prelude.{◌≡◌, ◌+◌, length};
ghost use Rattle.std.proofs.Props.{props};
ghost use Rattle.code_kinds.specs.WellFormed.{most_variables};
ghost use Rattle.thread_state.specs.declared.steps.End.{End as Ending};
ghost use Rattle.thread_state.specs.Frames.{most_words};
ghost use Rattle.code_machine.specs.declared.work.Stage.TheVariants.{Done as DoneStage};
ghost use Rattle.code_machine.specs.Done.{IsDone};

use code_image::CodeImage;
use std::sync::Arc;
use thread_state::End;

/// How far a work came.
#[derive(Clone, Copy)]
pub(crate) enum Stage {
    /// There is nothing to be done.
    Empty,
    /// It is to be done.
    Due,
    /// It is done, and ended so.
    Done(End),
}

/// Where a frame goes on: the number of its function, its place and its stack's height.
#[derive(Clone, Copy)]
pub(crate) struct Start {
    pub unit: u32,
    pub place: usize,
    pub height: usize,
}

/// The private work of one thread: the words of its innermost frame as they were handed out, and after its private instructions. It is
/// done without the machine that handed it out, in any thread.
#[derive(Drop)]
pub struct Work {
    pub(crate) image: Arc<CodeImage>,
    pub(crate) stage: Stage,
    pub(crate) from: Start,
    pub(crate) before: Vec<u64>,
    /// Where the frame comes to.
    pub(crate) place: usize,
    pub(crate) height: usize,
    pub(crate) after: Vec<u64>,
    ghost first: { length before.items ≡ most_variables + most_words },
    ghost second: { length after.items ≡ most_variables + most_words },
    ghost done: { (end : Ending) → stage ≡ DoneStage end → IsDone image.value from before.items end place height after.items } by { Prim.hlevel props },
}
