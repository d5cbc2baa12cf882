//! What a machine keeps.
ghost use Rattle.std.specs.Prelude.{◌≤◌, vec_capacity};
ghost use Rattle.std.proofs.Props.{props};
ghost use Rattle.code_machine.specs.Kept.{IsKeptRun};

use crate::state::RunState;
use code_image::CodeImage;
use std::sync::Arc;

/// A run of the code of some texts.
#[derive(Drop)]
pub struct CodeMachine {
    /// It doesn't change, so those who do private work elsewhere share it.
    pub(crate) image: Arc<CodeImage>,
    pub(crate) run: RunState,
    ghost kept: { IsKeptRun image.value run } by { Prim.hlevel props },
    ghost room: { image.value.longest_print ≤ vec_capacity run.output },
}
