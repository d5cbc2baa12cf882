//! The arguments of a call among the newest values, and the frames that wait.
ghost use Rattle.std.specs.Prelude.{◌≡◌, [], ◌∷◌, map, drop, IfOk, OnOk, MatchOption};
ghost use Rattle.source_model.specs.Moves.{arguments_of};
ghost use Rattle.resolved_tree.specs.Nodes.{Table};
ghost use Rattle.local_evaluation.specs.Values.{seen};
ghost use Rattle.local_evaluation.specs.Work.{newest};
ghost use Rattle.source_runner.specs.Frames.{frame_of, frames_of};

use crate::thread::Frame;
use local_evaluation::Value;
use std::alloc::AllocError;

/// Takes the newest values, which are the arguments of a call, in their order.
pub(crate) fn take_arguments(
    values: &mut Vec<Value>,
    count: usize,
) -> Result<Vec<Value>, AllocError>
    ensures arguments { IfOk result (λ taken. map seen taken.items ≡ arguments_of count (newest values.old.items)) }
    ensures rest { OnOk result (newest values.new.items ≡ drop count (newest values.old.items)) }
{
    let at = values.len().saturating_sub(count);
    values.split_off(at)
}

/// Takes the innermost of the frames that wait.
pub(crate) fn pop_frame(frames: &mut Vec<Frame>) -> Option<Frame>
    ensures { (t : Table) → MatchOption result
        ((frames_of t frames.old.items ≡ []) × (frames_of t frames.new.items ≡ []))
        (λ f. frames_of t frames.old.items ≡ frame_of t f ∷ frames_of t frames.new.items) }
{
    frames.pop()
}

/// Adds a frame that waits.
pub(crate) fn push_frame(frames: &mut Vec<Frame>, frame: Frame) -> Result<(), AllocError>
    ensures { OnOk result ((t : Table) → frames_of t frames.new.items ≡ frame_of t frame ∷ frames_of t frames.old.items) }
{
    frames.push(frame)?;
    Ok(())
}
