//! What holds of the frames of a thread by their definition.
ghost use Rattle.word_frames.specs.Laws.{StackChangesAlone};

/// Where words of the innermost frame's stack are changed and no others, as by a stop on what threads share, its variables and the
/// frames that wait stay as they are. It does nothing.
pub fn stack_changes_alone()
    ensures { StackChangesAlone }
{}
