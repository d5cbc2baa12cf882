//! What holds of the marks of rows in force, as the contracts of calls that do nothing.
ghost use Rattle.rows_in_force.specs.Origins.{MarksAreOfFrames, MarksStay};

/// The mark by a frame's function, version and last stop is the one that the source machine gives the frame.
pub fn marks_are_of_frames()
    ensures { MarksAreOfFrames }
{}

/// Where bodies of later versions are added, a mark stays what it was.
pub fn marks_stay()
    ensures { MarksStay }
{}
