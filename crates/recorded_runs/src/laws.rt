//! What moves do to the records of transactions, as the contract of a call that does nothing.

ghost use Rattle.recorded_runs.specs.MoveRecords.{MovesKeepRecords};

/// A move that misuses a definition leaves the records of transactions as they are. Each other one adds its use to the open
/// record of its slot, begins it, or closes it, and leaves those of other slots as they are.
pub fn records_follow_moves()
    ensures { MovesKeepRecords }
{}
