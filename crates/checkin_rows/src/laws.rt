//! What holds of the numbers of rows, as the contract of a call that does nothing.
ghost use Rattle.checkin_rows.specs.Marks.{NumbersStay};

/// Where further points are added to a flow, each mark that had a number keeps it.
pub fn numbers_stay()
    ensures { NumbersStay }
{}
