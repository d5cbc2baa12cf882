//! The statuses with which a program ends.
ghost use Rattle.std.specs.Prelude.{◌≡◌};
ghost use Rattle.dsu_report.specs.Statuses.{status_of_ending};

use crate::fault::FaultLine;
use run_types::Ending;

impl FaultLine {
    ghost use Rattle.std.specs.Prelude.{◌≡◌};
    ghost use Rattle.dsu_report.specs.Statuses.{status_of_line};

    /// The status of a command that came to nothing by this fault.
    pub fn status(self) -> u8
        ensures { result ≡ status_of_line self }
    {
        match self {
            FaultLine::Usage => 10,
            FaultLine::Place(_, _, _) => 11,
            FaultLine::Unread => 12,
            FaultLine::Write => 13,
            FaultLine::Line(_, _) => 14,
            FaultLine::TooLong => 15,
            FaultLine::Memory => 20,
        }
    }
}

/// The status of a run that ended so.
pub fn ending_status(ending: Ending) -> u8
    ensures { result ≡ status_of_ending ending }
{
    match ending {
        Ending::Finished(_) => 0,
        Ending::Trap(_, _) => 1,
        Ending::Deadlock => 2,
        Ending::Cut => 3,
    }
}
