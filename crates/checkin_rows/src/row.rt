//! The numbers of rows, and what has a row.
ghost use Rattle.std.specs.Prelude.{◌≡◌, ℕ, ◌≤◌};
ghost use Rattle.checkin_rows.specs.Limits.{most_rows};

use std::marker::Model;

/// The number of a row. 0 is that of the row of three empty sets.
#[derive(Clone, Copy, Debug, PartialEq, Eq)]
pub struct RowId {
    number: u16,
}

impl Model for RowId {
    ghost Value = { ℕ };

    ghost view = { λ id. id.number };

    ghost inverse = { λ n. record { number = n } };
}

/// Where a row is in force from: the start of a function, or a check-in of a body. Functions go by the number of their id.
#[derive(Clone, Copy, PartialEq, Eq, Hash)]
pub enum Mark {
    Start(u16),
    /// The function, the generation of the body, and the number of the check-in in it.
    CheckIn(u16, u32, usize),
}

impl RowId {
    /// The id with this number.
    pub(crate) fn at(index: usize) -> RowId
        requires { index ≤ most_rows }
        ensures { result ≡ index }
    {
        RowId {
            number: index as u16,
        }
    }

    /// The number.
    pub fn index(self) -> usize
        ensures { result ≡ self }
    {
        self.number as usize
    }
}
