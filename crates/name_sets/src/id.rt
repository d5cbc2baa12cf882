//! Numbers that stand for names.
ghost use Rattle.std.specs.Prelude.{◌≡◌, ℕ, ◌<◌};
ghost use Rattle.std.specs.Option.{SomeIff};
ghost use Rattle.name_sets.specs.Limit.{most_names};

use std::marker::Model;

/// The number of ids, which is the number of names that a table has room for.
pub const MOST_NAMES: usize = 2048;

/// The place of a name in its table, below 2,048. Contracts see the number.
#[derive(Clone, Copy, Debug, PartialEq, Eq)]
pub struct NameId {
    index: u16,
}

impl Model for NameId {
    ghost Value = { ℕ };

    ghost view = { λ id. id.index };

    ghost invariant = { λ id. id.index < most_names };

    ghost inverse = { λ n. record { index = n } };
}

impl NameId {
    /// The id with this number, or `None` if there is none.
    pub fn new(index: usize) -> Option<NameId>
        ensures { SomeIff result (index < most_names) index }
    {
        if index < MOST_NAMES {
            Some(NameId::at(index))
        } else {
            None
        }
    }

    /// The number, which is the place in the table.
    pub fn index(self) -> usize
        ensures value { result ≡ self }
        ensures bound { result < most_names }
    {
        self.index as usize
    }

    /// The id with a number that is known to be one.
    pub(crate) fn at(index: usize) -> NameId
        requires { index < most_names }
        ensures { result ≡ index }
    {
        NameId {
            index: index as u16,
        }
    }
}
