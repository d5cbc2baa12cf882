//! The rule of the lock's table, and what each step tells.
use crate::told::Told;
use crate::view::View;
use atomic_table::{Join, Play, Split, TableRule};

/// The rule, told how many passes there are.
pub struct Rule;

impl<W: Told> TableRule<Option<W>, View<W::What>, u32> for Rule {
    ghost use Rattle.pass_lock.specs.Ruled.{Ruled};
    ghost use Rattle.pass_lock.specs.Steps.{first_view};

    ghost holds = { Ruled W.history };

    ghost first = { λ _. first_view };
}

pub(crate) struct Draw;

impl<W: Told> Play<Option<W>, View<W::What>> for Draw {
    ghost use Rattle.pass_lock.specs.Steps.{drew};

    ghost then = { drew W.history };
}

pub(crate) struct Look;

impl<W: Told> Play<Option<W>, View<W::What>> for Look {
    ghost use Rattle.pass_lock.specs.Steps.{looked};

    ghost then = { looked W.history };
}

pub(crate) struct Serve;

impl<W: Told> Play<Option<W>, View<W::What>> for Serve {
    ghost use Rattle.pass_lock.specs.Steps.{served};

    ghost then = { served W.history };
}

/// One pass more.
pub(crate) struct Deal;

impl<E> Split<View<E>> for Deal {
    ghost use Rattle.pass_lock.specs.Steps.{after_split, split_off};

    ghost left = { after_split };

    ghost right = { split_off };
}

/// The passes of both seats.
pub(crate) struct Gather;

impl<E> Join<View<E>> for Gather {
    ghost use Rattle.pass_lock.specs.Steps.{joined, spent};

    ghost both = { joined };

    ghost spent = { spent };
}
