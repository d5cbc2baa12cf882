//! The row in force.
ghost use Rattle.std.specs.Prelude.{◌≡◌, ℕ, ◌<◌, List, length};
ghost use Rattle.name_sets.specs.Texts.{text_of};
ghost use Rattle.c_tree.specs.BareExpr.{Bytes};
ghost use Rattle.c_semantics.specs.Store.{Body, Start};
ghost use Rattle.code_store.specs.Stored.{IsStoreOf};
ghost use Rattle.checkin_rows.specs.Rows.{AreRowsOf, IsRow};
ghost use Rattle.rows_in_force.specs.Origins.{function_of, mark_at, mark_of};
ghost use Rattle.rows_in_force.specs.Steps.{IsEntering};

use crate::bodies::{body_in, generation_by, has_entry};
use crate::check_ins::number_after;
use crate::origin::Origin;
use checkin_rows::{Row, Rows};
use code_store::StoredBody;
use name_sets::{NameId, NameSet};

/// The row of a thread that enters a function of which there is no code: it has the function alone.
fn entering(function: NameId) -> Row
    ensures { IsEntering function result }
{
    let mut concrete = NameSet::empty();
    concrete.add(function);
    Row {
        prior: NameSet::empty(),
        future: NameSet::empty(),
        concrete,
    }
}

/// The row of a thread that was started with a function.
fn start_row(rows: &Rows, bodies: &[StoredBody], function: NameId) -> Row
    ensures { (names : List Bytes) (all : List Body) → IsStoreOf names all bodies.now
        → AreRowsOf names all rows.now → function < length names
        → IsRow names all (Start (text_of names function)) result }
{
    if has_entry(bodies, function) {
        *rows.row(rows.start_row(function))
    } else {
        entering(function)
    }
}

/// The row of a thread that passed a check-in in a frame of a function, entered under a version, whose last stop was at a
/// point.
fn passed_row(rows: &Rows, bodies: &[StoredBody], function: NameId, version: u32, point: u32) -> Row
    ensures { (names : List Bytes) (all : List Body) → IsStoreOf names all bodies.now
        → AreRowsOf names all rows.now → function < length names
        → IsRow names all (mark_at all (text_of names function) version point) result }
{
    let generation = generation_by(bodies, function, version);
    let number = match body_in(bodies, function, generation) {
        Some(body) => number_after(body, point),
        None => 0,
    };
    *rows.row(rows.row_id(function, generation, number as usize))
}

/// The row in force by where it comes from, over the bodies of a store and their rows.
pub fn row_of(rows: &Rows, bodies: &[StoredBody], origin: Origin) -> Row
    ensures { (names : List Bytes) (all : List Body) → IsStoreOf names all bodies.now
        → AreRowsOf names all rows.now → function_of origin < length names
        → IsRow names all (mark_of names all origin) result }
{
    match origin {
        Origin::Start(function) => start_row(rows, bodies, function),
        Origin::Passed(function, version, point) => {
            passed_row(rows, bodies, function, version, point)
        }
    }
}
