//! The rows of the older text, and what the newer one changes.
ghost use Rattle.std.proofs.Props.{props};
ghost use Rattle.admits_report.specs.Known.{AreKnown};

use checkin_rows::Rows;
use code_store::StoredBody;
use name_sets::{NameSet, Names};

/// The rows over the store of the older text, and what a newer one changes, by the names of the older one.
#[derive(Drop)]
pub(crate) struct Admission<'a> {
    pub names: &'a Names,
    pub bodies: &'a [StoredBody],
    pub rows: Rows,
    /// The names that change.
    pub changed: NameSet,
    /// Those of them whose interface changes.
    pub interface: NameSet,
    ghost known_changed: { AreKnown names.now changed } by { Prim.hlevel props },
    ghost known_interface: { AreKnown names.now interface } by { Prim.hlevel props },
}
