//! What a point of a function is.
ghost use Rattle.std.specs.Prelude.{◌≡◌, ◌<◌, ◌↔◌, ℕ, List, IsTrue};
ghost use Rattle.std.specs.Option.{option_map, is_some};
ghost use Rattle.run_types.specs.Skeleton.{direct_use, check_in_of};
ghost use Rattle.run_types.specs.Skeleton as seen;
ghost use Rattle.name_sets.specs.Texts.{text_of};
ghost use Rattle.skeletons.specs.Meaning.{used_at, called_at, called_by, kind_of, point_of};

use name_sets::NameId;

/// What a stop does with the one name that it uses. A field's stop and an object's use the name of the struct.
#[derive(Clone, Copy, Debug, PartialEq, Eq)]
pub enum Use {
    ReadGlobal,
    WriteGlobal,
    ReadElement,
    WriteElement,
    ReadField,
    WriteField,
    New,
    Free,
    InitMutex,
    Lock,
    Unlock,
    Spawn,
    Call,
}

/// What a check-in comes after.
#[derive(Clone, Copy, Debug, PartialEq, Eq)]
pub enum CheckInKind {
    /// The function's entry.
    Entry,
    /// The return of a call.
    Call,
    /// The begin of a transaction.
    Begin,
    /// The end of a transaction.
    End,
    /// An update point.
    Update,
}

/// What a thread does at a point.
#[derive(Clone, Copy, Debug, PartialEq, Eq)]
pub enum PointKind {
    CheckIn(CheckInKind),
    /// A stop that uses a name.
    Uses(Use, NameId),
    Print,
    Join,
    Return,
    /// The back edge of a loop.
    Back,
    /// The begin of a transaction.
    Begin,
    /// The end of a transaction.
    End,
    /// An update point.
    Update,
}

impl PointKind {
    /// The name that is used at the point, if one is.
    pub fn used(self) -> Option<NameId>
        ensures kind { result ≡ used_at self }
        ensures meaning { (names : List (List ℕ))
            → option_map (text_of names) result ≡ direct_use (kind_of names self) }
    {
        match self {
            PointKind::Uses(_, name) => Some(name),
            _ => None,
        }
    }

    /// The function that is called at the point, if one is.
    pub fn called(self) -> Option<NameId>
        ensures kind { result ≡ called_at self }
        ensures meaning { (names : List (List ℕ))
            → option_map (text_of names) result ≡ called_by (kind_of names self) }
    {
        match self {
            PointKind::Uses(action, name) if matches!(action, Use::Call) => Some(name),
            _ => None,
        }
    }

    /// Whether the point is a return.
    pub fn is_return(self) -> bool
        ensures kind { IsTrue result ↔ (self ≡ PointKind.Return) }
        ensures meaning { (names : List (List ℕ)) → IsTrue result ↔ (kind_of names self ≡ seen.Return) }
    {
        matches!(self, PointKind::Return)
    }

    /// Whether the point is a check-in.
    pub fn is_check_in(self) -> bool
        ensures { (names : List (List ℕ)) → result ≡ is_some (check_in_of (kind_of names self)) }
    {
        matches!(self, PointKind::CheckIn(_))
    }
}

/// A point, with the number of transactions that enclose it in the function's text: a begin has the depth outside, its
/// check-in and the end have the depth inside.
#[derive(Clone, Copy, Debug, PartialEq, Eq)]
pub struct Point {
    pub kind: PointKind,
    pub depth: u32,
}

impl Point {
    /// Whether a transaction encloses the point.
    pub fn is_enclosed(self) -> bool
        ensures { IsTrue result ↔ (0 < self.depth) }
    {
        self.depth > 0
    }

    /// Whether the point is the end of a transaction that no other encloses.
    pub fn is_outer_end(self) -> bool
        ensures kind { IsTrue result ↔ (self ≡ record { kind = PointKind.End; depth = 1 }) }
        ensures meaning { (names : List (List ℕ))
            → IsTrue result ↔ (point_of names self ≡ record { kind = seen.End; depth = 1 }) }
    {
        matches!(self.kind, PointKind::End) && self.depth == 1
    }
}
