//! The words of kinds of check-ins.
ghost use Rattle.std.specs.Prelude.{◌≡◌};
ghost use Rattle.skeletons.specs.Meaning.{check_in_of};
ghost use Rattle.check_in_places.specs.CheckIns.{kind_word};

use skeletons::CheckInKind;

/// The word of a kind of check-in.
pub fn kind_word(kind: CheckInKind) -> &'static [u8]
    ensures { result.now ≡ kind_word (check_in_of kind) }
{
    match kind {
        CheckInKind::Entry => b"entry",
        CheckInKind::Call => b"call",
        CheckInKind::Begin => b"begin",
        CheckInKind::End => b"end",
        CheckInKind::Update => b"update",
    }
}
