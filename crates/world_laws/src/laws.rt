//! Laws of what worlds hold, each as the contract of a call that does nothing.

ghost use Rattle.world_laws.specs.WorldLaws.{FirstWorldHolds, InstallsHold, NamedOnce, NamesAreOfTexts, WorldsHold};

/// In each world that a run comes to, the globals and arrays are named as in its text.
pub fn names_are_those_of_texts()
    ensures { NamesAreOfTexts }
{}

/// An accepted text names each global and array once.
pub fn accepted_texts_name_each_once()
    ensures { NamedOnce }
{}

/// The first world holds the globals, arrays and mutexes of its text.
pub fn first_world_holds_its_globals()
    ensures { FirstWorldHolds }
{}

/// An install of a newer text leaves a world that holds those of this text.
pub fn installs_keep_globals()
    ensures { InstallsHold }
{}

/// Each world that a run of accepted texts comes to holds the globals, arrays and mutexes of its text.
pub fn worlds_hold_their_globals()
    ensures { WorldsHold }
{}
