//! What the texts of a run say of its versioned definitions, each as the contract of a call that does nothing.

ghost use Rattle.version_laws.specs.HistoryLaws.{EntersAlike, FirstHistory, NextHistory, ObjectsAlwaysFit, RightByTexts, TextIsLast};

/// The table of a first text that defines `main` is that of this text.
pub fn first_table_is_a_history()
    ensures { FirstHistory }
{}

/// Where a text that defines `main` follows the last one, the next table is that of the texts with this one more.
pub fn next_table_is_a_history()
    ensures { NextHistory }
{}

/// Definitions that are alike give each function the same frame.
pub fn definitions_enter_alike()
    ensures { EntersAlike }
{}

/// A use of a name on behalf of a version is right exactly where the version's text and the last one give the name the same
/// interface.
pub fn uses_are_right_by_texts()
    ensures { RightByTexts }
{}

/// In each world that a run comes to, the table is that of the texts installed so far, and the text is the last of them.
pub fn text_is_the_last()
    ensures { TextIsLast }
{}

/// In each world that a run comes to, each object has the fields of its struct's layout, in order, where its text defines
/// the struct.
pub fn objects_always_fit()
    ensures { ObjectsAlwaysFit }
{}
