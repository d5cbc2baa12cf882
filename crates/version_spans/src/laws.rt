//! What becomes of the versions of entries, each law as the contract of a call that does nothing.

ghost use Rattle.version_spans.specs.SpanLaws.{NextVersion, TablesFollow, TablesOfRuns, VersionsStay};

/// An install leaves to each use its versions so far.
pub fn versions_stay()
    ensures { VersionsStay }
{}

/// An install gives the next version to the uses that have the current one and whose definition stays the same.
pub fn next_version_by_definitions()
    ensures { NextVersion }
{}

/// Where a text that defines `main` follows the last one, the next table is that of the texts with this one more.
pub fn tables_follow()
    ensures { TablesFollow }
{}

/// In each world that a run comes to, the table is that of the texts installed so far.
pub fn tables_of_runs()
    ensures { TablesOfRuns }
{}
