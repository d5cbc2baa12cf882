//! Rows, as sets of ids.
use name_sets::NameSet;

/// The three sets of names by which a thread admits a patch or doesn't.
#[derive(Clone, Copy, PartialEq, Eq, Hash)]
pub struct Row {
    /// What the outermost transaction in progress may have used so far.
    pub prior: NameSet,
    /// What that transaction may still use, callees included.
    pub future: NameSet,
    /// What the code still to run in the active frames may use directly.
    pub concrete: NameSet,
}
