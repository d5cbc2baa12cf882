//! What the names of a text mean when the texts of a run are loaded.
use c_definitions::Known;
use c_types::Typed;
use resolved_tree::{Trees, Word};
use source_programs::Places;

/// What all texts of a run share: the words of their trees, the names that functions have, and the numbers of globals and arrays,
/// mutexes, tags and these names.
#[derive(Clone, Copy)]
pub(crate) struct Run<'a> {
    pub texts: &'a [Typed],
    pub trees: &'a Trees,
    pub callees: &'a [Word],
    pub cells: &'a Places,
    pub mutexes: &'a Places,
    pub tags: &'a Places,
    pub functions: &'a Places,
}

/// What the names of a text mean: the definitions of the text, and what its run's texts share.
#[derive(Clone, Copy)]
pub(crate) struct Names<'a> {
    pub known: &'a Known<'a>,
    pub run: Run<'a>,
}
