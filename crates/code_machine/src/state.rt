//! The state of a run.
use crate::running::Running;
use run_types::TrapKind;
use word_data::WordData;
use word_layouts::WordLayouts;

/// How a run has ended.
#[derive(Clone, Copy, Debug, PartialEq, Eq)]
pub enum Finish {
    /// The first call of `main` returned this.
    Finished(i32),
    /// The thread in a slot trapped.
    Trapped(TrapKind, u8),
}

/// The state of a run, but for its code.
#[derive(Drop)]
pub(crate) struct RunState {
    pub shared: WordData,
    pub slots: Vec<Running>,
    /// How many threads were started.
    pub threads: u64,
    pub finish: Option<Finish>,
    /// What was printed and not taken yet.
    pub output: Vec<u8>,
    /// The numbers of the texts of the versions so far.
    pub versions: Vec<u32>,
    /// That of the version in force.
    pub in_force: u32,
    /// What brings objects to the layouts of newer versions.
    pub layouts: WordLayouts,
    /// Whether the private work that follows a move is left for later.
    pub leaves_work: bool,
}
