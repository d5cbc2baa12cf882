use dsu_io::{List, Text};
use thiserror::Error;

/// A newer text, and the number of printed lines after which it is offered.
#[derive(Drop)]
pub struct Offer {
    pub file: Text,
    pub lines: u32,
}

/// Which engine runs a program.
#[derive(Clone, Copy)]
pub enum EngineKind {
    /// The engine that executes code.
    Compiled,
    /// The engine that walks trees.
    Plain,
}

/// `run`: a program's text and how it is run.
#[derive(Drop)]
pub struct RunJob {
    pub file: Text,
    /// In the order of the words.
    pub offers: List<Offer>,
    /// The number of workers; without one, the threads act by the solo schedule.
    pub workers: Option<u32>,
    /// The most moves.
    pub moves: u32,
    /// The most objects that live at once.
    pub objects: u32,
    pub engine: EngineKind,
    /// Whether the journal is written.
    pub journal: bool,
}

/// `replay`: a program's text and the journal of its run.
#[derive(Drop)]
pub struct ReplayJob {
    pub file: Text,
    pub journal: Text,
    /// In the order of the words.
    pub offers: List<Offer>,
    /// The most objects that live at once.
    pub objects: u32,
    pub engine: EngineKind,
}

/// What the words ask for.
#[derive(Drop)]
pub enum Job {
    Run(RunJob),
    Replay(ReplayJob),
    /// The file to check.
    Check(Text),
    /// The file whose effects are reported.
    Effects(Text),
    /// The old file and the new one.
    Changes(Text, Text),
    /// The text of a run, and the one that it could take.
    Admits(Text, Text),
    /// The seed and the size of a made-up program, and the engine that runs it.
    Gen(u64, u32, EngineKind),
}

/// Whether a command explains what it does.
#[derive(Clone, Copy)]
pub enum Detail {
    Plain,
    /// As `--explain` asks.
    Explained,
}

/// A job, and whether it is explained.
#[derive(Drop)]
pub struct Request {
    pub job: Job,
    pub detail: Detail,
}

/// Why there is no request.
#[derive(Debug, Clone, Copy, PartialEq, Eq, Error)]
pub enum CliFault {
    /// The words fit no line of the definition.
    #[error("the words fit no command")]
    Usage,
    #[error("want of memory")]
    Memory,
}
