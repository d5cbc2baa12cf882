//! Runs over texts, and what they must do. One function owns a run: it lends the run to its check, and then drops it.
use c_front::read_text;
use c_types::Typed;
use source_runner::{SourceMove, SourceRun, SourceState};
use std::alloc::{AllocError, Global};
use std::test::Fail;

/// How many slots there are, and how many objects may live at once.
pub(crate) const SLOTS: u8 = 4;

pub(crate) const OBJECTS: u32 = 2;

/// More turns than any of these texts takes.
pub(crate) const TURNS: usize = 1000;

/// The end of most runs.
pub(crate) const DONE: SourceState = SourceState::Finished(0);

/// What a run must do.
pub(crate) trait Check {
    /// Whether a run does.
    fn holds(&self, alloc: Global, run: &mut SourceRun) -> Result<bool, Fail>;
}

/// Some texts, and what the run of the first must do. The others can be installed in it.
pub(crate) type Case<C> = (&'static [&'static str], C);

/// The tree of a text, which has no fault.
pub(crate) fn read(alloc: Global, text: &str) -> Result<Typed, Fail> {
    match read_text(alloc, text.as_bytes()) {
        Ok(typed) => Ok(typed),
        Err(_) => Err(Fail::new("a text has a fault")),
    }
}

/// The trees of some texts.
pub(crate) fn read_all(alloc: Global, sources: &[&str]) -> Result<Vec<Typed>, Fail> {
    let mut texts = Vec::new(alloc);
    for source in sources {
        texts.push(read(alloc, *source)?)?;
    }
    Ok(texts)
}

/// The run of the first of some texts.
fn run_over(alloc: Global, sources: &[&str]) -> Result<SourceRun, Fail> {
    let texts = read_all(alloc, sources)?;
    if texts.is_empty() {
        return Err(Fail::new("there is no text"));
    }
    Ok(SourceRun::new(alloc, texts, OBJECTS, SLOTS)?)
}

/// Whether the run of the first of some texts does what it must.
pub(crate) fn holds<C: Check>(alloc: Global, texts: &[&str], check: &C) -> Result<bool, Fail> {
    let mut run = run_over(alloc, texts)?;
    let held = check.holds(alloc, &mut run);
    drop(run);
    held
}

/// The row of the first case that doesn't hold.
pub(crate) fn first_wrong<C: Check>(
    alloc: Global,
    cases: &[Case<C>],
) -> Result<Option<usize>, Fail> {
    for (row, (texts, check)) in cases.iter().enumerate() {
        if !holds(alloc, *texts, check)? {
            return Ok(Some(row));
        }
    }
    Ok(None)
}

/// Moves the threads in turn, each as often as it can, or up to where so many bytes have been printed. Says whether they
/// have.
pub(crate) fn take_turns(run: &mut SourceRun, printed: Option<usize>) -> Result<bool, AllocError> {
    for _ in 0..TURNS {
        for slot in 0..SLOTS {
            if printed == Some(run.output().len()) {
                return Ok(true);
            }
            run.step(SourceMove::Move(slot))?;
        }
    }
    Ok(false)
}

/// It prints this and ends so.
#[derive(Drop)]
pub(crate) struct Ends(pub &'static str, pub SourceState);

impl Check for Ends {
    fn holds(&self, _alloc: Global, run: &mut SourceRun) -> Result<bool, Fail> {
        take_turns(run, None)?;
        Ok(run.output() == self.0.as_bytes() && run.state() == self.1)
    }
}
