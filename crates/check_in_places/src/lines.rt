//! The lines of a text.
ghost use Rattle.std.specs.Prelude.{◌≡◌, ◌++◌, IfOk, OnOk};
ghost use Rattle.std.proofs.Props.{props};
ghost use Rattle.dsu_report.specs.Places.{line_at, column_at};
ghost use Rattle.check_in_places.specs.LineStarts.{start_if, line_starts, IsLineAt};

use std::alloc::{AllocError, Global};

/// A text, and where its lines begin: a place is found without going over the text again.
#[derive(Drop)]
pub struct Lines<'a> {
    /// Only contracts read it: a place is one of this text.
    text: &'a [u8],
    starts: Vec<usize>,
    ghost all: { starts.items ≡ line_starts text.now } by { Prim.hlevel props },
}

impl<'a> Lines<'a> {
    /// The lines of a text, by one pass over it.
    pub fn of(alloc: Global, text: &'a [u8]) -> Result<Lines<'a>, AllocError>
        ensures { IfOk result (λ lines. lines.text.now ≡ text.now) }
    {
        let mut starts = Vec::new(alloc);
        starts.push(0)?;
        for at in 0..text.len() {
            add_start(&mut starts, text[at], at + 1)?;
        }
        Ok(Lines { text, starts })
    }

    /// The line of a byte: the number of lines that begin at or before it.
    fn line(&self, at: usize) -> usize
        ensures { IsLineAt self.now.text.now at result }
    {
        self.starts.as_slice().partition_point(|start| *start <= at)
    }

    /// The line and the column of a byte, each counted from 1. A place past the end is counted as one in the last line.
    pub fn place(&self, at: usize) -> (usize, u128)
        ensures line { result.0 ≡ line_at self.now.text.now at }
        ensures column { result.1 ≡ column_at self.now.text.now at }
    {
        let line = self.line(at);
        let before = at - self.starts[line - 1];
        (line, before as u128 + 1)
    }
}

/// Adds the place after a byte, if a line begins there.
fn add_start(starts: &mut Vec<usize>, byte: u8, next: usize) -> Result<(), AllocError>
    ensures { OnOk result (starts.new.items ≡ starts.old.items ++ start_if byte next) }
{
    if byte != b'\n' {
        return Ok(());
    }
    starts.push(next)?;
    Ok(())
}
