ghost use Rattle.std.specs.Prelude.{◌≡◌, ◌<◌, ◌+◌, ◌-◌, ◌^◌, ◌==◌, ◌++◌, ◌∷◌, [], IfOk, OnOk, false, length, nat_lt, if◌then◌else◌};
ghost use Rattle.source_model.specs.Guards.{Guard, Setup};
ghost use Rattle.source_model.specs.Journals.{answers};
ghost use Rattle.job_answers.specs.Generated.{summary_text, unmarked};
ghost use Rattle.job_answers.specs.Reports.{run_text};

use dsu_io::{List, StdSink};
use dsu_runs::Engine;
use reported_runs::write_run;
use run_types::Ending;
use std::alloc::{AllocError, Global};

/// How long the mark `# ` is with which each line of a report begins.
const MARK_LEN: usize = 2;

/// The summary of a run that ended: the words of `gen`, how many lines the program printed, what was answered to the offers of
/// some texts, and the ending.
pub(crate) fn summary_of<T: Engine>(
    alloc: Global,
    seed: u64,
    size: u32,
    lines: usize,
    texts: &[List<u8>],
    ending: Ending,
    engine: &T,
) -> Result<Vec<u8>, AllocError>
    ensures { IfOk result (λ summary. T.asks engine.now → (setup : Setup) (g : Guard) → T.is_at setup g engine.now → length g.seats ≡ length g.world.slots
        → summary.items ≡ summary_text seed size lines (run_text false [] (answers setup g) texts.now ending g.world)) }
{
    match report_of(alloc, texts, ending, engine) {
        Ok(report) => summary(alloc, seed, size, lines, &report),
        Err(_) => Err(AllocError),
    }
}

/// The report of a run that ended.
fn report_of<T: Engine>(
    alloc: Global,
    texts: &[List<u8>],
    ending: Ending,
    engine: &T,
) -> Result<Vec<u8>, AllocError>
    ensures { IfOk result (λ report. T.asks engine.now → (setup : Setup) (g : Guard) → T.is_at setup g engine.now → length g.seats ≡ length g.world.slots
        → report.items ≡ run_text false [] (answers setup g) texts.now ending g.world) }
{
    let mut page = StdSink::new(Vec::new(alloc));
    match write_run(false, &[], texts, ending, engine, &mut page) {
        Ok(()) => Ok(page.into_inner()),
        Err(_) => Err(AllocError),
    }
}

/// The summary with a report.
fn summary(
    alloc: Global,
    seed: u64,
    size: u32,
    lines: usize,
    report: &[u8],
) -> Result<Vec<u8>, AllocError>
    ensures { IfOk result (λ summary. summary.items ≡ summary_text seed size lines report.now) }
{
    let mut head = String::new(alloc);
    write!(head, "gen {seed} {size}\nlines {lines}\n")?;
    let mut summary = head.into_bytes();
    add_unmarked(&mut summary, report)?;
    Ok(summary)
}

/// Adds a report without the mark `# ` of each line.
fn add_unmarked(summary: &mut Vec<u8>, report: &[u8]) -> Result<(), AllocError>
    ensures { OnOk result (summary.new.items ≡ summary.old.items ++ unmarked report.now) }
{
    let mut column = 0;
    for byte in report {
        add_past_mark(summary, *byte, column)?;
        column = column_after(*byte, column);
    }
    Ok(())
}

/// Adds a byte of a line, unless it is one of the mark.
fn add_past_mark(summary: &mut Vec<u8>, byte: u8, column: usize) -> Result<(), AllocError>
    ensures { OnOk result (summary.new.items ≡ summary.old.items ++ (if nat_lt column 2 then [] else byte ∷ [])) }
{
    if column >= MARK_LEN {
        summary.push(byte)?;
    }
    Ok(())
}

/// The column after a byte: a newline ends its line.
fn column_after(byte: u8, column: usize) -> usize
    requires { column < 2 ^ 64 - 1 }
    ensures { result ≡ (if byte == 10 then 0 else column + 1) }
{
    if byte == b'\n' { 0 } else { column + 1 }
}
