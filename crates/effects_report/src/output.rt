//! The whole text.
ghost use Rattle.std.specs.Prelude.{◌≡◌, ◌≤◌, [], ◌∷◌, length, map, All, IfOk, IsErrOf};
ghost use Rattle.c_front.specs.Accepted.{Accepted};
ghost use Rattle.c_semantics.specs.SourceTexts.{text_of};
ghost use Rattle.c_semantics.specs.Store.{store};
ghost use Rattle.c_semantics.specs.Texts.{definition};
ghost use Rattle.dsu_io.specs.Causes.{Rose};
ghost use Rattle.check_in_places.specs.CheckIns.{functions};
ghost use Rattle.effects_report.specs.EffectsText.{AreBlocksFrom};
ghost use Rattle.effects_report.specs.Shown.{block_of, IsReady};
ghost use Rattle.effects_report.specs.Writing.{Writes};

use crate::report::Report;
use crate::table::names_of;
use crate::write::put_sections;
use c_tree::Program;
use c_types::Typed;
use check_in_places::{Bodies, Lines, bodies_of};
use contextual_effects::solve;
use dsu_io::Sink;
use dsu_report::ReportFault;
use std::alloc::{AllocError, Global};

/// Writes the effects of a text that was accepted. `text` has the bytes of the text.
pub fn write_effects<S: Sink>(
    alloc: Global,
    typed: &Typed,
    text: &[u8],
    sink: &mut S,
) -> Result<(), ReportFault>
    requires { Accepted text.now typed.now }
    ensures bytes { Writes typed.now text.now (S.told sink.old) (S.told sink.new) result }
    ensures later { S.faults sink.old ≤ S.faults sink.new }
    ensures failed { IsErrOf result ReportFault.Failed → Rose (S.faults sink.old) (S.faults sink.new) }
    ensures memory { IsErrOf result ReportFault.Memory → sink.new ≡ sink.old }
{
    let Ok(report) = report_of(alloc, typed.program(), text) else {
        return Err(ReportFault::Memory);
    };
    let sections = report.sections.as_slice();
    match put_sections(
        &report.lines,
        &report.names,
        &report.effects,
        sections,
        sink,
    ) {
        Ok(()) => Ok(()),
        Err(_) => Err(ReportFault::Failed),
    }
}

/// What is written of a program with the bytes of its text.
fn report_of<'a>(alloc: Global, program: &Program, text: &'a [u8]) -> Result<Report<'a>, AllocError>
    requires { Accepted text.now program.now }
    ensures blocks { let read = text_of program.now in
        IfOk result (λ report. AreBlocksFrom (store (read ∷ [])) (definition read.definitions) 0
        (functions program.now) (map (block_of report.names report.effects) report.sections.items)) }
    ensures ready { IfOk result (λ report. All (IsReady report.names) report.sections.items) }
    ensures text { IfOk result (λ report. report.lines.text.now ≡ text.now) }
{
    let names = names_of(alloc, program.definitions.as_slice())?;
    let bodies = bodies_of(alloc, program, &names)?;
    let effects = solve(alloc, &bodies.flow)?;
    let lines = Lines::of(alloc, text)?;
    let Bodies { flow: _, sections } = bodies;
    Ok(Report {
        lines,
        names,
        effects,
        sections,
    })
}
