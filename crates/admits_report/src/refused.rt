//! Why the newer text is no patch of the older one.
ghost use Rattle.std.specs.Prelude.{◌≡◌, ◌≢◌, ◌++◌, IfOk, OnOk, codes};
ghost use Rattle.std.specs.Fmt.{decimal};
ghost use Rattle.dsu_report.specs.Answers.{cause_words};
ghost use Rattle.dsu_report.specs.Places.{line_at, column_at};
ghost use Rattle.admits_report.specs.AdmitsText.{cause_text};
ghost use Rattle.admits_report.specs.Answered.{IsFaultText};

use crate::words::add;
use dsu_report::line_and_column;
use itoa::Buffer;
use patch_build::PatchFault;
use source_model::NotPatch;
use std::alloc::{AllocError, Global};

/// The text of a fault, for the bytes of the newer text, which defines the names that it uses.
pub(crate) fn text_of_fault(
    alloc: Global,
    fault: &PatchFault,
    source: &[u8],
) -> Result<Vec<u8>, AllocError>
    requires { fault.now ≢ PatchFault.UndefinedName }
    ensures { IfOk result (λ text. IsFaultText fault.now source.now text.items) }
{
    match fault {
        PatchFault::Not(cause) => text_of_cause(alloc, cause, source),
        PatchFault::Memory => Err(AllocError),
        PatchFault::UndefinedName => unreachable!(),
    }
}

/// The text where there is no patch. `source` has the bytes of the newer text.
fn text_of_cause(alloc: Global, cause: &NotPatch, source: &[u8]) -> Result<Vec<u8>, AllocError>
    ensures { IfOk result (λ text. text.items ≡ cause_text cause.now source.now) }
{
    let mut text = Vec::new(alloc);
    add(&mut text, &[b"not a patch: "])?;
    add_cause(&mut text, cause, source)?;
    add(&mut text, &[b"\n"])?;
    Ok(text)
}

/// Adds the words of a cause.
fn add_cause(text: &mut Vec<u8>, cause: &NotPatch, source: &[u8]) -> Result<(), AllocError>
    ensures { OnOk result (text.new.items ≡ text.old.items ++ cause_words cause.now source.now) }
{
    match cause {
        NotPatch::Versions => add(text, &[b"versions"]),
        NotPatch::Names => add(text, &[b"names"]),
        NotPatch::Kind(name) => add(text, &[b"kind ", name.as_str().as_bytes()]),
        NotPatch::Transform(at) => add_fault(text, source, *at),
        NotPatch::StoreFull => add(text, &[b"store full"]),
    }
}

/// Adds the words of a transformer's fault at a byte of `source`.
fn add_fault(text: &mut Vec<u8>, source: &[u8], at: usize) -> Result<(), AllocError>
    ensures { OnOk result (text.new.items ≡ text.old.items
        ++ codes "transform " ++ decimal (line_at source.now at) ++ codes ":" ++ decimal (column_at source.now at)) }
{
    let (line, column) = line_and_column(source, at);
    add_place(text, line, column)
}

/// Adds the words of a fault at a line and a column.
fn add_place(text: &mut Vec<u8>, line: usize, column: u128) -> Result<(), AllocError>
    ensures { OnOk result (text.new.items ≡ text.old.items
        ++ codes "transform " ++ decimal line ++ codes ":" ++ decimal column) }
{
    let mut line_digits = Buffer::new();
    let mut column_digits = Buffer::new();
    let line_text = line_digits.format(line).as_bytes();
    let column_text = column_digits.format(column).as_bytes();
    add(text, &[b"transform ", line_text, b":", column_text])
}
