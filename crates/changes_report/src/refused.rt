//! Why the newer text is no patch of the older one.
ghost use Rattle.std.specs.Prelude.{◌≡◌, ◌++◌, IfOk, OnOk, codes};
ghost use Rattle.std.specs.Fmt.{decimal};
ghost use Rattle.changes_report.specs.ChangesText.{kind_text, fault_text};

use crate::lines::add;
use dsu_report::line_and_column;
use itoa::Buffer;
use std::alloc::{AllocError, Global};

/// The text where a name is of another sort.
pub(crate) fn kind_text(alloc: Global, name: &str) -> Result<Vec<u8>, AllocError>
    ensures { IfOk result (λ text. text.items ≡ kind_text name.now) }
{
    let mut text = Vec::new(alloc);
    add(&mut text, &[b"not a patch: kind ", name.as_bytes(), b"\n"])?;
    Ok(text)
}

/// The text where a transformer has a fault at a byte of `source`.
pub(crate) fn fault_text(alloc: Global, source: &[u8], at: usize) -> Result<Vec<u8>, AllocError>
    ensures { IfOk result (λ text. text.items ≡ fault_text source.now at) }
{
    let (line, column) = line_and_column(source, at);
    let mut text = Vec::new(alloc);
    add_place(&mut text, line, column)?;
    Ok(text)
}

/// Adds the line of a fault.
fn add_place(text: &mut Vec<u8>, line: usize, column: u128) -> Result<(), AllocError>
    ensures { OnOk result (text.new.items ≡ text.old.items
        ++ codes "not a patch: transform " ++ decimal line ++ codes ":" ++ decimal column ++ codes "\n") }
{
    let mut line_digits = Buffer::new();
    let mut column_digits = Buffer::new();
    let line_text = line_digits.format(line).as_bytes();
    let column_text = column_digits.format(column).as_bytes();
    add(
        text,
        &[
            b"not a patch: transform ",
            line_text,
            b":",
            column_text,
            b"\n",
        ],
    )
}
