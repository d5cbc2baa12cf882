//! The words of first cells.
ghost use Rattle.std.specs.Prelude.{◌≡◌, All, IfErr, IfOk, map, string_bytes};
ghost use Rattle.c_ints.specs.Number.{value_of};
ghost use Rattle.local_evaluation.specs.Values.{seen};
ghost use Rattle.bytecode.specs.Words.{Naming, integer_word, word_of};
ghost use Rattle.source_programs.specs.Globals.{globals_of};
ghost use Rattle.image_load.specs.declared.fault.LoadFault.TheVariants.{Memory};
ghost use Rattle.image_load.specs.FirstCells.{ArePlain, HaveFirst, IsPlain, cells_in};

use crate::fault::LoadFault;
use c_ints::Int;
use local_evaluation::Value;
use source_programs::Globals;
use std::alloc::Global;

/// The words of the first cells of each of some names; none of a name that isn't that of a global or an array. A fault where a cell has an
/// object or a thread, too.
pub(crate) fn first_rows(
    alloc: Global,
    names: &[String],
    globals: &Globals,
) -> Result<Vec<Vec<u64>>, LoadFault>
    ensures rows { let gs = globals_of globals.now.list.items in
        IfOk result (λ rows. HaveFirst gs (map string_bytes names.now) (map (λ v. v.items) rows.items)) }
    ensures fault { IfErr result (λ fault. All ArePlain (globals_of globals.now.list.items) → fault ≡ Memory) }
{
    let mut rows = Vec::with_capacity(alloc, names.len())?;
    for name in names {
        let made = row_of(alloc, name.as_str(), globals)?;
        rows.push(made)?;
    }
    Ok(rows)
}

/// The words of the first cells of a name.
fn row_of(alloc: Global, name: &str, globals: &Globals) -> Result<Vec<u64>, LoadFault>
    ensures row { let gs = globals_of globals.now.list.items in
        IfOk result (λ row. (naming : Naming) → row.items ≡ map (word_of naming) (cells_in gs name.now)) }
    ensures fault { IfErr result (λ fault. All ArePlain (globals_of globals.now.list.items) → fault ≡ Memory) }
{
    let Some(place) = globals.places.find(name) else {
        return Ok(Vec::new(alloc));
    };
    row(alloc, globals.list[place].cells.as_slice())
}

/// The words of some cells.
pub(crate) fn row(alloc: Global, cells: &[Value]) -> Result<Vec<u64>, LoadFault>
    ensures row { IfOk result (λ row. (naming : Naming) → row.items ≡ map (word_of naming) (map seen cells.now)) }
    ensures fault { IfErr result (λ fault. All IsPlain (map seen cells.now) → fault ≡ Memory) }
{
    let mut words = Vec::with_capacity(alloc, cells.len())?;
    for place in 0..cells.len() {
        let value = cells[place];
        let word = plain_word(value)?;
        words.push(word)?;
    }
    Ok(words)
}

/// The word of an integer, of null, or of no thread.
fn plain_word(value: Value) -> Result<u64, LoadFault>
    ensures word { IfOk result (λ w. (naming : Naming) → w ≡ word_of naming (seen value)) }
    ensures fault { IfErr result (λ fault. IsPlain (seen value) → fault ≡ Memory) }
{
    match value {
        Value::Number(n) => Ok(word_of_int(n)),
        Value::Reference(None) | Value::Started(None) => Ok(0),
        Value::Reference(Some(_)) | Value::Started(Some(_)) => Err(LoadFault::NotAccepted),
    }
}

/// The word of an integer.
fn word_of_int(n: Int) -> u64
    ensures { result ≡ integer_word (value_of n) }
{
    n.value().rem_euclid(0x1_0000_0000_0000_0000) as u64
}
