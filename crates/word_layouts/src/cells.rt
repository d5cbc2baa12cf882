//! The words of globals whose type changes.
ghost use Rattle.std.specs.Prelude.{◌≡◌, ◌-◌, ◌++◌, List, ◌∷◌, [], Some, IfOk, length, map, replicate, take};
ghost use Rattle.c_tree.specs.BareExpr.{Bytes};
ghost use Rattle.c_tree.specs.BareDef.{BareDef};
ghost use Rattle.c_semantics.specs.Texts.{definition, global_type};
ghost use Rattle.constant_values.specs.Kinds.{converted_to_kind, kind_of};
ghost use Rattle.local_evaluation.specs.Values.{seen};
ghost use Rattle.versioned_structs.specs.Formulas.{value_in};
ghost use Rattle.bytecode.specs.Words.{word_of};
ghost use Rattle.code_runs.specs.CodeInstalls.{Transforms};
ghost use Rattle.type_transformers.specs.Changes.{IsGlobalChange};
ghost use Rattle.word_layouts.specs.WordValues.{by_word, read_word};
ghost use Rattle.word_layouts.specs.ChangedCells.{changed_cells};

use crate::words::{read, word};
use constant_values::{ValueKind, converted};
use local_evaluation::Value;
use std::alloc::{AllocError, Global};
use type_transformers::GlobalChange;
use versioned_structs::Formula;

/// The words of the cells of a global after a change, from those before it, which have a kind. A length that doesn't fit in memory is
/// reported as out of memory.
pub fn cells_after(
    alloc: Global,
    change: &GlobalChange,
    kind: ValueKind,
    words: &[u64],
) -> Result<Vec<u64>, AllocError>
    ensures words { IfOk result (λ new. new.items ≡ changed_cells kind change.now words.now) }
    ensures transforms { (p q : List BareDef) (name : Bytes) (before : BareDef)
        → IsGlobalChange p q name change.now → definition p name ≡ Some before → kind_of (global_type (Some before)) ≡ kind
        → IfOk result (λ new. Transforms p q name before words.now new.items) }
{
    match change {
        GlobalChange::Given(to, formula) => given(alloc, formula, kind, *to, words),
        GlobalChange::Copied(count, _) => filled(alloc, *count, words),
        GlobalChange::Zero(count, _) => filled(alloc, *count, &[]),
    }
}

/// The word of the value of a formula over the old cells, converted to a kind.
fn given(
    alloc: Global,
    formula: &Formula,
    from: ValueKind,
    to: ValueKind,
    words: &[u64],
) -> Result<Vec<u64>, AllocError>
    ensures { IfOk result (λ new. new.items
        ≡ word_of by_word (converted_to_kind to (value_in (map (read_word from) words.now) formula.now)) ∷ []) }
{
    let old = values(alloc, from, words)?;
    let new = converted(to, formula.value(old.as_slice()));
    Vec::from_slice(alloc, &[word(new)])
}

/// The values of a kind that words are read as.
fn values(alloc: Global, kind: ValueKind, words: &[u64]) -> Result<Vec<Value>, AllocError>
    ensures { IfOk result (λ values. map seen values.items ≡ map (read_word kind) words.now) }
{
    let mut values = Vec::with_capacity(alloc, words.len())?;
    for word in words {
        values.push(read(kind, *word))?;
    }
    Ok(values)
}

/// Words, cut or filled with 0 to a number.
fn filled(alloc: Global, count: usize, words: &[u64]) -> Result<Vec<u64>, AllocError>
    ensures { IfOk result (λ new. new.items ≡ take count words.now ++ replicate (count - length words.now) 0) }
{
    let mut new = Vec::from_slice(alloc, words)?;
    new.resize(count, 0)?;
    Ok(new)
}
