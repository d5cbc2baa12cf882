//! The install of a newer text.
ghost use Rattle.std.specs.Prelude.{◌≡◌, ◌++◌, [], ◌∷◌, All, IfOk, List, OnErr, map, slice_index_or, ℕ};
ghost use Rattle.c_tree.specs.BareDef.{BareDef};
ghost use Rattle.source_model.specs.Runs.{SourceMove as Made, Install as InstallOf};
ghost use Rattle.source_model.specs.Worlds.{Limits};
ghost use Rattle.version_laws.specs.Histories.{last_text, versions_by};
ghost use Rattle.type_transformers.specs.Changes.{IsChange, changing, name_of};
ghost use Rattle.code_runs.specs.CodeData.{Names};
ghost use Rattle.word_installs.specs.NewRows.{AreNewRows};
ghost use Rattle.word_layouts.specs.WordChanges.{AreChangesOf};
ghost use Rattle.image_load.specs.TextTables.{IsDataOf};
ghost use Rattle.run_machine.specs.Machines.{CameBy, KeepsTexts, NeedsHold};
ghost use Rattle.compiled_run.specs.Compiled.{CanBeAsked, Lasts, compiled_shown};

use crate::run::CompiledRun;
use code_install_laws::accepted_texts_are_coded;
use code_run_laws::code_moves_as_the_source_machine;
use image_load::TextData;
use source_runner::Stepped;
use std::alloc::{AllocError, Global};
use type_transformers::Change;
use word_data::WordData;
use word_installs::{NewRow, prepare_rows};
use word_layouts::{VersionChanges, prepare};

/// What is prepared for an install.
#[derive(Drop)]
pub(crate) struct Prepared {
    pub rows: Vec<NewRow>,
    pub changes: VersionChanges,
}

/// Prepares the install of a text after another, by the tables of both: the new words of globals and arrays, and what brings objects to
/// the layouts of the text.
fn prepare_install(
    alloc: Global,
    shared: &WordData,
    old: &TextData,
    new: &TextData,
    changes: &[Change],
) -> Result<Prepared, AllocError>
    ensures { (names : Names) (p q : List BareDef) → IsDataOf names p old.now → IsDataOf names q new.now
        → map name_of changes.now ≡ changing p q → All (IsChange p q) changes.now
        → IfOk result (λ made. AreNewRows names.cells p q shared.now made.rows.items × AreChangesOf p q names.tags made.changes) }
{
    let layouts = prepare(
        alloc,
        old.layouts.as_slice(),
        new.layouts.as_slice(),
        changes,
    )?;
    let rows = prepare_rows(
        alloc,
        shared,
        old.rows.as_slice(),
        new.rows.as_slice(),
        changes,
    )?;
    Ok(Prepared {
        rows,
        changes: layouts,
    })
}

/// A number of a text as a machine counts texts. One that is too large isn't that of a text in memory.
fn text_number(number: usize) -> Result<u32, AllocError>
    ensures { IfOk result (λ n. n ≡ number) }
{
    match u32::try_from(number) {
        Ok(n) => Ok(n),
        Err(_) => Err(AllocError),
    }
}

impl CompiledRun {
    /// Installs the text with a number, if there is one and the run isn't over.
    pub(crate) fn install_text(
        &mut self,
        number: usize,
        changes: &[Change],
    ) -> Result<Stepped, AllocError>
        ensures made { (texts : List (List BareDef)) (limits : Limits) (moves : List Made)
            → (compiled_shown self.old).is_run texts limits moves
            → NeedsHold (compiled_shown self.old) texts limits (moves ++ InstallOf number ∷ [])
            → let p = last_text (versions_by texts moves) in let q = slice_index_or texts number [] in
            map name_of changes.now ≡ changing p q → All (IsChange p q) changes.now
            → IfOk result (CameBy texts limits moves (InstallOf number) (compiled_shown self.new)) }
        ensures stays { OnErr result ((texts : List (List BareDef)) (limits : Limits) (moves : List Made)
            → (compiled_shown self.old).is_run texts limits moves → (compiled_shown self.new).is_run texts limits moves) }
        ensures same { KeepsTexts (compiled_shown self.old) (compiled_shown self.new) }
        ensures kept { (compiled_shown self.new).kept ≡ (compiled_shown self.old).kept }
        ensures lasts { (n : ℕ) → Lasts n self.old → Lasts n self.new }
        ensures asked { CanBeAsked self.old → CanBeAsked self.new }
    {
        accepted_texts_are_coded();
        code_moves_as_the_source_machine();
        if self.machine.finish().is_some() {
            return Ok(Stepped::CannotMove);
        }
        let tables = self.tables.as_slice();
        let Some(new) = tables.get(number) else {
            return Ok(Stepped::CannotMove);
        };
        let Some(old) = tables.get(self.machine.in_force() as usize) else {
            return Ok(Stepped::CannotMove);
        };
        let text = text_number(number)?;
        let made = prepare_install(self.alloc, self.machine.shared(), old, new, changes)?;
        self.machine
            .install(text, made.rows, new.gone.as_slice(), made.changes)?;
        Ok(Stepped::Done)
    }
}
