//! A run of some texts by their code.
ghost use Rattle.std.specs.Prelude.{◌≡◌, ◌+◌, ◌<◌, ◌≤◌, ◌^◌, [], ◌∷◌, ◌++◌, IfErr, IfOk, IsOk, List, Ok, length, map, ℕ};
ghost use Rattle.std.specs.Arc.{arc_value};
ghost use Rattle.c_tree.specs.BareDef.{BareDef};
ghost use Rattle.source_model.specs.Runs.{SourceMove as Made, Move as MoveOf};
ghost use Rattle.source_model.specs.Worlds.{Limits};
ghost use Rattle.program_locks.specs.Slots.{most_slots};
ghost use Rattle.object_store.specs.Handles.{creation_limit};
ghost use Rattle.source_programs.specs.Programs.{text_in};
ghost use Rattle.run_machine.specs.Machines.{KeepsTexts, MovedBy, NeedsHold};
ghost use Rattle.image_load.specs.declared.fault.LoadFault.TheVariants.{Memory};
ghost use Rattle.image_load.specs.Loaded.{AreAcceptedAs, HasFewNames};
ghost use Rattle.code_machine.specs.Seen.{code_world, output_of};
ghost use Rattle.compiled_run.specs.Compiled.{CanBeAsked, IsMade, Lasts, Spent, compiled_shown};

use c_types::Typed;
use code_install_laws::{accepted_texts_are_coded, used_names_stay};
use code_machine::{CodeMachine, CodeStep};
use code_run_laws::code_moves_as_the_source_machine;
use image_load::{LoadFault, TextData, load};
use progress_laws::threads_of_runs_go_on;
use run_machine::{MoveMade, Moved};
use std::alloc::{AllocError, Global};
use std::sync::Arc;

/// A run of some texts by their code: of the first, and of those that are installed while it goes on. Its clauses say that it is the
/// source machine's run over the moves that were made; once a step ran out of memory nothing is said of it any more.
#[derive(Drop)]
pub struct CompiledRun {
    pub(crate) machine: CodeMachine,
    /// They don't change, so those who prepare offers elsewhere share them.
    pub(crate) texts: Arc<Vec<Typed>, Global>,
    /// What installs need of each text.
    pub(crate) tables: Vec<TextData>,
    /// How many bytes of what was printed have no text any more.
    pub(crate) kept: usize,
    /// Whether a step ran out of memory.
    pub(crate) failed: bool,
    pub(crate) alloc: Global,
}

impl CompiledRun {
    /// The start of a run of the first of some accepted texts, where so many objects may live at once and so many slots are there; the
    /// other texts may be installed. The code of all is made here. It takes all memory that moves need, if the output is forgotten after
    /// each: 2^32 - 1 moves want no more. It takes time n log n in the texts. Of accepted texts with few names the fault is lack of
    /// memory.
    pub fn new(
        alloc: Global,
        texts: Vec<Typed>,
        objects: u32,
        slots: u8,
    ) -> Result<CompiledRun, LoadFault>
        requires some { 0 < length texts.items }
        requires slots { slots ≤ most_slots }
        ensures run { AreAcceptedAs (map text_in texts.items) → IfOk result (λ r.
            (compiled_shown r).is_run (map text_in texts.items) (record { objects = objects; slots = slots }) []) }
        ensures trees { IfOk result (λ r. (compiled_shown r).trees ≡ texts.items) }
        ensures kept { IfOk result (λ r. (compiled_shown r).kept ≡ 0) }
        ensures lasts { IfOk result (Lasts creation_limit) }
        ensures asked { IfOk result CanBeAsked }
        ensures fault { AreAcceptedAs (map text_in texts.items) → HasFewNames (map text_in texts.items)
            → IfErr result (λ fault. fault ≡ Memory) }
    {
        accepted_texts_are_coded();
        code_moves_as_the_source_machine();
        threads_of_runs_go_on();
        let loaded = load(alloc, texts.as_slice())?;
        let machine = CodeMachine::new(alloc, loaded.image, loaded.cells, objects, slots)?;
        Ok(CompiledRun {
            machine,
            texts: share(alloc, texts)?,
            tables: loaded.texts,
            kept: 0,
            failed: false,
            alloc,
        })
    }

    /// Makes the move of the thread in a slot, if it can be made.
    #[inline(always)]
    pub(crate) fn make_move(&mut self, slot: u8) -> Result<Moved, AllocError>
        ensures moved { (texts : List (List BareDef)) (limits : Limits) (moves : List Made)
            → (compiled_shown self.old).is_run texts limits moves
            → NeedsHold (compiled_shown self.old) texts limits (moves ++ MoveOf slot ∷ [])
            → IfOk result (MovedBy texts limits moves slot (compiled_shown self.new)) }
        ensures same { KeepsTexts (compiled_shown self.old) (compiled_shown self.new) }
        ensures kept { (compiled_shown self.new).kept ≡ (compiled_shown self.old).kept }
        ensures lasts { (n : ℕ) → Lasts (1 + n) self.old → IsOk result × Spent n self.new }
        ensures stays { (n : ℕ) → Lasts n self.old → result ≡ Ok Moved.CannotMove → Lasts n self.new }
        ensures asked { CanBeAsked self.old → CanBeAsked self.new }
    {
        accepted_texts_are_coded();
        code_moves_as_the_source_machine();
        used_names_stay();
        let threads = self.machine.threads();
        match self.machine.step(slot)? {
            CodeStep::CannotMove => Ok(Moved::CannotMove),
            CodeStep::Moved(leads) => self.made(leads, threads),
        }
    }

    /// What came of a move that was made, by whether it led to a check-in, and how many threads were started before it. An error
    /// where more bytes were printed than can be counted.
    fn made(&self, leads: bool, threads: u64) -> Result<Moved, AllocError>
        ensures made { IfOk result (IsMade leads threads (code_world self.now.machine).threads) }
        ensures counted { IfOk result (λ moved. self.now.kept + length (output_of self.now.machine) < 2 ^ 64) }
        ensures few { self.now.kept + length (output_of self.now.machine) < 2 ^ 64 → IsOk result }
    {
        let starts = self.machine.threads() != threads;
        match self.kept.checked_add(self.machine.output().len()) {
            Some(_) => Ok(Moved::Done(MoveMade { leads, starts })),
            None => Err(AllocError),
        }
    }
}

/// Texts that may be shared.
fn share(alloc: Global, texts: Vec<Typed>) -> Result<Arc<Vec<Typed>, Global>, AllocError>
    ensures { IfOk result (λ shared. arc_value shared ≡ texts) }
{
    match Arc::new(alloc, texts) {
        Ok(shared) => Ok(shared),
        Err(_) => Err(AllocError),
    }
}
