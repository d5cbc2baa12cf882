//! What is asked of a machine: a run starts, makes moves, and what it printed is taken.
ghost use Rattle.std.specs.Prelude.{◌≡◌, ◌+◌, ◌++◌, ◌-◌, ◌<◌, ◌≤◌, [], ◌∷◌, IfOk, IsOk, List, Ok, OnErr, OnOk, length, map, replicate, slice_get, Some, ℕ};
ghost use Rattle.c_tree.specs.BareExpr.{Bytes};
ghost use Rattle.c_tree.specs.BareDef.{BareDef};
ghost use Rattle.program_locks.specs.Slots.{most_slots};
ghost use Rattle.code_runs.specs.CodeThreads.{Free as IsFree, Live as IsLive, starting};
ghost use Rattle.code_image.specs.Images.{IsImage, names_in};
ghost use Rattle.code_machine.specs.declared.running.Running.{Running as Slot};
ghost use Rattle.code_machine.specs.Enough.{HasNumbers};
ghost use Rattle.code_machine.specs.Kept.{FitsImage};
ghost use Rattle.code_machine.specs.Used.{HasUsed};
ghost use Rattle.code_machine.specs.Versions.{IsMachineOf, IsReadyAt, texts_of, versions_of};
ghost use Rattle.code_runs.specs.CodeInstalls.{Installs};
ghost use Rattle.version_laws.specs.Histories.{last_text};
ghost use Rattle.word_installs.specs.Prepared.{ArePrepared};
ghost use Rattle.word_layouts.specs.WordChanges.{AreChangesOf, HasFewFields, StandFor};
ghost use Rattle.code_machine.specs.Leading.{Led, has_moved};
ghost use Rattle.code_machine.specs.Seen.{code_world, image_of, name_at, output_of, slot_of};
ghost use Rattle.code_machine.specs.Queries.{IsSettled};
ghost use Rattle.code_machine.specs.Steps.{Came, IsStart};
ghost use Rattle.code_machine.specs.Stops.{IsFresh};

use crate::machine::CodeMachine;
use crate::moves::{CodeStep, work_and_step};
use crate::running::{Running, Stand};
use crate::state::RunState;
use code_image::CodeImage;
use std::alloc::{AllocError, Global};
use std::sync::Arc;
use word_data::WordData;
use word_installs::{NewRow, install};
use word_layouts::{VersionChanges, WordLayouts};

/// A slot in which main's thread lives.
fn main_slot(alloc: Global, image: &CodeImage) -> Result<Running, AllocError>
    ensures fits { IfOk result (FitsImage image.now) }
    ensures fresh { IfOk result (λ r. IsFresh r image.now.main) }
    ensures seen { IfOk result (λ r. slot_of image.now r
        ≡ IsLive (starting 0 (record { function = name_at image.now image.now.main; arguments = []; version = 1 }))) }
{
    let mut running = Running::new(alloc, image)?;
    running.stand = Stand::Live;
    Ok(running)
}

/// So many slots, and at least one; main's thread lives in the first.
fn slots_of(alloc: Global, image: &CodeImage, count: u8) -> Result<Vec<Running>, AllocError>
    requires { count ≤ most_slots }
    ensures few { IfOk result (λ slots. length slots.items ≤ most_slots) }
    ensures fit { IfOk result (λ slots. (n : ℕ) (r : Slot) → slice_get slots.items n ≡ Some r → FitsImage image.now r) }
    ensures fresh { IfOk result (λ slots. (n : ℕ) (r : Slot) → slice_get slots.items n ≡ Some r → IsFresh r image.now.main) }
    ensures seen { IfOk result (λ slots. map (slot_of image.now) slots.items
        ≡ IsLive (starting 0 (record { function = name_at image.now image.now.main; arguments = []; version = 1 })) ∷ replicate (count - 1) IsFree) }
{
    let mut slots = Vec::new(alloc);
    slots.push(main_slot(alloc, image)?)?;
    for _ in 1..count {
        slots.push(Running::new(alloc, image)?)?;
    }
    Ok(slots)
}

/// So many versions at most can be counted.
const MOST_VERSIONS: usize = (1 << 32) - 1;

/// Adds a version of the text with a number, with what brings objects to it. When out of memory nothing has changed.
fn add_version(
    versions: &mut Vec<u32>,
    layouts: &mut WordLayouts,
    text: u32,
    changes: VersionChanges,
) -> Result<(), AllocError>
    ensures versions { OnOk result (versions.new.items ≡ versions.old.items ++ text ∷ []) }
    ensures stands { (texts : List (List BareDef)) (q : List BareDef) (tags : List Bytes) → StandFor texts tags layouts.old.versions.items
        → HasFewFields q → AreChangesOf (last_text texts) q tags changes → OnOk result (StandFor (texts ++ q ∷ []) tags layouts.new.versions.items) }
    ensures fault { OnErr result ((versions.new.items ≡ versions.old.items) × (layouts.new.versions.items ≡ layouts.old.versions.items)) }
{
    versions.push(text)?;
    let added = layouts.add(changes);
    if added.is_err() {
        versions.pop();
    }
    added
}

/// An image that is shared.
fn share(alloc: Global, image: CodeImage) -> Result<Arc<CodeImage>, AllocError>
    ensures { IfOk result (λ shared. shared.value ≡ image) }
{
    match Arc::new(alloc, image) {
        Ok(shared) => Ok(shared),
        Err(_) => Err(AllocError),
    }
}

impl CodeMachine {
    /// The start of a run of the first of some texts by its code: main's thread in the first of so many slots, globals and arrays with
    /// these words in the order of their numbers, and room for so many objects. It takes all memory that threads ever need, but for what
    /// is printed and not taken before the next step.
    pub fn new(
        alloc: Global,
        image: CodeImage,
        cells: Vec<Vec<u64>>,
        objects: u32,
        slots: u8,
    ) -> Result<CodeMachine, AllocError>
        requires { slots ≤ most_slots }
        ensures image { IfOk result (λ m. image_of m ≡ image) }
        ensures starts { (texts : List (List BareDef)) → IsImage texts image
            → IfOk result (λ m. IsStart (names_in texts) (map (λ v. v.items) cells.items) objects slots (code_world m)) }
        ensures run { (text : List BareDef) (texts : List (List BareDef)) → IsImage (text ∷ texts) image → HasFewFields text
            → IfOk result (IsMachineOf (text ∷ texts)) }
        ensures first { IfOk result (λ m. versions_of m ≡ 0 ∷ []) }
        ensures used { IfOk result (λ m. HasUsed 0 m.run) }
        ensures silent { IfOk result (λ m. output_of m ≡ []) }
        ensures settled { IfOk result IsSettled }
    {
        let shared = WordData::new(alloc, cells, objects, image.mutexes)?;
        let slots = slots_of(alloc, &image, slots)?;
        let output = Vec::with_capacity(alloc, image.longest_print)?;
        let versions = vec![in alloc; 0]?;
        let image = share(alloc, image)?;
        Ok(CodeMachine {
            image,
            run: RunState {
                shared,
                slots,
                threads: 1,
                finish: None,
                output,
                versions,
                in_force: 0,
                layouts: WordLayouts::new(alloc),
                leaves_work: false,
            },
        })
    }

    /// Makes the move of the thread in a slot, if it can be made, and says whether it led to a check-in.
    ///
    /// Private work that is due in the slot is done before. That which follows the move is done, or left where [`CodeMachine::leave_work`]
    /// says so. A move takes time linear in the instructions of its burst and in what it prints; a start or a join of a thread looks at each
    /// slot. Where all that was printed is taken, it is out of memory only where 2^32 - 1 objects were created, or 2^48 threads
    /// started, or where the thread is in 2^64 - 1 transactions. The machine is of no use then.
    #[inline(always)]
    pub fn step(&mut self, slot: u8) -> Result<CodeStep, AllocError>
        ensures image { image_of self.new ≡ image_of self.old }
        ensures came { (texts : List (List BareDef)) → IsReadyAt texts self.old slot
            → IfOk result (λ step. Came texts self.old slot self.new (has_moved step)) }
        ensures led { (texts : List (List BareDef)) → IsMachineOf texts self.old
            → IfOk result (Led (texts_of texts self.old.run) (names_in texts) (image_of self.old) (code_world self.old) slot) }
        ensures run { (texts : List (List BareDef)) → IsMachineOf texts self.old → IsMachineOf texts self.new }
        ensures versions { versions_of self.new ≡ versions_of self.old }
        ensures used { (n : ℕ) → HasUsed n self.old.run → HasUsed (1 + n) self.new.run }
        ensures stays { result ≡ Ok CodeStep.CannotMove → (output_of self.new ≡ output_of self.old)
            × ((n : ℕ) → HasUsed n self.old.run → HasUsed n self.new.run) }
        ensures long { OnOk result (length (output_of self.new) ≤ length (output_of self.old) + (image_of self.old).longest_print) }
        ensures enough { HasNumbers (code_world self.old) slot → output_of self.old ≡ [] → IsOk result }
        ensures settled { IsSettled self.old → IsSettled self.new }
    {
        work_and_step(&self.image, &mut self.run, slot)
    }

    /// Takes what was printed away. Its memory stays for what is printed next.
    pub fn forget(&mut self)
        ensures image { image_of self.new ≡ image_of self.old }
        ensures world { code_world self.new ≡ code_world self.old }
        ensures output { output_of self.new ≡ [] }
        ensures run { (texts : List (List BareDef)) → IsMachineOf texts self.old → IsMachineOf texts self.new }
        ensures versions { versions_of self.new ≡ versions_of self.old }
        ensures used { (n : ℕ) → HasUsed n self.old.run → HasUsed n self.new.run }
        ensures settled { IsSettled self.old → IsSettled self.new }
    {
        self.run.output.clear();
    }

    /// Installs the text with a number among those of the image, with what was prepared for it: the new words of globals and arrays, the
    /// numbers of the mutexes that it doesn't have, and what brings objects to its layouts. Threads, frames and objects stay as they
    /// are. When out of memory, and where 2^32 - 1 texts were installed, nothing has changed; it takes memory for two numbers a version.
    pub fn install(
        &mut self,
        text: u32,
        rows: Vec<NewRow>,
        gone: &[u32],
        changes: VersionChanges,
    ) -> Result<(), AllocError>
        ensures image { image_of self.new ≡ image_of self.old }
        ensures output { output_of self.new ≡ output_of self.old }
        ensures installs { (texts : List (List BareDef)) (q : List BareDef) → IsMachineOf texts self.old → slice_get texts text ≡ Some q
            → ArePrepared (texts_of texts self.old.run) (names_in texts) q self.old.run.shared rows.items gone.now
            → OnOk result (Installs (texts_of texts self.old.run) (names_in texts) q (code_world self.old) (code_world self.new)) }
        ensures run { (texts : List (List BareDef)) (q : List BareDef) → IsMachineOf texts self.old → slice_get texts text ≡ Some q
            → HasFewFields q → AreChangesOf (last_text (texts_of texts self.old.run)) q (names_in texts).tags changes
            → OnOk result (IsMachineOf texts self.new) }
        ensures versions { OnOk result (versions_of self.new ≡ versions_of self.old ++ text ∷ []) }
        ensures used { (n : ℕ) → HasUsed n self.old.run → HasUsed n self.new.run }
        ensures settled { IsSettled self.old → IsSettled self.new }
        ensures fault { OnErr result ((code_world self.new ≡ code_world self.old) × (versions_of self.new ≡ versions_of self.old)
            × ((texts : List (List BareDef)) → IsMachineOf texts self.old → IsMachineOf texts self.new)) }
    {
        if self.run.versions.len() >= MOST_VERSIONS {
            return Err(AllocError);
        }
        add_version(&mut self.run.versions, &mut self.run.layouts, text, changes)?;
        install(&mut self.run.shared, rows, gone);
        self.run.in_force = text;
        Ok(())
    }

    /// What the threads share.
    pub fn shared(&self) -> &WordData
        ensures { result.now ≡ (code_world self.now).shared }
    {
        &self.run.shared
    }

    /// The number of the text in force.
    pub fn in_force(&self) -> u32
        ensures { (texts : List (List BareDef)) → IsMachineOf texts self.now
            → slice_get texts result ≡ Some (last_text (texts_of texts self.now.run)) }
    {
        self.run.in_force
    }

    /// What was printed since the start, or since it was last taken away.
    pub fn output(&self) -> &[u8]
        ensures { result.now ≡ output_of self.now }
    {
        self.run.output.as_slice()
    }

    /// The code that it runs.
    pub fn image(&self) -> &CodeImage
        ensures { result.now ≡ image_of self.now }
    {
        &self.image
    }
}
