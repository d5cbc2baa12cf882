//! Stops that change other threads: one starts, or is joined.
ghost use Rattle.std.specs.Prelude.{◌≡◌, ◌<◌, ◌≤◌, IfOk, IfSome, IsOk, IsTrue, List, false, length, map, option_map, slice_get, Some, ℕ};
ghost use Rattle.std.specs.List.{position};
ghost use Rattle.c_tree.specs.BareDef.{BareDef};
ghost use Rattle.source_model.specs.Waits.{ForThread};
ghost use Rattle.program_locks.specs.Slots.{most_slots};
ghost use Rattle.code_runs.specs.CodeData.{thread_word};
ghost use Rattle.code_runs.specs.CodeMoves.{is_free, left_from, left_in};
ghost use Rattle.code_runs.specs.CodeWaits.{joined_from, lives_as};
ghost use Rattle.code_image.specs.declared.act.Act.TheVariants.{Join as JoinAct, Spawn as SpawnAct};
ghost use Rattle.code_image.specs.declared.image.CodeImage.{CodeImage as Image};
ghost use Rattle.code_machine.specs.declared.running.Running.{Running as Slot};
ghost use Rattle.code_machine.specs.declared.running.Stand.TheVariants.{Free as FreeStand, Over as OverStand};
ghost use Rattle.code_machine.specs.Keeping.{Keeps, UsesNothing};
ghost use Rattle.code_machine.specs.Kept.{IsKeptRun, most_threads};
ghost use Rattle.code_machine.specs.Versions.{IsReady, IsRunOf, texts_of};
ghost use Rattle.code_machine.specs.Seen.{slot_of, world_of};
ghost use Rattle.code_machine.specs.Steps.{StepsTo};
ghost use Rattle.code_machine.specs.Stops.{LivesAt};
ghost use Rattle.code_machine.specs.ThreadStops.{Started, StartedIn, Took};

use crate::running::{Running, Stand, innermost};
use crate::state::{Finish, RunState};
use code_image::{CodeImage, StopPlace};
use run_types::TrapKind;
use std::alloc::AllocError;

/// How many threads a run may start, so that their words have 64 bits.
const MOST_THREADS: u64 = 1 << 48;

/// The word that a thread left in a slot.
#[derive(Clone, Copy)]
struct Left {
    place: usize,
    word: u64,
}

/// The word of a thread.
pub(crate) fn thread_word(slot: usize, serial: u64) -> u64
    requires slot { slot < most_slots }
    requires serial { serial < most_threads }
    ensures { result ≡ thread_word (record { slot = slot; serial = serial }) }
{
    (1u64 << slot) * (2 * serial + 1)
}

/// Whether a slot is free.
fn is_free(running: &Running) -> bool
    ensures free { (image : Image) → result ≡ is_free (slot_of image running.now) }
    ensures stand { IsTrue result → running.now.stand ≡ FreeStand }
{
    matches!(running.stand, Stand::Free)
}

/// Whether the thread of a word lives in a slot.
fn lives_as(running: &Running, place: usize, word: u64) -> bool
    requires slot { place < most_slots }
    requires serial { running.now.serial < most_threads }
    ensures { (image : Image) → result ≡ lives_as word place (slot_of image running.now) }
{
    match running.stand {
        Stand::Live => thread_word(place, running.serial) == word,
        Stand::Free | Stand::Over(_) => false,
    }
}

/// The word that the thread of a word left in a slot, if it ended there and wasn't joined yet.
fn left_in(running: &Running, place: usize, word: u64) -> Option<u64>
    requires slot { place < most_slots }
    requires serial { running.now.serial < most_threads }
    ensures left { (image : Image) → result ≡ left_in word place (slot_of image running.now) }
    ensures over { IfSome result (λ left. running.now.stand ≡ OverStand left) }
{
    match running.stand {
        Stand::Over(left) if thread_word(place, running.serial) == word => Some(left),
        _ => None,
    }
}

/// The least slot that is free.
fn free_slot(slots: &[Running]) -> Option<usize>
    ensures least { (image : Image) → result ≡ position is_free (map (slot_of image) slots.now) }
    ensures inside { IfSome result (λ place. place < length slots.now) }
    ensures free { IfSome result (λ place. (r : Slot) → slice_get slots.now place ≡ Some r → r.stand ≡ FreeStand) }
{
    for place in 0..slots.len() {
        if is_free(&slots[place]) {
            return Some(place);
        }
    }
    None
}

/// The slot in which the thread of a word lives, if it lives. The lowest 1 of the word is at the number of its slot.
pub(crate) fn live_slot(slots: &[Running], word: u64) -> Option<usize>
    requires few { length slots.now ≤ most_slots }
    requires serials { (n : ℕ) (r : Slot) → slice_get slots.now n ≡ Some r → r.serial < most_threads }
    ensures live { (image : Image) → option_map ForThread result ≡ joined_from word 0 (map (slot_of image) slots.now) }
    ensures inside { IfSome result (λ place. place < length slots.now) }
{
    let place = word.trailing_zeros() as usize;
    if place >= slots.len() {
        return None;
    }
    if lives_as(&slots[place], place, word) {
        Some(place)
    } else {
        None
    }
}

/// The slot in which the thread of a word ended, with the word that it left, if it wasn't joined yet.
fn left_slot(slots: &[Running], word: u64) -> Option<Left>
    requires few { length slots.now ≤ most_slots }
    requires serials { (n : ℕ) (r : Slot) → slice_get slots.now n ≡ Some r → r.serial < most_threads }
    ensures left { (image : Image) → option_map (λ l. (l.place, l.word)) result ≡ left_from word 0 (map (slot_of image) slots.now) }
    ensures inside { IfSome result (λ l. l.place < length slots.now) }
    ensures over { IfSome result (λ l. (r : Slot) → slice_get slots.now l.place ≡ Some r → r.stand ≡ OverStand l.word) }
{
    for place in 0..slots.len() {
        if let Some(left) = left_in(&slots[place], place, word) {
            return Some(Left { place, word: left });
        }
    }
    None
}

/// Puts a new thread into a free slot, and gives its word. An error where as many threads were started as may be.
fn put(
    image: &CodeImage,
    run: &mut RunState,
    place: usize,
    version: u32,
    function: u32,
    argument: u64,
) -> Result<u64, AllocError>
    requires kept { IsKeptRun image.now run.old }
    requires inside { function < length image.now.callees.items }
    requires there { place < length run.old.slots.items }
    requires free { (r : Slot) → slice_get run.old.slots.items place ≡ Some r → r.stand ≡ FreeStand }
    ensures keeps { Keeps image.now run.old run.new }
    ensures started { IfOk result (StartedIn image.now run.old run.new version function argument place) }
    ensures output { run.new.output ≡ run.old.output }
    ensures enough { run.old.threads < most_threads → IsOk result }
{
    if run.threads >= MOST_THREADS {
        return Err(AllocError);
    }
    let serial = run.threads;
    run.slots[place].start(serial, version, function, argument);
    run.threads = serial + 1;
    Ok(thread_word(place, serial))
}

/// Starts a thread of a function in the least free slot, and gives its word; 0 where no slot is free.
fn start(
    image: &CodeImage,
    run: &mut RunState,
    version: u32,
    function: u32,
    argument: u64,
) -> Result<u64, AllocError>
    requires kept { IsKeptRun image.now run.old }
    requires inside { function < length image.now.callees.items }
    ensures keeps { Keeps image.now run.old run.new }
    ensures started { IfOk result (Started image.now run.old run.new version function argument (position is_free (world_of image.now run.old).slots)) }
    ensures output { run.new.output ≡ run.old.output }
    ensures enough { run.old.threads < most_threads → IsOk result }
{
    match free_slot(run.slots.as_slice()) {
        Some(place) => put(image, run, place, version, function, argument),
        None => Ok(0),
    }
}

/// Starts a thread of a function in the least free slot, with the newest word as its argument. Its word comes in place of that; 0
/// where no slot is free. An error where as many threads were started as may be.
pub(crate) fn spawn(
    image: &CodeImage,
    run: &mut RunState,
    slot: u8,
    stop: &StopPlace,
    function: u32,
) -> Result<bool, AllocError>
    requires kept { IsKeptRun image.now run.old }
    requires lives { LivesAt image.now.functions.items (length image.now.callees.items) run.old slot stop.now }
    requires act { stop.now.act ≡ SpawnAct function }
    ensures keeps { Keeps image.now run.old run.new }
    ensures stays { IfOk result (λ moved. moved ≡ false → UsesNothing run.old run.new) }
    ensures came { (all : List (List BareDef)) → IsReady all image.now run.old slot → IfOk result (StepsTo all image.now slot run.old run.new) }
    ensures output { run.new.output ≡ run.old.output }
    ensures enough { run.old.threads < most_threads → IsOk result }
{
    let frames = &run.slots[slot as usize].frames;
    let version = innermost(frames).version;
    let argument = frames.newest();
    let word = start(image, run, version, function, argument)?;
    run.slots[slot as usize].answer(image, stop, word);
    Ok(true)
}

/// Joins the thread of the newest word: the word that it left comes in place of that, and its slot is free. It waits while the
/// thread lives, and traps where it was joined, or where the word is of none.
pub(crate) fn join(image: &CodeImage, run: &mut RunState, slot: u8, stop: &StopPlace) -> bool
    requires kept { IsKeptRun image.now run.old }
    requires lives { LivesAt image.now.functions.items (length image.now.callees.items) run.old slot stop.now }
    requires act { stop.now.act ≡ JoinAct }
    ensures keeps { Keeps image.now run.old run.new }
    ensures stays { result ≡ false → UsesNothing run.old run.new }
    ensures came { (all : List (List BareDef)) → IsReady all image.now run.old slot → StepsTo all image.now slot run.old run.new result }
    ensures output { run.new.output ≡ run.old.output }
{
    let word = run.slots[slot as usize].frames.newest();
    if live_slot(run.slots.as_slice(), word).is_some() {
        return false;
    }
    match left_slot(run.slots.as_slice(), word) {
        Some(left) => take(image, run, slot, stop, left.place, left.word),
        None => run.finish = Some(Finish::Trapped(TrapKind::Join, slot)),
    }
    true
}

/// Takes the word that a thread left, which comes in place of the newest one, and makes the thread's slot free.
fn take(image: &CodeImage, run: &mut RunState, slot: u8, stop: &StopPlace, place: usize, left: u64)
    requires kept { IsKeptRun image.now run.old }
    requires lives { LivesAt image.now.functions.items (length image.now.callees.items) run.old slot stop.now }
    requires act { stop.now.act ≡ JoinAct }
    requires there { place < length run.old.slots.items }
    requires over { (r : Slot) → slice_get run.old.slots.items place ≡ Some r → r.stand ≡ OverStand left }
    ensures keeps { Keeps image.now run.old run.new }
    ensures taken { (all : List (List BareDef)) (r : Slot) → IsRunOf all image.now run.old → slice_get run.old.slots.items slot ≡ Some r
        → Took (texts_of all run.old) image.now r run.old run.new slot stop.now place left }
    ensures output { run.new.output ≡ run.old.output }
{
    run.slots[place].stand = Stand::Free;
    run.slots[slot as usize].answer(image, stop, left);
}
