//! What an engine asks of a machine.
ghost use Rattle.std.specs.Prelude.{◌≡◌, ◌+◌, ◌≤◌, ◌<◌, ◌^◌, ◌∷◌, ◌++◌, ℕ, [], List, All, IsOk, false, map, length, drop, option_map, option_copied, slice_get, slice_index_or, Ok, Some, IfOk, OnErr};
ghost use Rattle.c_tree.specs.BareDef.{BareDef};
ghost use Rattle.source_model.specs.Waits.{waits_for};
ghost use Rattle.source_model.specs.Worlds.{Limits, World, in_slot, is_over};
ghost use Rattle.source_model.specs.Runs.{SourceMove as Made, Install, Move, can_move, is_live, source_run};
ghost use Rattle.source_model.specs.Guards.{in_transaction};
ghost use Rattle.version_laws.specs.Histories.{last_text, versions_by};
ghost use Rattle.resolved_tree.specs.Nodes.{word as word_text};
ghost use Rattle.type_transformers.specs.Changes.{IsChange, changing, name_of};
ghost use Rattle.source_runner.specs.States.{ending_of};
ghost use Rattle.source_runner.specs.Waits.{waiting_of};
ghost use Rattle.source_runner.specs.Queries.{entering_in, innermost_in, next_point_in, place_at, place_up_in};
ghost use Rattle.source_runner.specs.SourceRuns.{world_after};
ghost use Rattle.run_machine.specs.Machines.{CameBy, KeepsTexts, MovedBy, NeedsHold, Shown};

use c_types::Typed;
use resolved_tree::Word;
use run_types::Ending;
use source_runner::{FrameAt, SourceWait, Stepped};
use std::alloc::AllocError;
use type_transformers::Change;

/// What a move came to that was made.
#[derive(Clone, Copy, Debug, PartialEq, Eq)]
pub struct MoveMade {
    /// Whether it led to a check-in: the thread entered, returned to a caller, began or ended a transaction, or was at an update
    /// point.
    pub leads: bool,
    /// Whether it started a thread.
    pub starts: bool,
}

/// What came of the move of a thread.
#[derive(Clone, Copy, Debug, PartialEq, Eq)]
pub enum Moved {
    /// It was made.
    Done(MoveMade),
    /// It can't be made, and nothing changed.
    CannotMove,
}

/// A machine that runs texts. Its clauses say that it is the run of the definitions over the moves that were made, as long as
/// these runs have what the machine needs; once a step ran out of memory nothing is said of it any more.
pub trait Machine: Drop {
    /// What is said of a machine: the runs that it is, its texts and words, and of how much of its output it has no text any
    /// more.
    ghost shown: { Self → Shown };

    /// That so many moves want no memory, if its output is forgotten after each.
    ghost lasts: { ℕ → Self → Type 0 };

    /// The same once its output is forgotten.
    ghost spent: { ℕ → Self → Type 0 };

    /// No thread has private work to do, so that each can be asked what it does next.
    ghost asks: { Self → Type 0 };

    /// Makes the move of the thread in a slot, if it can be made. All that an engine needs to know of the move is answered with it.
    fn step(&mut self, slot: u8) -> Result<Moved, AllocError>
        ensures moved { (texts : List (List BareDef)) (limits : Limits) (moves : List Made) → (shown self.old).is_run texts limits moves
            → NeedsHold (shown self.old) texts limits (moves ++ Move slot ∷ [])
            → IfOk result (MovedBy texts limits moves slot (shown self.new)) }
        ensures same { KeepsTexts (shown self.old) (shown self.new) }
        ensures kept { (shown self.new).kept ≡ (shown self.old).kept }
        ensures asked { asks self.old → asks self.new }
        ensures lasts { (n : ℕ) → lasts (1 + n) self.old → IsOk result × spent n self.new }
        ensures stays { (n : ℕ) → lasts n self.old → result ≡ Ok Moved.CannotMove → lasts n self.new };

    /// Installs the text with a number, if there is one and the run isn't over; the changes are those from the text in force
    /// to it. The first text, which has the number 0, isn't installed again. Where memory runs out, the run stays as it is.
    fn install(&mut self, number: usize, changes: &[Change]) -> Result<Stepped, AllocError>
        requires { 0 < number }
        ensures made { (texts : List (List BareDef)) (limits : Limits) (moves : List Made) → (shown self.old).is_run texts limits moves
            → NeedsHold (shown self.old) texts limits (moves ++ Install number ∷ [])
            → let p = last_text (versions_by texts moves) in let q = slice_index_or texts number [] in
            map name_of changes.now ≡ changing p q → All (IsChange p q) changes.now
            → IfOk result (CameBy texts limits moves (Install number) (shown self.new)) }
        ensures stays { OnErr result ((texts : List (List BareDef)) (limits : Limits) (moves : List Made)
            → (shown self.old).is_run texts limits moves → (shown self.new).is_run texts limits moves) }
        ensures same { KeepsTexts (shown self.old) (shown self.new) }
        ensures kept { (shown self.new).kept ≡ (shown self.old).kept }
        ensures asked { asks self.old → asks self.new }
        ensures lasts { (n : ℕ) → lasts n self.old → lasts n self.new };

    /// What was printed after that many bytes. It is asked of bytes of which the text is kept.
    fn output_from(&self, from: usize) -> &[u8]
        ensures rest { (texts : List (List BareDef)) (limits : Limits) (moves : List Made) (w : World)
            → (shown self.now).is_run texts limits moves → world_after texts limits moves ≡ Some w
            → (shown self.now).kept ≤ from → from ≤ length w.output → result.now ≡ drop from w.output }
        ensures fits { (texts : List (List BareDef)) (limits : Limits) (moves : List Made) (w : World)
            → (shown self.now).is_run texts limits moves → world_after texts limits moves ≡ Some w
            → length w.output < 2 ^ 64 };

    /// Lets go of the text of what was printed, as much of it as the machine likes. Nothing else changes.
    fn forget(&mut self)
        ensures run { (texts : List (List BareDef)) (limits : Limits) (moves : List Made)
            → (shown self.old).is_run texts limits moves → (shown self.new).is_run texts limits moves }
        ensures same { KeepsTexts (shown self.old) (shown self.new) }
        ensures kept { (texts : List (List BareDef)) (limits : Limits) (moves : List Made) (w : World)
            → (shown self.old).is_run texts limits moves → world_after texts limits moves ≡ Some w
            → (shown self.old).kept ≤ length w.output → (shown self.new).kept ≤ length w.output }
        ensures asked { asks self.old → asks self.new }
        ensures lasts { (n : ℕ) → spent n self.old → lasts n self.new };

    /// Whether a definition was misused.
    fn misused(&self) -> bool
        ensures { (texts : List (List BareDef)) (limits : Limits) (moves : List Made) → (shown self.now).is_run texts limits moves
            → option_map (λ x. x.misused) (source_run texts limits moves) ≡ Some result };

    /// How the run has ended, if `main` returned or a thread trapped.
    fn ending(&self) -> Option<Ending>
        ensures { (texts : List (List BareDef)) (limits : Limits) (moves : List Made) → (shown self.now).is_run texts limits moves
            → option_map (λ x. ending_of x.world.finish) (source_run texts limits moves) ≡ Some result };

    /// Whether a thread lives in a slot.
    fn is_live(&self, slot: u8) -> bool
        ensures { (texts : List (List BareDef)) (limits : Limits) (moves : List Made) → (shown self.now).is_run texts limits moves
            → option_map (λ x. is_live (in_slot x.world slot)) (source_run texts limits moves) ≡ Some result };

    /// Whether the thread in a slot can move. It is asked where no thread has private work to do.
    fn can_move(&self, slot: u8) -> bool
        ensures { asks self.now → (texts : List (List BareDef)) (limits : Limits) (moves : List Made) → (shown self.now).is_run texts limits moves
            → option_map (λ x. can_move x.world slot) (source_run texts limits moves) ≡ Some result };

    /// What the thread in a slot waits for, if it waits. It is asked of a run that isn't over, where no thread has private work to do.
    fn waits(&self, slot: u8) -> Option<SourceWait<'_>>
        ensures { asks self.now → (texts : List (List BareDef)) (limits : Limits) (moves : List Made) → (shown self.now).is_run texts limits moves
            → option_map (λ x. is_over x.world) (source_run texts limits moves) ≡ Some false
            → option_map (λ x. waits_for x.world slot) (source_run texts limits moves) ≡ Some (option_map waiting_of result) };

    /// The text with a number.
    fn text(&self, number: usize) -> Option<&Typed>
        ensures { option_copied result ≡ slice_get (shown self.now).trees number };

    /// A word of the run's texts.
    fn word(&self, word: Word) -> &str
        ensures { result.now ≡ word_text (shown self.now).words word };

    /// Whether the thread in a slot is in a transaction.
    fn in_transaction(&self, slot: u8) -> bool
        ensures { (texts : List (List BareDef)) (limits : Limits) (moves : List Made) → (shown self.now).is_run texts limits moves
            → option_map (λ x. in_transaction (in_slot x.world slot)) (source_run texts limits moves) ≡ Some result };

    /// Where the innermost frame of the thread in a slot is, if a thread with frames lives there. It is asked of a run that
    /// isn't over.
    fn frame(&self, slot: u8) -> Option<FrameAt>
        ensures { (texts : List (List BareDef)) (limits : Limits) (moves : List Made) → (shown self.now).is_run texts limits moves
            → option_map (λ x. is_over x.world) (source_run texts limits moves) ≡ Some false
            → option_map (λ x. innermost_in (in_slot x.world slot)) (source_run texts limits moves)
            ≡ Some (option_map (place_at (shown self.now).words) result) };

    /// Where the frame of the thread in a slot is that is so many calls above the innermost: 0 is the innermost one, 1 the
    /// one that called it. It is asked of a run that isn't over.
    fn frame_up(&self, slot: u8, up: usize) -> Option<FrameAt>
        ensures { (texts : List (List BareDef)) (limits : Limits) (moves : List Made) → (shown self.now).is_run texts limits moves
            → option_map (λ x. is_over x.world) (source_run texts limits moves) ≡ Some false
            → option_map (λ x. place_up_in up (in_slot x.world slot)) (source_run texts limits moves)
            ≡ Some (option_map (place_at (shown self.now).words) result) };

    /// The number of the point at which the innermost frame of the thread in a slot stops next, if that is what the thread
    /// does next; none where it enters a function, or traps before it stops. It is asked of a run that isn't over, where no thread has
    /// private work to do.
    fn next_point(&self, slot: u8) -> Option<u32>
        ensures { asks self.now → (texts : List (List BareDef)) (limits : Limits) (moves : List Made) → (shown self.now).is_run texts limits moves
            → option_map (λ x. is_over x.world) (source_run texts limits moves) ≡ Some false
            → option_map (λ x. next_point_in (in_slot x.world slot)) (source_run texts limits moves) ≡ Some result };

    /// The function that the thread in a slot is about to enter, if an enter is its next move. It is asked of a run that
    /// isn't over.
    fn entering(&self, slot: u8) -> Option<Word>
        ensures { (texts : List (List BareDef)) (limits : Limits) (moves : List Made) → (shown self.now).is_run texts limits moves
            → option_map (λ x. is_over x.world) (source_run texts limits moves) ≡ Some false
            → option_map (λ x. entering_in (in_slot x.world slot)) (source_run texts limits moves)
            ≡ Some (option_map (word_text (shown self.now).words) result) };
}
