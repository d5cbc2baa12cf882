//! Whole runs.
ghost use Rattle.std.specs.Prelude.{◌≡◌, ◌<◌, [], List, All, true, false, map, length, option_map, option_copied, slice_get, slice_index_or, Some, Err, IfOk, OnErr};
ghost use Rattle.c_tree.specs.BareDef.{BareDef};
ghost use Rattle.source_model.specs.Waits.{waits_for};
ghost use Rattle.source_model.specs.Worlds.{Limits, in_slot, is_over};
ghost use Rattle.source_model.specs.Versions.{current};
ghost use Rattle.source_model.specs.Runs.{SourceMove as Made, Install, can_move, is_live, source_run};
ghost use Rattle.source_model.specs.Guards.{in_transaction, move_leads};
ghost use Rattle.version_laws.specs.Histories.{last_text, versions_by};
ghost use Rattle.resolved_tree.specs.Nodes.{word as word_text};
ghost use Rattle.type_transformers.specs.Changes.{IsChange, changing, name_of};
ghost use Rattle.source_programs.specs.Programs.{name_of as word_name, text_in};
ghost use Rattle.source_runner.specs.States.{as_int, ending_of, state_of};
ghost use Rattle.source_runner.specs.declared.run.SourceMove.TheVariants.{Move};
ghost use Rattle.source_runner.specs.Waits.{waiting_of};
ghost use Rattle.source_runner.specs.Queries.{entering_in, innermost_in, next_point_in, place_at, place_up_in, use_due};
ghost use Rattle.source_runner.specs.SourceRuns.{CameBy, IsRun, KeepsTexts, Steps, trees_of, words_of};

use crate::can_move::SourceState;
use crate::machine::Machine;
use crate::queries::FrameAt;
use crate::start::start;
use crate::waits::SourceWait;
use c_types::Typed;
use resolved_tree::Word;
use run_types::Ending;
use source_programs::{Name, Programs};
use std::alloc::{AllocError, Global};
use type_transformers::Change;

/// A move of the source machine.
#[derive(Clone, Copy, Debug, PartialEq, Eq)]
pub enum SourceMove {
    /// Of the thread in a slot.
    Move(u8),
}

/// What a step came to.
#[derive(Clone, Copy, Debug, PartialEq, Eq)]
pub enum Stepped {
    /// The move was made.
    Done,
    /// The move can't be made, and nothing has changed.
    CannotMove,
}

/// A run of the source machine over some texts. Its clauses say that it is the run of the definitions over the moves that
/// were made; once a step of a thread ran out of memory nothing is said of it any more.
#[derive(Drop)]
pub struct SourceRun {
    machine: Machine,
    /// Whether a step ran out of memory.
    failed: bool,
}

impl SourceRun {
    /// The start of a run of the first of some texts, where so many objects may live at once and so many slots are there.
    pub fn new(
        alloc: Global,
        texts: Vec<Typed>,
        objects: u32,
        slots: u8,
    ) -> Result<SourceRun, AllocError>
        requires { 0 < length texts.items }
        ensures run { IfOk result (IsRun (map text_in texts.items) (record { objects = objects; slots = slots }) []) }
        ensures trees { IfOk result (λ r. trees_of r ≡ texts.items) }
    {
        let program = Programs::load(alloc, texts)?;
        Ok(SourceRun {
            machine: start(alloc, program, objects as usize, slots as usize)?,
            failed: false,
        })
    }

    /// Makes a move, if it can be made. Once a step ran out of memory, each later one does too.
    pub fn step(&mut self, m: SourceMove) -> Result<Stepped, AllocError>
        ensures stepped { (texts : List (List BareDef)) (limits : Limits) (moves : List Made) → IsRun texts limits moves self.old
            → Steps texts limits moves m self.new result }
        ensures fails { OnErr result (self.new.failed ≡ true) }
        ensures failed { self.old.failed ≡ true → result ≡ Err (record {}) }
        ensures same { KeepsTexts self.old self.new }
    {
        if self.failed {
            return Err(AllocError);
        }
        let answer = self.make(m);
        if answer.is_err() {
            self.failed = true;
        }
        answer
    }

    /// Makes a move, if it can be made.
    fn make(&mut self, m: SourceMove) -> Result<Stepped, AllocError>
        ensures stepped { (texts : List (List BareDef)) (limits : Limits) (moves : List Made) → IsRun texts limits moves self.old
            → Steps texts limits moves m self.new result }
        ensures same { KeepsTexts self.old self.new }
    {
        match m {
            SourceMove::Move(slot) => self.make_move(slot),
        }
    }

    /// Makes the move of the thread in a slot, if it can be made.
    fn make_move(&mut self, slot: u8) -> Result<Stepped, AllocError>
        ensures stepped { (texts : List (List BareDef)) (limits : Limits) (moves : List Made) → IsRun texts limits moves self.old
            → Steps texts limits moves (Move slot) self.new result }
        ensures same { KeepsTexts self.old self.new }
    {
        if self.machine.make(slot)? {
            Ok(Stepped::Done)
        } else {
            Ok(Stepped::CannotMove)
        }
    }

    /// Installs the text with a number, if there is one and the run isn't over; the changes are those from the text in force
    /// to it. Where memory runs out, the run stays as it is.
    pub fn install(&mut self, number: usize, changes: &[Change]) -> Result<Stepped, AllocError>
        ensures made { (texts : List (List BareDef)) (limits : Limits) (moves : List Made) → IsRun texts limits moves self.old
            → let p = last_text (versions_by texts moves) in let q = slice_index_or texts number [] in
            map name_of changes.now ≡ changing p q → All (IsChange p q) changes.now
            → IfOk result (CameBy texts limits moves (Install number) self.new) }
        ensures stays { OnErr result ((texts : List (List BareDef)) (limits : Limits) (moves : List Made) → IsRun texts limits moves self.old
            → IsRun texts limits moves self.new) }
        ensures same { KeepsTexts self.old self.new }
    {
        if self.machine.is_over() {
            return Ok(Stepped::CannotMove);
        }
        if self.machine.program.text(number).is_none() {
            return Ok(Stepped::CannotMove);
        }
        self.machine.follow(number, changes)?;
        Ok(Stepped::Done)
    }

    /// What was printed.
    pub fn output(&self) -> &[u8]
        ensures { (texts : List (List BareDef)) (limits : Limits) (moves : List Made) → IsRun texts limits moves self.now
            → option_map (λ x. x.output) (source_run texts limits moves) ≡ Some result.now }
    {
        self.machine.store.output.as_slice()
    }

    /// Whether a definition was misused.
    pub fn misused(&self) -> bool
        ensures { (texts : List (List BareDef)) (limits : Limits) (moves : List Made) → IsRun texts limits moves self.now
            → option_map (λ x. x.misused) (source_run texts limits moves) ≡ Some result }
    {
        self.machine.misused
    }

    /// How many threads were started, that of `main` among them.
    pub fn threads(&self) -> usize
        ensures { (texts : List (List BareDef)) (limits : Limits) (moves : List Made) → IsRun texts limits moves self.now
            → option_map (λ x. x.world.threads) (source_run texts limits moves) ≡ Some result }
    {
        self.machine.threads
    }

    /// How the run stands.
    pub fn state(&self) -> SourceState
        ensures { (texts : List (List BareDef)) (limits : Limits) (moves : List Made) → IsRun texts limits moves self.now
            → option_map (λ x. as_int x.state) (source_run texts limits moves) ≡ Some (state_of result) }
    {
        self.machine.state()
    }

    /// How the run has ended, if `main` returned or a thread trapped.
    pub fn ending(&self) -> Option<Ending>
        ensures { (texts : List (List BareDef)) (limits : Limits) (moves : List Made) → IsRun texts limits moves self.now
            → option_map (λ x. ending_of x.world.finish) (source_run texts limits moves) ≡ Some result }
    {
        self.machine.ending()
    }

    /// Whether a thread lives in a slot.
    pub fn is_live(&self, slot: u8) -> bool
        ensures { (texts : List (List BareDef)) (limits : Limits) (moves : List Made) → IsRun texts limits moves self.now
            → option_map (λ x. is_live (in_slot x.world slot)) (source_run texts limits moves) ≡ Some result }
    {
        self.machine.is_live(slot as usize)
    }

    /// Whether the thread in a slot can move.
    pub fn can_move(&self, slot: u8) -> bool
        ensures { (texts : List (List BareDef)) (limits : Limits) (moves : List Made) → IsRun texts limits moves self.now
            → option_map (λ x. can_move x.world slot) (source_run texts limits moves) ≡ Some result }
    {
        self.machine.can_move(slot as usize)
    }

    /// Whether the next move of the thread in a slot leads to a check-in: it enters, returns to a caller, begins or ends
    /// a transaction, or is at an update point. It is asked of a run that isn't over.
    pub fn leads(&self, slot: u8) -> bool
        ensures { (texts : List (List BareDef)) (limits : Limits) (moves : List Made) → IsRun texts limits moves self.now
            → option_map (λ x. is_over x.world) (source_run texts limits moves) ≡ Some false
            → option_map (λ x. move_leads (in_slot x.world slot)) (source_run texts limits moves) ≡ Some result }
    {
        self.machine.leads(slot as usize)
    }

    /// What the thread in a slot waits for, if it waits. It is asked of a run that isn't over.
    pub fn waits(&self, slot: u8) -> Option<SourceWait<'_>>
        ensures { (texts : List (List BareDef)) (limits : Limits) (moves : List Made) → IsRun texts limits moves self.now
            → option_map (λ x. is_over x.world) (source_run texts limits moves) ≡ Some false
            → option_map (λ x. waits_for x.world slot) (source_run texts limits moves) ≡ Some (option_map waiting_of result) }
    {
        self.machine.waits(slot as usize)
    }

    /// The text with a number.
    pub fn text(&self, number: usize) -> Option<&Typed>
        ensures { option_copied result ≡ slice_get (trees_of self.now) number }
    {
        self.machine.program.text(number)
    }

    /// The current version; the first is 1.
    pub fn version(&self) -> usize
        ensures count { (texts : List (List BareDef)) (limits : Limits) (moves : List Made) → IsRun texts limits moves self.now
            → result ≡ length (versions_by texts moves) }
        ensures current { (texts : List (List BareDef)) (limits : Limits) (moves : List Made) → IsRun texts limits moves self.now
            → option_map (λ x. current x.world.table) (source_run texts limits moves) ≡ Some result }
    {
        self.machine.program.version()
    }

    /// A word of the run's texts.
    pub fn word(&self, word: Word) -> &str
        ensures { result.now ≡ word_text (words_of self.now) word }
    {
        self.machine.program.trees().text(word)
    }

    /// Whether the thread in a slot is in a transaction.
    pub fn in_transaction(&self, slot: u8) -> bool
        ensures { (texts : List (List BareDef)) (limits : Limits) (moves : List Made) → IsRun texts limits moves self.now
            → option_map (λ x. in_transaction (in_slot x.world slot)) (source_run texts limits moves) ≡ Some result }
    {
        self.machine.in_transaction(slot as usize)
    }

    /// Where the innermost frame of the thread in a slot is, if a thread with frames lives there. It is asked of a run that
    /// isn't over.
    pub fn frame(&self, slot: u8) -> Option<FrameAt>
        ensures { (texts : List (List BareDef)) (limits : Limits) (moves : List Made) → IsRun texts limits moves self.now
            → option_map (λ x. is_over x.world) (source_run texts limits moves) ≡ Some false
            → option_map (λ x. innermost_in (in_slot x.world slot)) (source_run texts limits moves)
            ≡ Some (option_map (place_at (words_of self.now)) result) }
    {
        self.machine.innermost(slot as usize)
    }

    /// Where the frame of the thread in a slot is that is so many calls above the innermost: 0 is the innermost one, 1 the
    /// one that called it. It is asked of a run that isn't over.
    pub fn frame_up(&self, slot: u8, up: usize) -> Option<FrameAt>
        ensures { (texts : List (List BareDef)) (limits : Limits) (moves : List Made) → IsRun texts limits moves self.now
            → option_map (λ x. is_over x.world) (source_run texts limits moves) ≡ Some false
            → option_map (λ x. place_up_in up (in_slot x.world slot)) (source_run texts limits moves)
            ≡ Some (option_map (place_at (words_of self.now)) result) }
    {
        self.machine.frame_up(slot as usize, up)
    }

    /// The number of the point at which the innermost frame of the thread in a slot stops next, if that is what the thread
    /// does next; none where it enters a function, or traps before it stops. It is asked of a run that isn't over.
    pub fn next_point(&self, slot: u8) -> Option<u32>
        ensures { (texts : List (List BareDef)) (limits : Limits) (moves : List Made) → IsRun texts limits moves self.now
            → option_map (λ x. is_over x.world) (source_run texts limits moves) ≡ Some false
            → option_map (λ x. next_point_in (in_slot x.world slot)) (source_run texts limits moves) ≡ Some result }
    {
        self.machine.next_point(slot as usize)
    }

    /// The function that the thread in a slot is about to enter, if an enter is its next move. It is asked of a run that
    /// isn't over.
    pub fn entering(&self, slot: u8) -> Option<Word>
        ensures { (texts : List (List BareDef)) (limits : Limits) (moves : List Made) → IsRun texts limits moves self.now
            → option_map (λ x. is_over x.world) (source_run texts limits moves) ≡ Some false
            → option_map (λ x. entering_in (in_slot x.world slot)) (source_run texts limits moves)
            ≡ Some (option_map (word_text (words_of self.now)) result) }
    {
        self.machine.entering(slot as usize)
    }

    /// The name that the next move of the thread in a slot uses, if it uses one: the function of the enter that is due, else
    /// the name that its stop uses. It is asked of a run that isn't over.
    pub fn next_use(&self, slot: u8) -> Option<Name>
        ensures { (texts : List (List BareDef)) (limits : Limits) (moves : List Made) → IsRun texts limits moves self.now
            → option_map (λ x. is_over x.world) (source_run texts limits moves) ≡ Some false
            → option_map (λ x. use_due (in_slot x.world slot)) (source_run texts limits moves)
            ≡ Some (option_map (word_name (words_of self.now)) result) }
    {
        self.machine.next_use(slot as usize)
    }
}
