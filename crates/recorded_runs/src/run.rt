//! Recorded runs.
ghost use Rattle.std.specs.Prelude.{◌≡◌, ◌<◌, ◌∷◌, ◌++◌, ℕ, [], List, All, Err, IfOk, IsTrue, OnErr, OnOk, Option, Some, length, map, option_map, slice_get, slice_index_or, true};
ghost use Rattle.c_tree.specs.BareDef.{BareDef};
ghost use Rattle.c_tree.specs.BareExpr.{Bytes};
ghost use Rattle.c_semantics.specs.Threads.{Record as Uses};
ghost use Rattle.source_model.specs.Spans.{spans};
ghost use Rattle.source_model.specs.Uses.{use_of};
ghost use Rattle.source_model.specs.Versions.{Table};
ghost use Rattle.source_model.specs.Worlds.{Closed, Limits, in_slot};
ghost use Rattle.source_model.specs.Runs.{SourceMove as Made, Move as MoveOf, Install, source_run};
ghost use Rattle.version_laws.specs.Histories.{last_text, versions_by};
ghost use Rattle.type_transformers.specs.Changes.{IsChange, changing, name_of};
ghost use Rattle.source_programs.specs.Programs.{name_of as word_name, text_in};
ghost use Rattle.source_runner.specs.declared.run.SourceMove.TheVariants.{Move};
ghost use Rattle.source_runner.specs.Queries.{use_due};
ghost use Rattle.source_runner.specs.declared.run.SourceRun.{SourceRun};
ghost use Rattle.source_runner.specs.SourceRuns.{IsRun, KeepsTexts, trees_of, words_of};
ghost use Rattle.version_spans.specs.Beginnings.{IsTableOf, is_defined};
ghost use Rattle.version_spans.specs.Kept.{AreBeginnings, span_of};
ghost use Rattle.recorded_runs.specs.MoveRecords.{uses_by, with_uses};
ghost use Rattle.recorded_runs.specs.RecordedRuns.{AreKept, CameBy, IsRecorded, Steps, changed_at, stand_in};

use crate::laws::records_follow_moves;
use crate::records::{Records, Stand};
use c_types::Typed;
use source_programs::Name;
use source_runner::{SourceMove, SourceRun, Stepped};
use std::alloc::{AllocError, Global};
use type_transformers::Change;
use version_spans::{Began, NameForm, Span, tables_of_runs};

/// A run of the source machine with the records of its transactions. Once a step ran out of memory nothing is said of it
/// any more.
#[derive(Drop)]
pub struct RecordedRun {
    run: SourceRun,
    records: Records,
    /// Since which version names have their definitions.
    began: Began,
    /// The number of the text in force.
    text: usize,
    /// Whether a step ran out of memory.
    failed: bool,
}

impl RecordedRun {
    /// The start of a run of the first of some texts, where so many objects may live at once and so many slots are there.
    pub fn new(
        alloc: Global,
        texts: Vec<Typed>,
        objects: u32,
        slots: u8,
    ) -> Result<RecordedRun, AllocError>
        requires { 0 < length texts.items }
        ensures run { IfOk result (IsRecorded (map text_in texts.items) (record { objects = objects; slots = slots }) []) }
        ensures trees { IfOk result (λ r. trees_of r.run ≡ texts.items) }
    {
        let began = Began::new(alloc, &texts[0])?;
        let records = Records::new(alloc, (slots as usize).max(1))?;
        Ok(RecordedRun {
            run: SourceRun::new(alloc, texts, objects, slots)?,
            records,
            began,
            text: 0,
            failed: false,
        })
    }

    /// Makes a move, if it can be made. Once a step ran out of memory, each later one does too.
    pub fn step(&mut self, m: SourceMove) -> Result<Stepped, AllocError>
        ensures stepped { (texts : List (List BareDef)) (limits : Limits) (moves : List Made) → IsRecorded texts limits moves self.old
            → Steps texts limits moves m self.new result }
        ensures fails { OnErr result (self.new.failed ≡ true) }
        ensures failed { self.old.failed ≡ true → result ≡ Err (record {}) }
        ensures same { KeepsTexts self.old.run self.new.run }
    {
        if self.failed {
            return Err(AllocError);
        }
        let answer = self.make(m);
        if answer.is_err() {
            self.failed = true;
        }
        answer
    }

    /// Makes a move, if it can be made.
    fn make(&mut self, m: SourceMove) -> Result<Stepped, AllocError>
        ensures stepped { (texts : List (List BareDef)) (limits : Limits) (moves : List Made) → IsRecorded texts limits moves self.old
            → Steps texts limits moves m self.new result }
        ensures same { KeepsTexts self.old.run self.new.run }
    {
        match m {
            SourceMove::Move(slot) => self.make_move(slot),
        }
    }

    /// Makes the move of the thread in a slot, if it can be made, and records it.
    fn make_move(&mut self, slot: u8) -> Result<Stepped, AllocError>
        ensures stepped { (texts : List (List BareDef)) (limits : Limits) (moves : List Made) → IsRecorded texts limits moves self.old
            → Steps texts limits moves (Move slot) self.new result }
        ensures same { KeepsTexts self.old.run self.new.run }
    {
        let used = self.run.next_use(slot);
        match self.run.step(SourceMove::Move(slot))? {
            Stepped::Done => {
                self.record_move(slot, used)?;
                Ok(Stepped::Done)
            }
            Stepped::CannotMove => Ok(Stepped::CannotMove),
        }
    }

    /// Records the move that the thread in a slot has made, which used a name or none.
    fn record_move(&mut self, slot: u8, used: Option<Name>) -> Result<(), AllocError>
        ensures moved { (texts : List (List BareDef)) (limits : Limits) (moves : List Made) (before : SourceRun)
            → IsRecorded texts limits moves (record self.old { run = before }) → IsRun texts limits (moves ++ MoveOf slot ∷ []) self.old.run
            → option_map (λ x. use_due (in_slot x.world slot)) (source_run texts limits moves) ≡ Some (option_map (word_name (words_of self.old.run)) used)
            → OnOk result (IsRecorded texts limits (moves ++ MoveOf slot ∷ []) self.new) }
        ensures run { self.new.run ≡ self.old.run }
    {
        records_follow_moves();
        tables_of_runs();
        if self.run.misused() {
            return Ok(());
        }
        record_if_used(&mut self.records, &self.began, &self.run, slot, used)?;
        let stand = stand_of(&self.run, slot);
        self.records.settle(slot, stand)
    }

    /// Installs the text with a number, if there is one and the run isn't over; the changes are those from the text in force
    /// to it. Where memory runs out, the run stays as it is.
    pub fn install(&mut self, number: usize, changes: &[Change]) -> Result<Stepped, AllocError>
        ensures made { (texts : List (List BareDef)) (limits : Limits) (moves : List Made) → IsRecorded texts limits moves self.old
            → let p = last_text (versions_by texts moves) in let q = slice_index_or texts number [] in
            map name_of changes.now ≡ changing p q → All (IsChange p q) changes.now
            → IfOk result (CameBy texts limits moves (Install number) self.new) }
        ensures stays { OnErr result ((texts : List (List BareDef)) (limits : Limits) (moves : List Made) → IsRecorded texts limits moves self.old
            → IsRecorded texts limits moves self.new) }
        ensures same { KeepsTexts self.old.run self.new.run }
    {
        tables_of_runs();
        if self.run.text(number).is_none() {
            return Ok(Stepped::CannotMove);
        }
        follow_texts(&mut self.began, &self.run, self.text, number)?;
        match self.run.install(number, changes) {
            Ok(Stepped::Done) => {
                self.records.follow(&self.began);
                self.text = number;
                Ok(Stepped::Done)
            }
            Ok(Stepped::CannotMove) => {
                self.began.forget_last();
                Ok(Stepped::CannotMove)
            }
            Err(error) => {
                self.began.forget_last();
                Err(error)
            }
        }
    }

    /// The versions that the definitions of each record share: of those that were closed, the first first, then of those
    /// that are open, by slot.
    pub fn spans(&self) -> Result<Vec<Span>, AllocError>
        ensures { (texts : List (List BareDef)) (limits : Limits) (moves : List Made) → IsRecorded texts limits moves self.now
            → IfOk result (λ s. option_map (λ x. spans x.world) (source_run texts limits moves) ≡ Some (map span_of s.items)) }
    {
        let alloc = *self.records.allocator();
        self.records.spans(alloc, self.run.version())
    }

    /// What was printed, how the run stands, what its threads wait for.
    pub fn run(&self) -> &SourceRun
        ensures same { result.now ≡ self.now.run }
        ensures ran { (texts : List (List BareDef)) (limits : Limits) (moves : List Made) → IsRecorded texts limits moves self.now
            → IsRun texts limits moves result.now }
    {
        &self.run
    }
}

/// The thread in a slot uses a name or none.
fn record_if_used(
    records: &mut Records,
    began: &Began,
    run: &SourceRun,
    slot: u8,
    used: Option<Name>,
) -> Result<(), AllocError>
    ensures kept { let name = option_map (word_name (words_of run.now)) used in (texts : List (List BareDef)) (table : Table) (slots : ℕ → Option Uses) (closed : List Closed)
        → IsTableOf texts table → AreBeginnings texts began.now → ((n : Bytes) → name ≡ Some n → IsTrue (is_defined table n))
        → slot < length records.old.of_slots.items → AreKept table slots closed records.old
        → OnOk result (AreKept table (changed_at slot (with_uses (uses_by table name) (slots slot)) slots) closed records.new) }
    ensures count { length records.new.of_slots.items ≡ length records.old.of_slots.items }
{
    match used {
        Some(name) => record_use(records, began, run, slot, name),
        None => Ok(()),
    }
}

/// The thread in a slot uses a name.
fn record_use(
    records: &mut Records,
    began: &Began,
    run: &SourceRun,
    slot: u8,
    name: Name,
) -> Result<(), AllocError>
    ensures kept { let used = word_name (words_of run.now) name in (texts : List (List BareDef)) (table : Table) (slots : ℕ → Option Uses) (closed : List Closed)
        → IsTableOf texts table → AreBeginnings texts began.now → IsTrue (is_defined table used)
        → slot < length records.old.of_slots.items → AreKept table slots closed records.old
        → OnOk result (AreKept table (changed_at slot (with_uses (use_of table used ∷ []) (slots slot)) slots) closed records.new) }
    ensures count { length records.new.of_slots.items ≡ length records.old.of_slots.items }
{
    match name {
        Name::Plain(word) => records.use_name(began, slot, NameForm::Plain, run.word(word)),
        Name::Struct(tag) => records.use_name(began, slot, NameForm::Struct, run.word(tag)),
    }
}

/// Where the thread of a slot is.
fn stand_of(run: &SourceRun, slot: u8) -> Stand
    ensures { (texts : List (List BareDef)) (limits : Limits) (moves : List Made) → IsRun texts limits moves run.now
        → option_map (λ x. stand_in (in_slot x.world slot)) (source_run texts limits moves) ≡ Some result }
{
    if run.in_transaction(slot) {
        Stand::Inside
    } else if run.is_live(slot) {
        Stand::Outside
    } else {
        Stand::Gone
    }
}

/// The text with one number follows that with another. Lack of memory changes nothing.
fn follow_texts(
    began: &mut Began,
    run: &SourceRun,
    from: usize,
    to: usize,
) -> Result<(), AllocError>
    ensures follows { (versions : List (List BareDef)) → slice_get (map text_in (trees_of run.now)) from ≡ Some (last_text versions)
        → (q : List BareDef) → slice_get (map text_in (trees_of run.now)) to ≡ Some q → AreBeginnings versions began.old
        → OnOk result (AreBeginnings (versions ++ q ∷ []) began.new) }
    ensures stays { OnErr result ((versions : List (List BareDef)) → AreBeginnings versions began.old → AreBeginnings versions began.new) }
{
    match (run.text(from), run.text(to)) {
        (Some(old), Some(new)) => began.follow(old, new),
        (_, _) => Ok(()),
    }
}
