//! The records of a run's transactions, open and closed.
ghost use Rattle.std.specs.Prelude.{◌≡◌, ◌≤◌, ◌<◌, ◌∷◌, ◌++◌, ℕ, List, [], None, Option, IfOk, OnOk, IsTrue, length, map, replicate, true, slice_index_or};
ghost use Rattle.c_tree.specs.BareDef.{BareDef};
ghost use Rattle.c_semantics.specs.Threads.{Record as Uses};
ghost use Rattle.source_model.specs.JournalLaws.{HasMain};
ghost use Rattle.source_model.specs.Runs.{open_of};
ghost use Rattle.source_model.specs.Spans.{span, spans, spans_from};
ghost use Rattle.source_model.specs.Uses.{use_of};
ghost use Rattle.source_model.specs.Versions.{Table, current, next_table};
ghost use Rattle.source_model.specs.Worlds.{World, Closed, Slot as SlotOf, Free};
ghost use Rattle.version_laws.specs.Histories.{last_text};
ghost use Rattle.version_spans.specs.Beginnings.{IsTableOf, is_defined};
ghost use Rattle.version_spans.specs.Kept.{AreBeginnings, name_of, span_of};
ghost use Rattle.recorded_runs.specs.MoveRecords.{closed_by, open_by, with_uses};
ghost use Rattle.recorded_runs.specs.RecordedRuns.{AreClosed, AreKept, AreRecords, IsOpen, changed_at, has_left, is_inside};

use std::alloc::{AllocError, Global};
use std::mem;
use version_spans::{Began, NameForm, Record, Span};

/// How many slots have a number.
const SLOTS: usize = 256;

/// The record of a transaction that was closed.
#[derive(Drop)]
pub(crate) struct ClosedRecord {
    /// The slot of its thread.
    slot: u8,
    kept: Record,
}

/// Where the thread of a slot is after its move.
#[derive(Clone, Copy)]
pub(crate) enum Stand {
    /// In a transaction.
    Inside,
    /// In none.
    Outside,
    /// No thread lives in the slot.
    Gone,
}

/// The records of a run's transactions.
#[derive(Drop)]
pub(crate) struct Records {
    /// Of each slot the record of its thread, if that is in a transaction.
    of_slots: Vec<Option<Record>>,
    /// Those that were closed, the first first.
    closed: Vec<ClosedRecord>,
}

impl Records {
    /// No records, of so many slots.
    pub(crate) fn new(alloc: Global, slots: usize) -> Result<Records, AllocError>
        ensures { IfOk result (λ r. (r.of_slots.items ≡ replicate slots None) × (r.closed.items ≡ [])) }
    {
        Ok(Records {
            of_slots: no_records(alloc, slots)?,
            closed: Vec::new(alloc),
        })
    }

    /// The allocator that they are in.
    pub(crate) fn allocator(&self) -> &Global {
        self.closed.allocator()
    }

    /// The thread in a slot uses a name.
    pub(crate) fn use_name(
        &mut self,
        began: &Began,
        slot: u8,
        form: NameForm,
        text: &str,
    ) -> Result<(), AllocError>
        ensures kept { (texts : List (List BareDef)) (table : Table) (slots : ℕ → Option Uses) (closed : List Closed)
            → IsTableOf texts table → AreBeginnings texts began.now → IsTrue (is_defined table (name_of form text.now))
            → slot < length self.old.of_slots.items → AreKept table slots closed self.old
            → OnOk result (AreKept table (changed_at slot (with_uses (use_of table (name_of form text.now) ∷ []) (slots slot)) slots) closed self.new) }
        ensures count { length self.new.of_slots.items ≡ length self.old.of_slots.items }
    {
        match self.of_slots.get_mut(slot as usize) {
            Some(record) => add_use(record, began, form, text),
            None => Ok(()),
        }
    }

    /// The thread of a slot has moved: its record is begun, goes on, is closed or is gone.
    pub(crate) fn settle(&mut self, slot: u8, stand: Stand) -> Result<(), AllocError>
        ensures kept { (table : Table) (slots : ℕ → Option Uses) (closed : List Closed)
            → 0 < current table → slot < length self.old.of_slots.items → AreKept table slots closed self.old
            → OnOk result (AreKept table (changed_at slot (open_by (is_inside stand) (slots slot)) slots)
            (closed_by (has_left stand) slot (slots slot) closed) self.new) }
        ensures count { length self.new.of_slots.items ≡ length self.old.of_slots.items }
    {
        let alloc = *self.of_slots.allocator();
        let Some(place) = self.of_slots.get_mut(slot as usize) else {
            return Ok(());
        };
        match stand {
            Stand::Inside => {
                begin(place, alloc);
                Ok(())
            }
            Stand::Outside => {
                let left = mem::replace(place, None);
                close(&mut self.closed, slot, left)
            }
            Stand::Gone => {
                *place = None;
                Ok(())
            }
        }
    }

    /// A newer text was installed, and `began` has followed it already.
    pub(crate) fn follow(&mut self, began: &Began)
        ensures kept { (texts : List (List BareDef)) (q : List BareDef) (table : Table) (slots : ℕ → Option Uses) (closed : List Closed)
            → IsTableOf texts table → HasMain q → AreBeginnings (texts ++ q ∷ []) began.now → AreKept table slots closed self.old
            → AreKept (next_table (current table) (last_text texts) q table) slots closed self.new }
        ensures count { length self.new.of_slots.items ≡ length self.old.of_slots.items }
    {
        follow_open(self.of_slots.as_mut_slice(), began);
        follow_closed(self.closed.as_mut_slice(), began);
    }

    /// The spans of all records, where `newest` is the current version: those of closed ones, the first first, and then
    /// those of open ones by slot.
    pub(crate) fn spans(&self, alloc: Global, newest: usize) -> Result<Vec<Span>, AllocError>
        ensures { (w : World) → newest ≡ current w.table → length self.now.of_slots.items ≤ 256 → AreRecords w self.now
            → IfOk result (λ s. spans w ≡ map span_of s.items) }
    {
        let mut list = Vec::new(alloc);
        list_closed(self.closed.as_slice(), newest, &mut list)?;
        list_open(self.of_slots.as_slice(), newest, &mut list)?;
        Ok(list)
    }
}

/// No records of so many slots.
fn no_records(alloc: Global, slots: usize) -> Result<Vec<Option<Record>>, AllocError>
    ensures { IfOk result (λ r. r.items ≡ replicate slots None) }
{
    let mut none = Vec::new(alloc);
    for _ in 0..slots {
        none.push(None)?;
    }
    Ok(none)
}

/// Adds a use to a record, if there is one.
fn add_use(
    place: &mut Option<Record>,
    began: &Began,
    form: NameForm,
    text: &str,
) -> Result<(), AllocError>
    ensures { (texts : List (List BareDef)) (table : Table) (uses : Option Uses) → IsTableOf texts table → AreBeginnings texts began.now
        → IsTrue (is_defined table (name_of form text.now)) → IsOpen table place.old uses
        → OnOk result (IsOpen table place.new (with_uses (use_of table (name_of form text.now) ∷ []) uses)) }
{
    match place {
        Some(kept) => kept.add(began, form, text),
        None => Ok(()),
    }
}

/// Begins a record, where there is none.
fn begin(place: &mut Option<Record>, alloc: Global)
    ensures { (table : Table) (uses : Option Uses) → 0 < current table → IsOpen table place.old uses
        → IsOpen table place.new (open_by true uses) }
{
    if place.is_none() {
        *place = Some(Record::new(alloc));
    }
}

/// Closes a record, if there is one.
fn close(closed: &mut Vec<ClosedRecord>, slot: u8, left: Option<Record>) -> Result<(), AllocError>
    ensures { (table : Table) (uses : Option Uses) (own : List Closed) → IsOpen table left uses → AreClosed table closed.old.items own
        → OnOk result (AreClosed table closed.new.items (closed_by true slot uses own)) }
{
    match left {
        Some(kept) => {
            closed.push(ClosedRecord { slot, kept })?;
            Ok(())
        }
        None => Ok(()),
    }
}

/// Open records follow an install.
fn follow_open(records: &mut [Option<Record>], began: &Began)
    ensures kept { (texts : List (List BareDef)) (q : List BareDef) (table : Table) (slots : ℕ → Option Uses)
        → IsTableOf texts table → HasMain q → AreBeginnings (texts ++ q ∷ []) began.now
        → ((k : ℕ) → IsOpen table (slice_index_or records.old k None) (slots k))
        → (k : ℕ) → IsOpen (next_table (current table) (last_text texts) q table) (slice_index_or records.new k None) (slots k) }
    ensures count { length records.new ≡ length records.old }
{
    for place in 0..records.len() {
        follow_one(&mut records[place], began);
    }
}

/// So does one, if it is there.
fn follow_one(place: &mut Option<Record>, began: &Began)
    ensures { (texts : List (List BareDef)) (q : List BareDef) (table : Table) (uses : Option Uses)
        → IsTableOf texts table → HasMain q → AreBeginnings (texts ++ q ∷ []) began.now → IsOpen table place.old uses
        → IsOpen (next_table (current table) (last_text texts) q table) place.new uses }
{
    if let Some(kept) = place {
        kept.follow(began);
    }
}

/// Closed records follow an install.
fn follow_closed(records: &mut [ClosedRecord], began: &Began)
    ensures kept { (texts : List (List BareDef)) (q : List BareDef) (table : Table) (own : List Closed)
        → IsTableOf texts table → HasMain q → AreBeginnings (texts ++ q ∷ []) began.now → AreClosed table records.old own
        → AreClosed (next_table (current table) (last_text texts) q table) records.new own }
    ensures count { length records.new ≡ length records.old }
{
    for place in 0..records.len() {
        records[place].kept.follow(began);
    }
}

/// Lists the spans of closed records, where `newest` is the current version.
fn list_closed(
    records: &[ClosedRecord],
    newest: usize,
    spans: &mut Vec<Span>,
) -> Result<(), AllocError>
    ensures { (table : Table) (own : List Closed) → newest ≡ current table → AreClosed table records.now own
        → OnOk result (map span_of spans.new.items ≡ map span_of spans.old.items ++ map (λ c. span table c.slot c.uses) own) }
{
    for closed in records {
        spans.push(closed.kept.span(closed.slot, newest))?;
    }
    Ok(())
}

/// Lists the spans of open records by slot, where `newest` is the current version.
fn list_open(
    records: &[Option<Record>],
    newest: usize,
    spans: &mut Vec<Span>,
) -> Result<(), AllocError>
    ensures { (table : Table) (slots : List SlotOf) → newest ≡ current table → length records.now ≤ 256 → length records.now ≡ length slots
        → ((k : ℕ) → IsOpen table (slice_index_or records.now k None) (open_of (slice_index_or slots k Free)))
        → OnOk result (map span_of spans.new.items ≡ map span_of spans.old.items ++ spans_from table 0 slots) }
{
    for place in 0..records.len().min(SLOTS) {
        if let Some(record) = &records[place] {
            spans.push(record.span(place as u8, newest))?;
        }
    }
    Ok(())
}
