//! What is asked of an engine beside the trait's calls: its texts, where the frames of its threads are, and from where the rows
//! of its threads come. Nothing changes here.
ghost use Rattle.std.specs.Prelude.{◌≡◌, List, false, option_copied, option_map, slice_get, MatchOption};
ghost use Rattle.c_semantics.specs.SourceTexts.{text_of};
ghost use Rattle.c_semantics.specs.Store.{Body};
ghost use Rattle.source_model.specs.Guards.{Guard, Setup, bodies_of, has_ended, seat_of};
ghost use Rattle.source_model.specs.Worlds.{in_slot, is_over};
ghost use Rattle.patch_build.specs.Versions.{AreVersions};
ghost use Rattle.resolved_tree.specs.Nodes.{Table, word as word_text};
ghost use Rattle.source_runner.specs.Queries.{entering_in, next_point_in, place_at, place_up_in};
ghost use Rattle.plain_engine.specs.Asked.{IsHeld, IsInForce, IsRowAt, all_texts};
ghost use Rattle.plain_engine.specs.Kept.{mark_of};
ghost use Rattle.plain_engine.specs.Plain.{AreSeats, IsAt};

use crate::PlainEngine;
use crate::seat::{Kept, Seat};
use crate::state::State;
use c_types::Typed;
use dsu_io::Sink;
use patch_build::Versions;
use resolved_tree::Word;
use run_machine::Machine;
use source_runner::FrameAt;

/// From where the row in force of a slot comes.
#[derive(Clone, Copy)]
pub enum RowOf {
    /// No thread lives there, or it has no frame.
    NoThread,
    /// The thread passed no check-in yet: the function that it starts with.
    Start(Word),
    /// The frame in which it passed its last check-in, as it was then.
    Passed(FrameAt),
}

/// From where a row comes.
fn row_of(kept: Kept) -> RowOf
    ensures { (t : Table) (bodies : List Body) → IsRowAt t bodies (mark_of t bodies kept) result }
{
    match kept {
        Kept::Empty => RowOf::NoThread,
        Kept::Started(Some(function)) => RowOf::Start(function),
        Kept::Started(None) => RowOf::NoThread,
        Kept::Passed(Some(frame)) => RowOf::Passed(frame),
        Kept::Passed(None) => RowOf::NoThread,
    }
}

impl<M: Machine> State<M> {
    /// What is kept of a slot; a slot that isn't there is empty.
    fn seat(&self, slot: u8) -> Seat
        ensures { (g : Guard) → AreSeats g (M.shown self.now.run) self.now.seats → has_ended g ≡ false
            → IsHeld (M.shown self.now.run).words (bodies_of g) (is_over g.world) result (seat_of g slot) }
    {
        match self.seats.get(slot) {
            Some(seat) => seat,
            None => Seat::empty(),
        }
    }
}

impl<M: Machine, S: Sink> PlainEngine<M, S> {
    /// The text with a number: 0 is the first one, k that of offer k.
    pub fn text(&self, number: usize) -> Option<&Typed>
        ensures { (setup : Setup) (g : Guard) → IsAt M.shown setup g self.now.state self.now.printed self.now.written
            → option_map text_of (option_copied result) ≡ slice_get (all_texts setup) number }
    {
        self.state.run.text(number)
    }

    /// The number of the text in force.
    pub fn in_force(&self) -> usize
        ensures { (setup : Setup) (g : Guard) → IsAt M.shown setup g self.now.state self.now.printed self.now.written
            → IsInForce setup g result }
    {
        self.state.last
    }

    /// The versions so far, from which rows are computed.
    pub fn versions(&self) -> Option<Versions<'_>>
        ensures { (setup : Setup) (g : Guard) → IsAt M.shown setup g self.now.state self.now.printed self.now.written
            → MatchOption result ⊥ (AreVersions g.versions) }
    {
        match self.state.run.text(self.state.last) {
            Some(last) => Some(self.state.installed.versions(last)),
            None => None,
        }
    }

    /// A word of the run's texts.
    pub fn word(&self, word: Word) -> &str
        ensures { result.now ≡ word_text (M.shown self.now.state.run).words word }
    {
        self.state.run.word(word)
    }

    /// Where the frame of the thread in a slot is that is so many calls above the innermost: 0 is the innermost one, 1 the
    /// one that called it. It is asked of a run that isn't over.
    pub fn frame_up(&self, slot: u8, up: usize) -> Option<FrameAt>
        ensures { (setup : Setup) (g : Guard) → IsAt M.shown setup g self.now.state self.now.printed self.now.written
            → is_over g.world ≡ false
            → option_map (place_at (M.shown self.now.state.run).words) result ≡ place_up_in up (in_slot g.world slot) }
    {
        self.state.run.frame_up(slot, up)
    }

    /// The number of the point at which the innermost frame of the thread in a slot stops next, if that is what the thread
    /// does next; none where it enters a function, or traps before it stops. It is asked of a run that isn't over.
    pub fn next_point(&self, slot: u8) -> Option<u32>
        ensures { M.asks self.now.state.run → (setup : Setup) (g : Guard) → IsAt M.shown setup g self.now.state self.now.printed self.now.written
            → is_over g.world ≡ false → result ≡ next_point_in (in_slot g.world slot) }
    {
        self.state.run.next_point(slot)
    }

    /// The function that the thread in a slot is about to enter, if an enter is its next move. It is asked of a run that
    /// isn't over.
    pub fn entering(&self, slot: u8) -> Option<Word>
        ensures { (setup : Setup) (g : Guard) → IsAt M.shown setup g self.now.state self.now.printed self.now.written
            → is_over g.world ≡ false
            → option_map (word_text (M.shown self.now.state.run).words) result ≡ entering_in (in_slot g.world slot) }
    {
        self.state.run.entering(slot)
    }

    /// Whether the thread in a slot is at a check-in. It is asked of a run that hasn't ended.
    pub fn is_at_check_in(&self, slot: u8) -> bool
        ensures { (setup : Setup) (g : Guard) → IsAt M.shown setup g self.now.state self.now.printed self.now.written
            → has_ended g ≡ false → result ≡ (seat_of g slot).at_check_in }
    {
        self.state.is_at_check_in(slot)
    }

    /// Whether the thread in a slot is pinned. It is asked of a run that hasn't ended.
    pub fn is_pinned(&self, slot: u8) -> bool
        ensures { (setup : Setup) (g : Guard) → IsAt M.shown setup g self.now.state self.now.printed self.now.written
            → has_ended g ≡ false → result ≡ (seat_of g slot).pinned }
    {
        self.state.seat(slot).pinned
    }

    /// From where the row in force of a slot comes. It is asked of a run that isn't over.
    pub fn row_of(&self, slot: u8) -> RowOf
        ensures { (setup : Setup) (g : Guard) → IsAt M.shown setup g self.now.state self.now.printed self.now.written
            → is_over g.world ≡ false
            → IsRowAt (M.shown self.now.state.run).words (bodies_of g) (seat_of g slot).mark result }
    {
        row_of(self.state.seat(slot).kept)
    }
}
