//! The offers of a run.
ghost use Rattle.std.specs.Prelude.{◌≡◌, ◌==◌, ◌<◌, ◌≤◌, List, length, map, true, IfOk, Some, if◌then◌else◌};
ghost use Rattle.c_tree.specs.BareExpr.{Bytes};
ghost use Rattle.source_model.specs.Answers.{Answer, answer_seen};
ghost use Rattle.source_model.specs.Guards.{Guard, Setup, answered, can_open, first_guard, is_open, is_reached, lines_written, offer_at};
ghost use Rattle.source_model.specs.Journals.{answers};
ghost use Rattle.source_model.specs.Schedules.{due};
ghost use Rattle.dsu_runs.specs.Books.{IsBook, Says};

use source_model::OfferAnswer;
use std::alloc::{AllocError, Global};
use std::marker::Model;

/// The offers of a run, at most 63: which one is open, which was offered last, and what was answered to each. Offers are
/// numbered from 1. It takes its memory when it is made, and none later.
#[derive(Drop)]
pub struct Book {
    /// How many lines the program must have written before each offer.
    lines: Vec<u32>,
    open_offer: Option<u8>,
    /// The greatest number that was offered.
    greatest: u8,
    /// How many offers were closed.
    closed: u8,
    answers: Vec<OfferAnswer>,
}

impl Model for Book {
    ghost use Rattle.dsu_runs.specs.Books.{AreEntries, Entries};

    ghost Value = { Entries };

    ghost view = { λ b. record { lines = b.lines.items; open_offer = b.open_offer; greatest = b.greatest; closed = b.closed; answers = b.answers.items } };

    ghost invariant = { λ b. AreEntries (record { lines = b.lines.items; open_offer = b.open_offer; greatest = b.greatest; closed = b.closed; answers = b.answers.items }) };
}

impl Book {
    /// The offers before the first event, each with how many lines the program must have written before it.
    pub fn new(alloc: Global, lines: Vec<u32>) -> Result<Book, AllocError>
        requires { length lines.items ≤ 63 }
        ensures { (setup : Setup) (names : List Bytes) → lines.items ≡ map (λ o. o.lines) setup.offers
            → IfOk result (IsBook setup (first_guard setup) names) }
    {
        let mut answers = Vec::with_capacity(alloc, lines.len())?;
        for _offer in 0..lines.len() {
            let _kept = answers.push(OfferAnswer::NotOffered);
        }
        Ok(Book {
            lines,
            open_offer: None,
            greatest: 0,
            closed: 0,
            answers,
        })
    }

    /// How many offers there are.
    pub fn len(&self) -> u8
        ensures { (setup : Setup) (g : Guard) (names : List Bytes) → IsBook setup g names self.now
            → result ≡ length setup.offers }
    {
        self.lines.len() as u8
    }

    /// The open offer.
    pub fn open(&self) -> Option<u8>
        ensures { (setup : Setup) (g : Guard) (names : List Bytes) → IsBook setup g names self.now
            → result ≡ g.open_offer }
    {
        self.open_offer
    }

    /// Whether an offer is the open one.
    pub fn is_open(&self, k: u8) -> bool
        ensures { (setup : Setup) (g : Guard) (names : List Bytes) → IsBook setup g names self.now
            → result ≡ is_open g k }
    {
        self.open_offer == Some(k)
    }

    /// The offer that is due where the program has written so many lines.
    pub fn due(&self, written: usize) -> Option<u8>
        ensures { (setup : Setup) (g : Guard) (names : List Bytes) → IsBook setup g names self.now
            → written ≡ lines_written g.world → result ≡ due setup g }
    {
        if self.are_all_offered() {
            return None;
        }
        if self.closed != self.greatest {
            return None;
        }
        let next = self.greatest + 1;
        if self.is_reached(next, written) {
            Some(next)
        } else {
            None
        }
    }

    /// Whether an offer can be opened where the program has written so many lines.
    pub fn may_offer(&self, k: u8, written: usize) -> bool
        ensures value { (setup : Setup) (g : Guard) (names : List Bytes) → IsBook setup g names self.now
            → written ≡ lines_written g.world → result ≡ can_open setup g k }
        ensures within { result ≡ true → (self.now.greatest < k) × (k ≤ length self.now.lines) }
    {
        if self.open_offer.is_some() {
            return false;
        }
        if k <= self.greatest {
            return false;
        }
        self.is_reached(k, written)
    }

    /// Opens an offer, if it can be opened where the program has written so many lines.
    pub fn offer(&mut self, k: u8, written: usize) -> bool
        ensures { (setup : Setup) (g : Guard) (names : List Bytes) → IsBook setup g names self.old
            → written ≡ lines_written g.world
            → (result ≡ can_open setup g k)
            × IsBook setup (if result then record g { open_offer = Some k; greatest = k } else g) names self.new }
    {
        let may = self.may_offer(k, written);
        if may {
            self.open_offer = Some(k);
            self.greatest = k;
        }
        may
    }

    /// Closes an offer with an answer, if it is the open one.
    pub fn close(&mut self, k: u8, answer: OfferAnswer)
        ensures { (setup : Setup) (g : Guard) (names : List Bytes) (meaning : Answer) → IsBook setup g names self.old
            → is_open g k ≡ true → Says names answer meaning → IsBook setup (answered k meaning g) names self.new }
    {
        if self.open_offer != Some(k) {
            return;
        }
        self.answers[k as usize - 1] = answer;
        self.open_offer = None;
        self.closed += 1;
    }

    /// The answers, in the order of the offers.
    pub fn answers(&self) -> &[OfferAnswer]
        ensures { (setup : Setup) (g : Guard) (names : List Bytes) → IsBook setup g names self.now
            → map (answer_seen names) result.now ≡ answers setup g }
    {
        self.answers.as_slice()
    }

    /// The answers alone, in the order of the offers.
    pub fn into_answers(self) -> Vec<OfferAnswer>
        ensures { result.items ≡ self.answers }
    {
        self.answers
    }

    /// Whether the last offer was offered.
    #[inline(always)]
    fn are_all_offered(&self) -> bool
        ensures { result ≡ (self.now.greatest == length self.now.lines) }
    {
        self.greatest as usize == self.lines.len()
    }

    /// Whether there is an offer of that number for which so many written lines are enough.
    fn is_reached(&self, k: u8, written: usize) -> bool
        ensures value { (setup : Setup) (g : Guard) (names : List Bytes) → IsBook setup g names self.now
            → written ≡ lines_written g.world → result ≡ is_reached g (offer_at setup k) }
        ensures within { result ≡ true → k ≤ length self.now.lines }
    {
        if k == 0 {
            return false;
        }
        match self.lines.get(k as usize - 1) {
            Some(lines) => *lines as usize <= written,
            None => false,
        }
    }
}
