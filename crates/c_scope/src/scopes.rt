//! The tables.
ghost use Rattle.std.specs.Prelude.{◌≡◌, ◌+◌, ◌<◌, ◌↔◌, [], ◌∷◌, drop, length, reverse, IsTrue, IsSome, IsOk, IfOk, OnOk, OnErr, is_none, option_copied, if◌then◌else◌};
ghost use Rattle.c_scope.specs.Tables.{look_up_first, innermost, declared};
ghost use Rattle.c_scope.specs.Names.{texts_of, places_of};
ghost use Rattle.std.specs.Bool.{MatchBool};
ghost use Rattle.c_scope.specs.History.{start_of, tables_of, AreKept, IsBefore};

use crate::names;
use crate::names::Names;
use crate::step::{Declaration, Step};
use indexmap::IndexMap;
use std::alloc::{AllocError, Global};
use std::marker::Model;

/// Tables of declarations, one within the other. Contracts see the list of the tables, the innermost
/// first, and each table as the list of its declarations in order, a name's bytes with its value.
///
/// A name that was declared once keeps its place in memory when its table is left.
#[derive(Drop)]
pub struct Scopes<T> {
    names: Names,
    steps: Vec<Step<T>>,
    /// The place of the innermost table's first step.
    start: usize,
}

impl<T> Model for Scopes<T> {
    ghost use Rattle.std.specs.Prelude.{◌≡◌, ℕ, List, reverse};
    ghost use Rattle.std.specs.Coded.{coded_ℕ, coded_list, coded×};
    ghost use Rattle.c_scope.specs.Names.{texts_of, places_of};
    ghost use Rattle.c_scope.specs.History.{start_of, tables_of, AreKept};

    ghost Value = { List (List (List ℕ × T)) };

    ghost coded = { coded_list (coded_list (coded× (coded_list coded_ℕ) T.code)) };

    ghost view = { λ s. tables_of (texts_of s.names.entries) (reverse s.steps.items) };

    ghost invariant = { λ s. AreKept (texts_of s.names.entries) (places_of s.names.entries) (reverse s.steps.items) × (s.start ≡ start_of (reverse s.steps.items)) };
}

impl<T> Scopes<T> {
    /// One table, the outermost, with nothing in it. It takes no memory yet.
    pub fn new(alloc: Global) -> Scopes<T>
        ensures { result ≡ [] ∷ [] }
    {
        Scopes {
            names: IndexMap::new(alloc),
            steps: Vec::new(alloc),
            start: 0,
        }
    }

    /// Whether a table was entered and not left.
    pub fn is_nested(&self) -> bool
        ensures { IsTrue result ↔ (1 < length self.now) }
    {
        self.start > 0
    }

    /// What the innermost table that has a name declares it as, or `None` if no table has it. Names are
    /// compared by their bytes.
    pub fn find(&self, name: &str) -> Option<&T>
        ensures { option_copied result ≡ innermost self.now name.now }
    {
        let number = names::number_of(&self.names, name)?;
        let place = names::place(&self.names, number)?;
        match &self.steps[place] {
            Step::Declare(declaration) => Some(&declaration.value),
            Step::Enter(_) => None,
        }
    }
}

impl<T: Drop> Scopes<T> {
    /// Enters a table within the innermost one. It becomes the innermost, with nothing in it, and can
    /// be left.
    pub fn enter(&mut self) -> Result<(), AllocError>
        ensures entered { OnOk result (self.new ≡ [] ∷ self.old) }
        ensures nested { OnOk result (1 < length self.new) }
        ensures fault { OnErr result (self.new ≡ self.old) }
    {
        self.steps.push(Step::Enter(self.start))?;
        self.start = self.steps.len();
        Ok(())
    }

    /// Leaves the innermost table, which goes with all its declarations.
    pub fn leave(&mut self)
        requires { 1 < length self.old }
        ensures { self.new ≡ drop 1 self.old }
    {
        while self.start < self.steps.len() {
            undo(&mut self.names, &mut self.steps);
        }
        match self.steps.pop() {
            Some(Step::Enter(outer)) => self.start = outer,
            // The step that entered the table is the last one now.
            Some(Step::Declare(_)) => {}
            None => {}
        }
    }

    /// Declares a name in the innermost table. `false` comes exactly where that table has the name, and
    /// then nothing changes.
    pub fn declare(&mut self, name: &str, value: T) -> Result<bool, AllocError>
        ensures told { IfOk result (λ is_new. is_new ≡ is_none (look_up_first self.old name.now)) }
        ensures tables { IfOk result (λ is_new. self.new
            ≡ (if is_new then declared self.old name.now value else self.old)) }
        ensures present { IsSome (look_up_first self.old name.now) → IsOk result }
        ensures fault { OnErr result (self.new ≡ self.old) }
    {
        let number = names::add(&mut self.names, name)?;
        let hides = names::place(&self.names, number);
        if is_within(hides, self.start) {
            return Ok(false);
        }
        let place = self.steps.len();
        self.steps.push(Step::Declare(Declaration {
            name: number,
            value,
            hides,
        }))?;
        names::set_place(&mut self.names, number, Some(place));
        Ok(true)
    }
}

/// Whether a declaration lies in the table whose first step is at `start`.
fn is_within(place: Option<usize>, start: usize) -> bool
    ensures { MatchBool result (¬ IsBefore start place) (IsBefore start place) }
{
    match place {
        Some(place) => place >= start,
        None => false,
    }
}

/// Takes the last declaration of the innermost table back, so that the name stands for what it hid.
fn undo<T: Drop>(names: &mut Names, steps: &mut Vec<Step<T>>)
    requires kept { AreKept (texts_of names.old.entries) (places_of names.old.entries) (reverse steps.old.items) }
    requires some { start_of (reverse steps.old.items) < length steps.old.items }
    ensures kept { AreKept (texts_of names.new.entries) (places_of names.new.entries) (reverse steps.new.items) }
    ensures start { start_of (reverse steps.new.items) ≡ start_of (reverse steps.old.items) }
    ensures outer { drop 1 (tables_of (texts_of names.new.entries) (reverse steps.new.items))
        ≡ drop 1 (tables_of (texts_of names.old.entries) (reverse steps.old.items)) }
    ensures shorter { length steps.new.items + 1 ≡ length steps.old.items }
{
    if let Some(Step::Declare(declaration)) = steps.pop() {
        names::set_place(names, declaration.name, declaration.hides);
    }
}
