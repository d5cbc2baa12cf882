//! Places by function and generation.
ghost use Rattle.std.specs.Prelude.{◌≡◌, ◌<◌, ◌==◌, ◌&&◌, ℕ, None, Some, OnOk, length, if◌then◌else◌};
ghost use Rattle.verified_code.specs.Places.{place_at, place_in};

use std::alloc::{AllocError, Global};
use std::marker::Model;

/// The places of one function's bodies, by generation. Contracts see their list.
#[derive(Drop)]
struct Row {
    places: Vec<Option<usize>>,
}

impl Model for Row {
    ghost use Rattle.std.specs.Prelude.{ℕ, List, Option};

    ghost Value = { List (Option ℕ) };

    ghost view = { λ r. r.places.items };
}

impl Row {
    /// No places. It takes no memory yet.
    fn new(alloc: Global) -> Row
        ensures { (g : ℕ) → place_at result g ≡ None }
    {
        Row {
            places: Vec::new(alloc),
        }
    }

    /// The place of a generation.
    fn find(&self, generation: usize) -> Option<usize>
        ensures { result ≡ place_at self.now generation }
    {
        match self.places.get(generation) {
            Some(place) => *place,
            None => None,
        }
    }

    /// Makes room for a generation.
    fn widen(&mut self, generation: usize) -> Result<(), AllocError>
        ensures room { OnOk result (generation < length self.new) }
        ensures same { OnOk result ((g : ℕ) → place_at self.new g ≡ place_at self.old g) }
    {
        while self.places.len() <= generation {
            self.places.push(None)?;
        }
        Ok(())
    }

    /// Gives a generation a place; the one that it had goes.
    fn put(&mut self, generation: usize, place: usize) -> Result<(), AllocError>
        ensures { OnOk result ((g : ℕ) → place_at self.new g ≡ (if g == generation then Some place else place_at self.old g)) }
    {
        self.widen(generation)?;
        self.places[generation] = Some(place);
        Ok(())
    }
}

/// The places of bodies in a list. A look goes through no list.
#[derive(Drop)]
pub(crate) struct Places {
    /// Those of each function, by the number of its name.
    rows: Vec<Row>,
}

impl Model for Places {
    ghost use Rattle.std.specs.Prelude.{ℕ, List, Option};

    ghost Value = { List (List (Option ℕ)) };

    ghost view = { λ p. p.rows.items };
}

impl Places {
    /// No places. It takes no memory yet.
    pub(crate) fn new(alloc: Global) -> Places
        ensures { (f g : ℕ) → place_in result f g ≡ None }
    {
        Places {
            rows: Vec::new(alloc),
        }
    }

    /// The place of a function's generation.
    pub(crate) fn find(&self, function: usize, generation: usize) -> Option<usize>
        ensures { result ≡ place_in self.now function generation }
    {
        match self.rows.get(function) {
            Some(row) => row.find(generation),
            None => None,
        }
    }

    /// Makes room for a function.
    fn widen(&mut self, alloc: Global, function: usize) -> Result<(), AllocError>
        ensures room { OnOk result (function < length self.new) }
        ensures same { OnOk result ((f g : ℕ) → place_in self.new f g ≡ place_in self.old f g) }
    {
        while self.rows.len() <= function {
            self.rows.push(Row::new(alloc))?;
        }
        Ok(())
    }

    /// Gives a function's generation a place; the one that it had goes.
    pub(crate) fn put(
        &mut self,
        alloc: Global,
        function: usize,
        generation: usize,
        place: usize,
    ) -> Result<(), AllocError>
        ensures { OnOk result ((f g : ℕ) → place_in self.new f g
            ≡ (if (f == function) && (g == generation) then Some place else place_in self.old f g)) }
    {
        self.widen(alloc, function)?;
        self.rows[function].put(generation, place)?;
        Ok(())
    }
}
