//! The places of the points of texts.
ghost use Rattle.std.specs.Prelude.{IfOk};
ghost use Rattle.name_resolution.specs.Known.{known_of};
ghost use Rattle.thread_notes.specs.Mapped.{IsMapped};

use c_definitions::Known;
use c_tree::{Def, DefKind, Function};
use c_types::Typed;
use dsu_io::Text;
use name_resolution::resolve_body;
use point_places::places_of;
use resolved_tree::Trees;
use std::alloc::{AllocError, Global};

/// The places of a function's points, by their numbers.
#[derive(Drop)]
pub(crate) struct Mapped {
    pub function: Text,
    /// Counted in bytes from the start of the text. Point 0 is the entry, whose place is the function's name.
    pub places: Vec<usize>,
}

/// The places of the points of a run's texts. Those of a text are found at the first question about it.
#[derive(Drop)]
pub struct Places {
    texts: Vec<Option<Vec<Mapped>>>,
}

impl Places {
    /// Those of so many texts, of which none was asked about yet.
    pub fn new(alloc: Global, texts: usize) -> Result<Places, AllocError> {
        let mut empty = Vec::new(alloc);
        for _ in 0..texts {
            empty.push(None)?;
        }
        Ok(Places { texts: empty })
    }

    /// Finds the places of the text with a number, if they aren't there.
    pub(crate) fn find(
        &mut self,
        alloc: Global,
        number: usize,
        text: &Typed,
    ) -> Result<(), AllocError> {
        if !self.lacks(number) {
            return Ok(());
        }
        let found = mapped_in(alloc, text)?;
        if number < self.texts.len() {
            self.texts[number] = Some(found);
        }
        Ok(())
    }

    /// Whether the places of the text with a number are still to be found.
    fn lacks(&self, number: usize) -> bool {
        matches!(self.texts.get(number), Some(None))
    }

    /// The byte at which a point of a function is, in the text with a number.
    pub(crate) fn at(&self, number: usize, function: &str, point: u32) -> Option<usize> {
        match self.texts.get(number) {
            Some(Some(functions)) => place_in(functions.as_slice(), function, point as usize),
            _ => None,
        }
    }
}

/// The byte at which a point of a function is.
fn place_in(functions: &[Mapped], name: &str, point: usize) -> Option<usize> {
    for one in functions {
        if one.function.as_str() == name {
            return one.places.get(point).copied();
        }
    }
    None
}

/// The places of the functions of a text.
fn mapped_in(alloc: Global, text: &Typed) -> Result<Vec<Mapped>, AllocError> {
    let definitions = text.program().definitions.as_slice();
    let known = Known::of(alloc, definitions)?;
    let mut functions = Vec::new(alloc);
    for one in definitions {
        add_definition(alloc, &known, one, &mut functions)?;
    }
    Ok(functions)
}

/// Adds the places of a definition, if it is a function.
fn add_definition(
    alloc: Global,
    known: &Known,
    added: &Def,
    functions: &mut Vec<Mapped>,
) -> Result<(), AllocError> {
    if let DefKind::Function(function) = &added.kind {
        functions.push(map_of(alloc, known, function)?)?;
    }
    Ok(())
}

/// The places of a function.
fn map_of(alloc: Global, known: &Known, function: &Function) -> Result<Mapped, AllocError>
    ensures { IfOk result (IsMapped (known_of known.now) function.now) }
{
    let mut trees = Trees::new(alloc);
    let body = resolve_body(&mut trees, known, function)?;
    let places = places_of(alloc, &trees, body, function)?;
    let function = function.name.text.clone()?;
    Ok(Mapped { function, places })
}
