//! The names that functions of a run's texts have.
ghost use Rattle.std.specs.Prelude.{IfOk, List, OnOk, flat_map};
ghost use Rattle.c_tree.specs.BareExpr.{Bytes};
ghost use Rattle.resolved_tree.specs.Nodes.{word};
ghost use Rattle.resolved_tree.specs.Trees.{table};
ghost use Rattle.code_image.specs.Images.{each_once, with_more, with_new};
ghost use Rattle.image_load.specs.MadeTexts.{AreCallees, body_names};

use crate::tables::NameTable;
use resolved_tree::{Trees, Word};
use std::alloc::{AllocError, Global};
use text_code::Body;

/// The names that functions have, each once, in the order in which they come first.
#[derive(Drop)]
pub(crate) struct Callees {
    pub words: Vec<Word>,
    pub numbers: NameTable,
}

impl Callees {
    /// Adds a name.
    fn add(&mut self, alloc: Global, trees: &Trees, name: Word) -> Result<(), AllocError>
        ensures { let t = table trees.now in OnOk result ((names : List Bytes) → AreCallees t names self.old
            → AreCallees t (with_new names (word t name)) self.new) }
    {
        if self.numbers.add(alloc, trees.text(name))? {
            self.words.push(name)?;
        }
        Ok(())
    }

    /// Adds the names of the functions of a text.
    fn add_bodies(
        &mut self,
        alloc: Global,
        trees: &Trees,
        bodies: &[Body],
    ) -> Result<(), AllocError>
        ensures { let t = table trees.now in OnOk result ((names : List Bytes) → AreCallees t names self.old
            → AreCallees t (with_more names (body_names t bodies.now)) self.new) }
    {
        for body in bodies {
            self.add(alloc, trees, body.name)?;
        }
        Ok(())
    }
}

/// Those of all texts.
pub(crate) fn callees_of(
    alloc: Global,
    trees: &Trees,
    bodies: &[Vec<Body>],
) -> Result<Callees, AllocError>
    ensures { let t = table trees.now in IfOk result (AreCallees t (each_once (flat_map (λ bs. body_names t bs.items) bodies.now))) }
{
    let mut callees = Callees {
        words: Vec::new(alloc),
        numbers: NameTable::new(alloc),
    };
    for of_text in bodies {
        callees.add_bodies(alloc, trees, of_text.as_slice())?;
    }
    Ok(callees)
}
