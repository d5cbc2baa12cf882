//! The code of all texts of a run, over one table of trees.
ghost use Rattle.std.specs.Prelude.{IfOk, map};
ghost use Rattle.name_resolution.specs.Found.{Grows};
ghost use Rattle.resolved_tree.specs.Nodes.{Table};
ghost use Rattle.resolved_tree.specs.Trees.{table};
ghost use Rattle.source_programs.specs.Programs.{text_in};
ghost use Rattle.image_load.specs.MadeTexts.{AreCompiled, AreOutlined};

use c_types::Typed;
use resolved_tree::Trees;
use std::alloc::{AllocError, Global};
use text_code::{Body, Outline, generate, resolve};

/// The functions of each text, whose trees are added to the table.
pub(crate) fn outlined(
    alloc: Global,
    trees: &mut Trees,
    texts: &[Typed],
) -> Result<Vec<Vec<Outline>>, AllocError>
    ensures { IfOk result (λ made. (u : Table) → Grows (table trees.new) u
        → AreOutlined u (map text_in texts.now) (map (λ v. v.items) made.items)) }
{
    let mut outlines = Vec::with_capacity(alloc, texts.len())?;
    for text in texts {
        let program = text.program();
        let made = resolve(alloc, trees, program.definitions.as_slice())?;
        outlines.push(made)?;
    }
    Ok(outlines)
}

/// Their code.
pub(crate) fn compiled(
    alloc: Global,
    trees: &Trees,
    texts: &[Typed],
    outlines: &[Vec<Outline>],
) -> Result<Vec<Vec<Body>>, AllocError>
    requires { AreOutlined (table trees.now) (map text_in texts.now) (map (λ v. v.items) outlines.now) }
    ensures { IfOk result (λ made. AreCompiled (table trees.now) (map text_in texts.now) (map (λ v. v.items) made.items)) }
{
    let mut bodies = Vec::with_capacity(alloc, texts.len())?;
    for number in 0..texts.len() {
        let program = texts[number].program();
        let made = generate(
            alloc,
            trees,
            program.definitions.as_slice(),
            outlines[number].as_slice(),
        )?;
        bodies.push(made)?;
    }
    Ok(bodies)
}
