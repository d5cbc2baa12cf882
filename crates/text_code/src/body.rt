//! The code of functions.
ghost use Rattle.std.specs.Prelude.{◌≡◌, IfOk, map};
ghost use Rattle.bytecode_gen.specs.Tails.{trees_of, look_of};
ghost use Rattle.text_code.specs.Bodies.{outlined, coded, body_of};

use crate::outline::Outline;
use bytecode::Instr;
use bytecode_gen::{Source, body_code};
use resolved_tree::Word;
use std::alloc::{AllocError, Global};

/// The code of a function.
#[derive(Drop)]
pub struct Body {
    /// The function.
    pub name: Word,
    /// How many parameters it has.
    pub parameters: usize,
    pub code: Vec<Instr>,
}

/// The code of some functions.
pub(crate) fn bodies(
    alloc: Global,
    source: &Source,
    outlines: &[Outline],
) -> Result<Vec<Body>, AllocError>
    ensures { let t = trees_of source.now in IfOk result (λ bodies.
        map (body_of t) bodies.items ≡ map (coded (look_of source.now)) (map (outlined t) outlines.now)) }
{
    let mut bodies = Vec::with_capacity(alloc, outlines.len())?;
    for outline in outlines {
        let made = made_of(alloc, source, outline)?;
        bodies.push(made)?;
    }
    Ok(bodies)
}

/// The code of a function.
fn made_of(alloc: Global, source: &Source, outline: &Outline) -> Result<Body, AllocError>
    ensures { let t = trees_of source.now in IfOk result (λ made.
        body_of t made ≡ coded (look_of source.now) (outlined t outline.now)) }
{
    let code = body_code(
        alloc,
        source,
        outline.parameters.as_slice(),
        outline.result,
        outline.body,
    )?;
    Ok(Body {
        name: outline.name,
        parameters: outline.parameters.len(),
        code,
    })
}
