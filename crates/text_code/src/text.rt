//! The code of a text.
ghost use Rattle.std.specs.Prelude.{◌≡◌, IfOk, map};
ghost use Rattle.c_tree.specs.Bare.{bare_def};
ghost use Rattle.c_semantics.specs.Texts.{definition};
ghost use Rattle.name_resolution.specs.Found.{Grows};
ghost use Rattle.resolved_tree.specs.Nodes.{Table};
ghost use Rattle.resolved_tree.specs.Trees.{table};
ghost use Rattle.text_code.specs.Bodies.{body_of, code_of_text, outlined, outlines_of};

use crate::body::{Body, bodies};
use crate::outline::Outline;
use crate::outlines::outlines;
use bytecode_gen::Source;
use c_definitions::Known;
use c_tree::Def;
use resolved_tree::Trees;
use std::alloc::{AllocError, Global};

/// The code of each function of a text, in the text's order. The trees of the functions are added to the table; what was in it
/// stays. An error is lack of memory, or a text of which the number of a point or the length of a jump is 2^32 or more.
pub fn compile(alloc: Global, trees: &mut Trees, text: &[Def]) -> Result<Vec<Body>, AllocError>
    ensures code { let whole = map bare_def text.now in IfOk result (λ bodies.
        map (body_of (table trees.new)) bodies.items ≡ code_of_text (definition whole) whole) }
    ensures grows { Grows (table trees.old) (table trees.new) }
{
    let outlines = resolve(alloc, trees, text)?;
    generate(alloc, &*trees, text, outlines.as_slice())
}

/// The functions of a text, in the text's order, with their trees in the table; what was in it stays. They mean the same in each
/// table that this one grows to.
pub fn resolve(alloc: Global, trees: &mut Trees, text: &[Def]) -> Result<Vec<Outline>, AllocError>
    ensures outlines { let whole = map bare_def text.now in IfOk result (λ made. (u : Table) → Grows (table trees.new) u
        → map (outlined u) made.items ≡ outlines_of (definition whole) whole) }
    ensures grows { Grows (table trees.old) (table trees.new) }
{
    let known = Known::of(alloc, text)?;
    outlines(alloc, trees, &known, text)
}

/// The code of the functions of a text whose trees are in the table, in their order. An error is as that of [`compile`].
pub fn generate(
    alloc: Global,
    trees: &Trees,
    text: &[Def],
    outlines: &[Outline],
) -> Result<Vec<Body>, AllocError>
    ensures { let whole = map bare_def text.now in let t = table trees.now in IfOk result (λ bodies.
        map (outlined t) outlines.now ≡ outlines_of (definition whole) whole
        → map (body_of t) bodies.items ≡ code_of_text (definition whole) whole) }
{
    let known = Known::of(alloc, text)?;
    let source = Source {
        trees,
        known: &known,
    };
    bodies(alloc, &source, outlines)
}
