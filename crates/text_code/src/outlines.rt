//! The outlines of a text's functions.
ghost use Rattle.std.specs.Prelude.{◌≡◌, IfOk, map, option_map};
ghost use Rattle.c_tree.specs.Bare.{bare_def};
ghost use Rattle.name_resolution.specs.Found.{Grows};
ghost use Rattle.name_resolution.specs.Known.{known_of};
ghost use Rattle.resolved_tree.specs.Nodes.{Table};
ghost use Rattle.resolved_tree.specs.Trees.{table};
ghost use Rattle.text_code.specs.Bodies.{outlined, outline_if, outlines_of};

use crate::outline::{Outline, resolved};
use c_definitions::Known;
use c_tree::{Def, DefKind};
use resolved_tree::Trees;
use std::alloc::{AllocError, Global};

/// The outlines of a text's functions, in its order.
pub(crate) fn outlines(
    alloc: Global,
    trees: &mut Trees,
    known: &Known,
    text: &[Def],
) -> Result<Vec<Outline>, AllocError>
    ensures outlines { IfOk result (λ made. (u : Table) → Grows (table trees.new) u
        → map (outlined u) made.items ≡ outlines_of (known_of known.now) (map bare_def text.now)) }
    ensures grows { Grows (table trees.old) (table trees.new) }
{
    let mut outlines = Vec::new(alloc);
    for definition in text {
        if let Some(made) = outline_in(alloc, trees, known, definition)? {
            outlines.push(made)?;
        }
    }
    Ok(outlines)
}

/// The outline of a definition, if it is a function's.
fn outline_in(
    alloc: Global,
    trees: &mut Trees,
    known: &Known,
    definition: &Def,
) -> Result<Option<Outline>, AllocError>
    ensures made { IfOk result (λ made. (u : Table) → Grows (table trees.new) u
        → option_map (outlined u) made ≡ outline_if (known_of known.now) (bare_def definition.now)) }
    ensures grows { Grows (table trees.old) (table trees.new) }
{
    match &definition.kind {
        DefKind::Function(function) => {
            let made = resolved(alloc, trees, known, function)?;
            Ok(Some(made))
        }
        _ => Ok(None),
    }
}
