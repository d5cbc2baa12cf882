//! A function's code.
ghost use Rattle.std.specs.Prelude.{◌≡◌, reverse, IfOk};
ghost use Rattle.resolved_tree.specs.Nodes.{statements_at, type_of};
ghost use Rattle.bytecode.specs.Seen.{code_of};
ghost use Rattle.tree_code.specs.Code.{body_code as body_code_of};
ghost use Rattle.expr_gen.specs.Scope.{variables_of};
ghost use Rattle.bytecode_gen.specs.Tails.{trees_of, look_of};

use crate::part::{Jumps, Source};
use crate::statement::statements;
use crate::tail::precede;
use bytecode::Instr;
use expr_gen::{Variable, zero};
use local_evaluation::Stop;
use resolved_tree::{NodeId, ValueType, sum};
use skeletons::CheckInKind;
use std::alloc::{AllocError, Global};

/// The code of a function with some parameters, the last one first, as a frame numbers them, and a type of its value. Lack of
/// memory is reported, too, where the number of a point or of a variable, or the length of a jump, is 2^32 or more.
pub fn body_code(
    alloc: Global,
    source: &Source,
    parameters: &[Variable],
    returned: ValueType,
    body: NodeId,
) -> Result<Vec<Instr>, AllocError>
    ensures { let s = source.now in let t = trees_of s in IfOk result (λ code. code_of t code.items
        ≡ body_code_of (look_of s) (variables_of t parameters.now) (type_of t returned) (statements_at t body)) }
{
    let mut variables = Vec::from_slice(alloc, parameters)?;
    let mut tail = Vec::new(alloc);
    let last = sum(source.trees.statements_points(body), 1)?;
    precede(
        &mut tail,
        &[zero(returned), Instr::Halt(Stop::Return, last)],
    )?;
    let jumps = Jumps {
        broken: tail.len(),
        continued: tail.len(),
    };
    statements(source, &mut variables, &mut tail, body, 1, jumps)?;
    precede(&mut tail, &[Instr::CheckIn(CheckInKind::Entry, 0)])?;
    Ok(reversed(tail))
}

/// The code that a tail is, its first instruction first.
fn reversed(tail: Vec<Instr>) -> Vec<Instr>
    ensures { result.items ≡ reverse tail.items }
{
    let mut code = tail;
    code.as_mut_slice().reverse();
    code
}
