//! What a function that is entered begins with: its parameters as variables, and its body.
ghost use Rattle.std.specs.Prelude.{◌≡◌, ◌∷◌, ◌++◌, OnOk, map, slice_get, unwrap_or};
ghost use Rattle.c_semantics.specs.Threads.{bind as bound_to, body_pieces};
ghost use Rattle.c_semantics.specs.Values.{zero_of};
ghost use Rattle.resolved_tree.specs.Nodes.{Table, statements_at, type_of};
ghost use Rattle.resolved_tree.specs.Trees.{table};
ghost use Rattle.local_evaluation.specs.Pieces.{pending};
ghost use Rattle.local_evaluation.specs.Values.{seen};
ghost use Rattle.local_evaluation.specs.Work.{scopes_of};
ghost use Rattle.source_programs.specs.Definitions.{bindings_of};

use crate::definition::Binding;
use local_evaluation::stack::put;
use local_evaluation::{Local, Piece, Stop, Value};
use resolved_tree::{NodeId, Trees, ValueType, sum};
use std::alloc::AllocError;

/// A function's parameters as the variables of its outermost scope; a parameter without an argument begins with zero.
pub(crate) fn bind(
    scopes: &mut Vec<Local>,
    parameters: &[Binding],
    arguments: &[Value],
) -> Result<(), AllocError>
    ensures { OnOk result ((t : Table) → scopes_of t scopes.new.items
        ≡ bound_to (bindings_of t parameters.now) (map seen arguments.now) ∷ scopes_of t scopes.old.items) }
{
    scopes.push(Local::Block)?;
    let mut left = parameters.len();
    while left > 0 {
        left -= 1;
        let parameter = parameters[left];
        let value = argument_at(parameter.declared, arguments, left);
        scopes.push(Local::Variable(parameter.name, value))?;
    }
    Ok(())
}

/// The argument at a place; where there is none it is zero.
fn argument_at(declared: ValueType, arguments: &[Value], place: usize) -> Value
    ensures { (t : Table) → seen result ≡ unwrap_or (slice_get (map seen arguments.now) place) (zero_of (type_of t declared)) }
{
    match arguments.get(place) {
        Some(value) => *value,
        None => Value::zero_of(declared),
    }
}

/// A body and the return after it, before other pieces.
pub(crate) fn put_body(
    trees: &Trees,
    pieces: &mut Vec<Piece>,
    body: NodeId,
    returned: ValueType,
) -> Result<(), AllocError>
    ensures { OnOk result (pending (table trees.now) pieces.new.items
        ≡ body_pieces (statements_at (table trees.now) body) (type_of (table trees.now) returned) ++ pending (table trees.now) pieces.old.items) }
{
    let points = trees.statements_points(body);
    put(
        pieces,
        &[
            Piece::Sequence(body, 1),
            Piece::Push(Value::zero_of(returned)),
            Piece::At(Stop::Return, sum(1, points)?),
        ],
    )
}
