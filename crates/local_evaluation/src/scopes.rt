//! The variables of a frame.
ghost use Rattle.std.specs.Prelude.{◌≡◌, [], ◌∷◌, List, OnOk, if◌then◌else◌};
ghost use Rattle.std.specs.Option.{option_map};
ghost use Rattle.c_semantics.specs.Values.{Value as SeenValue};
ghost use Rattle.c_semantics.specs.Pieces.{Nothing};
ghost use Rattle.c_semantics.specs.Evaluation.{Next, look_up, stored, close_scope};
ghost use Rattle.resolved_tree.specs.Nodes.{Table, word, statement_of};
ghost use Rattle.local_evaluation.specs.Steps.{statement_scopes};
ghost use Rattle.resolved_tree.specs.Trees.{table};
ghost use Rattle.local_evaluation.specs.Values.{seen};
ghost use Rattle.local_evaluation.specs.Work.{scopes_of};

use crate::value::Value;
use crate::work::Local;
use resolved_tree::{StatementNode, Trees, Word};
use std::alloc::AllocError;

/// The value of the innermost variable of a name.
pub(crate) fn look_up(trees: &Trees, scopes: &[Local], name: Word) -> Option<Value>
    ensures { option_map seen result
        ≡ look_up (scopes_of (table trees.now) scopes.now) (word (table trees.now) name) }
{
    let mut left = scopes.len();
    while left > 0 {
        left -= 1;
        if let Local::Variable(other, value) = scopes[left] {
            if trees.same(name, other) {
                return Some(value);
            }
        }
    }
    None
}

/// Changes the value of the innermost variable of a name, if there is one.
pub(crate) fn store(trees: &Trees, scopes: &mut [Local], name: Word, value: Value)
    ensures { scopes_of (table trees.now) scopes.new
        ≡ stored (word (table trees.now) name) (seen value) (scopes_of (table trees.now) scopes.old) }
{
    let mut left = scopes.len();
    while left > 0 {
        left -= 1;
        if let Local::Variable(other, _) = scopes[left] {
            if trees.same(name, other) {
                scopes[left] = Local::Variable(other, value);
                return;
            }
        }
    }
}

/// Enters the scope of a block or a `for` loop, or declares a variable, which begins with zero. Another statement
/// changes nothing.
pub(crate) fn enter(scopes: &mut Vec<Local>, node: StatementNode) -> Result<(), AllocError>
    ensures { OnOk result ((t : Table) → scopes_of t scopes.new.items
        ≡ statement_scopes (statement_of t node) (scopes_of t scopes.old.items)) }
{
    match node {
        StatementNode::Block(_) | StatementNode::For(_, _, _, _) => scopes.push(Local::Block)?,
        StatementNode::Declare(declared, name, _) => {
            scopes.push(Local::Variable(name, Value::zero_of(declared)))?
        }
        StatementNode::Empty
        | StatementNode::Evaluate(_)
        | StatementNode::If(_, _)
        | StatementNode::IfElse(_, _, _)
        | StatementNode::While(_, _)
        | StatementNode::DoWhile(_, _)
        | StatementNode::Break
        | StatementNode::Continue
        | StatementNode::Return(_)
        | StatementNode::UpdatePoint
        | StatementNode::Transaction(_) => {}
    }
    Ok(())
}

/// Leaves the innermost scope. It's told whether there was one.
pub(crate) fn close(scopes: &mut Vec<Local>) -> bool
    ensures { (t : Table) (k : Next) (values : List SeenValue)
        → close_scope k values (scopes_of t scopes.old.items)
        ≡ (if result then k values (scopes_of t scopes.new.items) else Nothing) }
{
    let mut variables = false;
    while let Some(local) = scopes.pop() {
        if let Local::Block = local {
            return true;
        }
        variables = true;
    }
    variables
}
