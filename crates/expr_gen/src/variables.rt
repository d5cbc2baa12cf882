//! The variables in scope.
ghost use Rattle.std.specs.Prelude.{◌≡◌, IfOk};
ghost use Rattle.c_semantics.specs.Texts.{bound_type};
ghost use Rattle.resolved_tree.specs.Nodes.{word};
ghost use Rattle.resolved_tree.specs.Trees.{table};
ghost use Rattle.tree_code.specs.Code.{kind_of_type, slot as slot_of, slot_in};
ghost use Rattle.expr_gen.specs.Scope.{variables_of, trees_of, scope_of};

use crate::context::{Context, Variable};
use crate::emit::small;
use crate::kinds::{INT, kind_of};
use bytecode::ValueKind;
use resolved_tree::{Trees, Word};
use std::alloc::AllocError;

/// The number of the newest variable of a name; 0 where there is none.
fn number_of(trees: &Trees, variables: &[Variable], name: Word) -> usize
    ensures { result ≡ slot_in (variables_of (table trees.now) variables.now) (word (table trees.now) name) }
{
    match variables.split_last() {
        Some((last, older)) => {
            if trees.same(name, last.name) {
                older.len()
            } else {
                number_of(trees, older, name)
            }
        }
        None => 0,
    }
}

/// The kind of the newest variable of a name; that of `int` where there is none.
pub(crate) fn variable_kind(trees: &Trees, variables: &[Variable], name: Word) -> ValueKind
    ensures { result ≡ kind_of_type (bound_type (variables_of (table trees.now) variables.now) (word (table trees.now) name)) }
{
    match variables.split_last() {
        Some((last, older)) => {
            if trees.same(name, last.name) {
                kind_of(last.declared)
            } else {
                variable_kind(trees, older, name)
            }
        }
        None => INT,
    }
}

/// The number of the newest variable of a name. Lack of memory is reported where it is 2^32 or more.
pub fn slot(context: &Context, name: Word) -> Result<u32, AllocError>
    ensures { IfOk result (λ n. n ≡ slot_of (scope_of context.now) (word (trees_of context.now) name)) }
{
    small(number_of(context.trees, context.variables, name))
}
