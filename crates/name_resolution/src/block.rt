//! Parts of statements: their trees, local variables, and lists of statements.
ghost use Rattle.std.specs.Prelude.{◌≡◌, ◌∷◌, [], map, option_map, IfOk, OnOk};
ghost use Rattle.std.specs.Option.{option_map_or};
ghost use Rattle.c_tree.specs.Bare.{bare_type, bare_expr, bare_stmt, bare_declaration};
ghost use Rattle.c_semantics.specs.Resolved.{NoStatements, Constant, Convert, Declare, Evaluate, Return};
ghost use Rattle.c_semantics.specs.Texts.{int};
ghost use Rattle.c_semantics.specs.Resolution.{int_value, tree_of, declared_by, declaration as declaration_of};
ghost use Rattle.resolved_tree.specs.Nodes.{Table, expression_at, expression_if, statement_at, statement_of, statements_at, statements_of};
ghost use Rattle.resolved_tree.specs.Parts.{a_node, a_node_if, in_statement, in_statements};
ghost use Rattle.name_resolution.specs.Found.{Grows, IsIn, each_node, before};
ghost use Rattle.name_resolution.specs.Known.{known_of, locals_of, binding_of};
ghost use Rattle.resolved_tree.specs.Trees.{table};

use crate::expression::resolve;
use crate::found::{converted, expression, tree, value_type, word};
use crate::known::Local;
use crate::names::type_or_int;
use c_definitions::Known;
use c_ints::Int;
use c_tree::{CType, Declaration, Expr, Stmt, StmtNode};
use resolved_tree::{ExpressionNode, Node, NodeId, StatementNode, StatementsNode, Trees};
use std::alloc::{AllocError, Global};

/// A new tree of a statement.
pub(crate) fn statement(trees: &mut Trees, node: StatementNode) -> Result<NodeId, AllocError>
    requires { IsIn (table trees.old) (in_statement node) }
    ensures tree { IfOk result (λ id. (u : Table) → Grows (table trees.new) u → statement_at u id ≡ statement_of u node) }
    ensures within { IfOk result (λ id. IsIn (table trees.new) (a_node id)) }
    ensures grows { Grows (table trees.old) (table trees.new) }
{
    let id = trees.push(Node::Statement(node))?;
    Ok(id)
}

/// A new tree of statements.
pub fn statements(trees: &mut Trees, node: StatementsNode) -> Result<NodeId, AllocError>
    requires { IsIn (table trees.old) (in_statements node) }
    ensures tree { IfOk result (λ id. (u : Table) → Grows (table trees.new) u → statements_at u id ≡ statements_of u node) }
    ensures within { IfOk result (λ id. IsIn (table trees.new) (a_node id)) }
    ensures grows { Grows (table trees.old) (table trees.new) }
{
    let id = trees.push(Node::Statements(node))?;
    Ok(id)
}

/// Statements as one list. It is made from its end, so no statement waits for those after it.
pub(crate) fn linked(trees: &mut Trees, ids: &[NodeId]) -> Result<NodeId, AllocError>
    requires { IsIn (table trees.old) (each_node ids.now) }
    ensures tree { IfOk result (λ id. (u : Table) → Grows (table trees.new) u
        → statements_at u id ≡ before (map (statement_at u) ids.now) NoStatements) }
    ensures within { IfOk result (λ id. IsIn (table trees.new) (a_node id)) }
    ensures grows { Grows (table trees.old) (table trees.new) }
{
    let mut list = statements(trees, StatementsNode::None)?;
    let mut i = ids.len();
    while i > 0 {
        i -= 1;
        list = statements(trees, StatementsNode::Then(ids[i], list))?;
    }
    Ok(list)
}

/// The tree of an expression.
pub(crate) fn evaluated(
    trees: &mut Trees,
    known: &Known,
    locals: &[Local],
    expr: &Expr,
) -> Result<NodeId, AllocError>
    ensures tree { IfOk result (λ id. (u : Table) → Grows (table trees.new) u
        → expression_at u id ≡ tree_of (known_of known.now) (locals_of locals.now) (bare_expr expr.now)) }
    ensures within { IfOk result (λ id. IsIn (table trees.new) (a_node id)) }
    ensures grows { Grows (table trees.old) (table trees.new) }
{
    let found = resolve(trees, known, locals, expr)?;
    tree(trees, found)
}

/// The tree of an expression that may be absent.
pub(crate) fn evaluated_if(
    trees: &mut Trees,
    known: &Known,
    locals: &[Local],
    expr: &Option<Expr>,
) -> Result<Option<NodeId>, AllocError>
    ensures tree { IfOk result (λ id. (u : Table) → Grows (table trees.new) u
        → expression_if u id ≡ option_map (tree_of (known_of known.now) (locals_of locals.now)) (option_map bare_expr expr.now)) }
    ensures within { IfOk result (λ id. IsIn (table trees.new) (a_node_if id)) }
    ensures grows { Grows (table trees.old) (table trees.new) }
{
    match expr {
        Some(expr) => {
            let id = evaluated(trees, known, locals, expr)?;
            Ok(Some(id))
        }
        None => Ok(None),
    }
}

/// The local variables, in a list of their own.
pub(crate) fn copied<'a>(alloc: Global, locals: &[Local<'a>]) -> Result<Vec<Local<'a>>, AllocError>
    ensures { IfOk result (λ copy. copy.items ≡ locals.now) }
{
    let mut copy = Vec::new(alloc);
    for local in locals {
        copy.push(*local)?;
    }
    Ok(copy)
}

/// What is declared after a statement of a block.
pub(crate) fn declare<'a>(locals: &mut Vec<Local<'a>>, stmt: &'a Stmt) -> Result<(), AllocError>
    ensures { OnOk result (locals_of locals.new.items ≡ declared_by (bare_stmt stmt.now) (locals_of locals.old.items)) }
{
    match &stmt.node {
        StmtNode::Declare(declaration) => declare_local(locals, declaration),
        _ => Ok(()),
    }
}

/// One more local variable.
fn declare_local<'a>(
    locals: &mut Vec<Local<'a>>,
    declaration: &'a Declaration,
) -> Result<(), AllocError>
    ensures { OnOk result (locals_of locals.new.items
        ≡ record { declared = bare_type declaration.now.declared; name = declaration.now.name.text } ∷ locals_of locals.old.items) }
{
    locals.push(Local {
        declared: &declaration.declared,
        name: declaration.name.text.as_str(),
    })?;
    Ok(())
}

/// The tree of an expression, converted to a type as by assignment; where there is no type it is `int`.
pub(crate) fn assigned(
    trees: &mut Trees,
    known: &Known,
    locals: &[Local],
    to: Option<&CType>,
    expr: &Expr,
) -> Result<NodeId, AllocError>
    ensures tree { IfOk result (λ id. (u : Table) → Grows (table trees.new) u
        → expression_at u id ≡ Convert (option_map_or (λ t. bare_type t.now) to.entry int)
        (tree_of (known_of known.now) (locals_of locals.now) (bare_expr expr.now))) }
    ensures within { IfOk result (λ id. IsIn (table trees.new) (a_node id)) }
    ensures grows { Grows (table trees.old) (table trees.new) }
{
    let found = resolve(trees, known, locals, expr)?;
    let to = type_or_int(trees, to)?;
    converted(trees, to, found)
}

/// What a declared variable begins with, if anything; its name is known there (C11 6.2.1).
fn initial<'a>(
    trees: &mut Trees,
    known: &Known,
    locals: &[Local<'a>],
    declaration: &'a Declaration,
) -> Result<Option<NodeId>, AllocError>
    ensures tree { IfOk result (λ id. (u : Table) → Grows (table trees.new) u
        → Declare (bare_type declaration.now.declared) declaration.now.name.text (expression_if u id)
        ≡ declaration_of (known_of known.now) (locals_of locals.now) (bare_declaration declaration.now)) }
    ensures within { IfOk result (λ id. IsIn (table trees.new) (a_node_if id)) }
    ensures grows { Grows (table trees.old) (table trees.new) }
{
    match &declaration.initial {
        Some(value) => {
            let mut inner = copied(trees.allocator(), locals)?;
            declare_local(&mut inner, declaration)?;
            let to = Some(&declaration.declared);
            let id = assigned(trees, known, inner.as_slice(), to, value)?;
            Ok(Some(id))
        }
        None => Ok(None),
    }
}

/// A declaration.
pub(crate) fn declaration<'a>(
    trees: &mut Trees,
    known: &Known,
    locals: &[Local<'a>],
    declaration: &'a Declaration,
) -> Result<NodeId, AllocError>
    ensures tree { IfOk result (λ id. (u : Table) → Grows (table trees.new) u
        → statement_at u id ≡ declaration_of (known_of known.now) (locals_of locals.now) (bare_declaration declaration.now)) }
    ensures within { IfOk result (λ id. IsIn (table trees.new) (a_node id)) }
    ensures grows { Grows (table trees.old) (table trees.new) }
{
    let value = initial(trees, known, locals, declaration)?;
    let declared = value_type(trees, &declaration.declared)?;
    let name = word(trees, declaration.name.text.as_str())?;
    statement(trees, StatementNode::Declare(declared, name, value))
}

/// An expression whose value is dropped.
pub(crate) fn evaluation(
    trees: &mut Trees,
    known: &Known,
    locals: &[Local],
    expr: &Expr,
) -> Result<NodeId, AllocError>
    ensures tree { IfOk result (λ id. (u : Table) → Grows (table trees.new) u
        → statement_at u id ≡ Evaluate (tree_of (known_of known.now) (locals_of locals.now) (bare_expr expr.now))) }
    ensures within { IfOk result (λ id. IsIn (table trees.new) (a_node id)) }
    ensures grows { Grows (table trees.old) (table trees.new) }
{
    let x = evaluated(trees, known, locals, expr)?;
    statement(trees, StatementNode::Evaluate(x))
}

/// A return without a value, which gives 0.
pub(crate) fn return_zero(trees: &mut Trees) -> Result<NodeId, AllocError>
    ensures tree { IfOk result (λ id. (u : Table) → Grows (table trees.new) u
        → statement_at u id ≡ Return (Constant int_value)) }
    ensures within { IfOk result (λ id. IsIn (table trees.new) (a_node id)) }
    ensures grows { Grows (table trees.old) (table trees.new) }
{
    let x = expression(trees, ExpressionNode::Constant(Int::I32(0)))?;
    statement(trees, StatementNode::Return(x))
}

/// A return with a value, converted to the type of the function's value.
pub(crate) fn return_value(
    trees: &mut Trees,
    known: &Known,
    locals: &[Local],
    returned: Option<&CType>,
    expr: &Expr,
) -> Result<NodeId, AllocError>
    ensures tree { IfOk result (λ id. (u : Table) → Grows (table trees.new) u
        → statement_at u id ≡ Return (Convert (option_map_or (λ t. bare_type t.now) returned.entry int)
        (tree_of (known_of known.now) (locals_of locals.now) (bare_expr expr.now)))) }
    ensures within { IfOk result (λ id. IsIn (table trees.new) (a_node id)) }
    ensures grows { Grows (table trees.old) (table trees.new) }
{
    let x = assigned(trees, known, locals, returned, expr)?;
    statement(trees, StatementNode::Return(x))
}
