//! Statements and bodies, by the trees of a text.
ghost use Rattle.std.specs.Prelude.{◌≡◌, Some, map, option_map, unwrap_or, IfOk, OnOk};
ghost use Rattle.std.specs.Option.{option_map_or};
ghost use Rattle.c_tree.specs.Bare.{bare_type, bare_expr, bare_stmt, bare_block, bare_binding, bare_function};
ghost use Rattle.c_semantics.specs.Texts.{int};
ghost use Rattle.c_semantics.specs.Resolution.{tree_of, statement as statement_by, statements as statements_by, declared_by_all, resolved_body};
ghost use Rattle.name_resolution.specs.Forms.{of_guarded, of_nested};
ghost use Rattle.resolved_tree.specs.Nodes.{Table, statement_at, statements_at};
ghost use Rattle.resolved_tree.specs.Parts.{a_node};
ghost use Rattle.name_resolution.specs.Found.{Grows, IsIn};
ghost use Rattle.name_resolution.specs.Known.{known_of, locals_of, binding_of};
ghost use Rattle.resolved_tree.specs.Trees.{table};

use crate::block::{
    copied, declaration, declare, evaluated, evaluated_if, evaluation, linked, return_value,
    return_zero, statement,
};
use crate::form::{Guarded, Nested, made_of_guarded, made_of_nested};
use crate::known::Local;
use c_definitions::Known;
use c_tree::{Binding, CType, Expr, Function, Stmt, StmtNode};
use dsu_io::{Boxed, List};
use resolved_tree::{NodeId, StatementNode, Trees};
use std::alloc::{AllocError, Global};

/// A statement of a function whose value has a type, which is `int` where it is none.
#[cycle(resolve_statement)]
fn resolve_statement<'a>(
    trees: &mut Trees,
    known: &Known,
    returned: Option<&CType>,
    locals: &[Local<'a>],
    stmt: &'a Stmt,
) -> Result<NodeId, AllocError>
    ensures tree { IfOk result (λ id. (u : Table) → Grows (table trees.new) u
        → statement_at u id ≡ statement_by (known_of known.now) (option_map_or (λ t. bare_type t.now) returned.entry int)
        (locals_of locals.now) (bare_stmt stmt.now)) }
    ensures within { IfOk result (λ id. IsIn (table trees.new) (a_node id)) }
    ensures grows { Grows (table trees.old) (table trees.new) }
{
    match &stmt.node {
        StmtNode::Block(body) => nested(trees, known, returned, locals, body, Nested::Block),
        StmtNode::Empty => statement(trees, StatementNode::Empty),
        StmtNode::Evaluate(e) => evaluation(trees, known, locals, e),
        StmtNode::Declare(declared) => declaration(trees, known, locals, declared),
        StmtNode::If(e, a) => guarded(trees, known, returned, locals, a, e, Guarded::If),
        StmtNode::IfElse(e, a, b) => {
            let x = evaluated(trees, known, locals, e)?;
            let y = inner(trees, known, returned, locals, a)?;
            let z = inner(trees, known, returned, locals, b)?;
            statement(trees, StatementNode::IfElse(x, y, z))
        }
        StmtNode::While(e, a) => guarded(trees, known, returned, locals, a, e, Guarded::While),
        StmtNode::DoWhile(a, e) => {
            guarded(trees, known, returned, locals, a, e, Guarded::DoWhile)
        }
        StmtNode::For(first, test, step, a) => {
            let mut scope = copied(trees.allocator(), locals)?;
            let f = sequence(trees, known, returned, &mut scope, first)?;
            let x = evaluated_if(trees, known, scope.as_slice(), test)?;
            let y = evaluated_if(trees, known, scope.as_slice(), step)?;
            let z = inner(trees, known, returned, scope.as_slice(), a)?;
            statement(trees, StatementNode::For(f, x, y, z))
        }
        StmtNode::Break => statement(trees, StatementNode::Break),
        StmtNode::Continue => statement(trees, StatementNode::Continue),
        StmtNode::Return => return_zero(trees),
        StmtNode::ReturnValue(e) => return_value(trees, known, locals, returned, e),
        StmtNode::Update => statement(trees, StatementNode::UpdatePoint),
        StmtNode::Transaction(body, _) => {
            nested(trees, known, returned, locals, body, Nested::Transaction)
        }
    }
}

#[cycle(resolve_statement)]
fn inner<'a>(
    trees: &mut Trees,
    known: &Known,
    returned: Option<&CType>,
    locals: &[Local<'a>],
    stmt: &'a Boxed<Stmt>,
) -> Result<NodeId, AllocError>
    ensures tree { IfOk result (λ id. (u : Table) → Grows (table trees.new) u
        → statement_at u id ≡ statement_by (known_of known.now) (option_map_or (λ t. bare_type t.now) returned.entry int)
        (locals_of locals.now) (bare_stmt stmt.now)) }
    ensures within { IfOk result (λ id. IsIn (table trees.new) (a_node id)) }
    ensures grows { Grows (table trees.old) (table trees.new) }
{
    resolve_statement(trees, known, returned, locals, stmt.get())
}

/// A form of a test and a statement.
#[cycle(resolve_statement)]
fn guarded<'a>(
    trees: &mut Trees,
    known: &Known,
    returned: Option<&CType>,
    locals: &[Local<'a>],
    stmt: &'a Boxed<Stmt>,
    test: &Expr,
    form: Guarded,
) -> Result<NodeId, AllocError>
    ensures tree { IfOk result (λ id. (u : Table) → Grows (table trees.new) u
        → statement_at u id ≡ of_guarded form (tree_of (known_of known.now) (locals_of locals.now) (bare_expr test.now))
        (statement_by (known_of known.now) (option_map_or (λ t. bare_type t.now) returned.entry int) (locals_of locals.now) (bare_stmt stmt.now))) }
    ensures within { IfOk result (λ id. IsIn (table trees.new) (a_node id)) }
    ensures grows { Grows (table trees.old) (table trees.new) }
{
    let x = evaluated(trees, known, locals, test)?;
    let y = inner(trees, known, returned, locals, stmt)?;
    made_of_guarded(trees, form, x, y)
}

/// A form of a block.
#[cycle(resolve_statement)]
fn nested<'a>(
    trees: &mut Trees,
    known: &Known,
    returned: Option<&CType>,
    locals: &[Local<'a>],
    list: &'a List<Stmt>,
    form: Nested,
) -> Result<NodeId, AllocError>
    ensures tree { IfOk result (λ id. (u : Table) → Grows (table trees.new) u
        → statement_at u id ≡ of_nested form
        (statements_by (known_of known.now) (option_map_or (λ t. bare_type t.now) returned.entry int) (locals_of locals.now) (bare_block (map bare_stmt list.now)))) }
    ensures within { IfOk result (λ id. IsIn (table trees.new) (a_node id)) }
    ensures grows { Grows (table trees.old) (table trees.new) }
{
    let ss = block(trees, known, returned, locals, list)?;
    made_of_nested(trees, form, ss)
}

/// The statements of a block. What they declare is known in it alone.
#[cycle(resolve_statement)]
fn block<'a>(
    trees: &mut Trees,
    known: &Known,
    returned: Option<&CType>,
    locals: &[Local<'a>],
    list: &'a List<Stmt>,
) -> Result<NodeId, AllocError>
    ensures tree { IfOk result (λ id. (u : Table) → Grows (table trees.new) u
        → statements_at u id ≡ statements_by (known_of known.now) (option_map_or (λ t. bare_type t.now) returned.entry int)
        (locals_of locals.now) (bare_block (map bare_stmt list.now))) }
    ensures within { IfOk result (λ id. IsIn (table trees.new) (a_node id)) }
    ensures grows { Grows (table trees.old) (table trees.new) }
{
    let mut scope = copied(trees.allocator(), locals)?;
    sequence(trees, known, returned, &mut scope, list)
}

/// Statements in order, with the local variables that they declare after them.
#[cycle(resolve_statement)]
fn sequence<'a>(
    trees: &mut Trees,
    known: &Known,
    returned: Option<&CType>,
    locals: &mut Vec<Local<'a>>,
    list: &'a List<Stmt>,
) -> Result<NodeId, AllocError>
    ensures tree { IfOk result (λ id. (u : Table) → Grows (table trees.new) u
        → statements_at u id ≡ statements_by (known_of known.now) (option_map_or (λ t. bare_type t.now) returned.entry int)
        (locals_of locals.old.items) (bare_block (map bare_stmt list.now))) }
    ensures locals { OnOk result (locals_of locals.new.items
        ≡ declared_by_all (bare_block (map bare_stmt list.now)) (locals_of locals.old.items)) }
    ensures within { IfOk result (λ id. IsIn (table trees.new) (a_node id)) }
    ensures grows { Grows (table trees.old) (table trees.new) }
{
    let mut ids = Vec::new(trees.allocator());
    for stmt in list.as_slice() {
        let id = resolve_statement(trees, known, returned, locals.as_slice(), stmt)?;
        declare(locals, stmt)?;
        ids.push(id)?;
    }
    let order = ids.as_slice();
    linked(trees, order)
}

/// The parameters of a function as its local variables.
fn parameters<'a>(alloc: Global, list: &'a [Binding]) -> Result<Vec<Local<'a>>, AllocError>
    ensures { IfOk result (λ locals. map binding_of locals.items ≡ map bare_binding list.now) }
{
    let mut locals = Vec::new(alloc);
    for binding in list {
        locals.push(Local {
            declared: &binding.declared,
            name: binding.name.text.as_str(),
        })?;
    }
    Ok(locals)
}

/// The type of a function's value, if it has one.
fn value_type(function: &Function) -> Option<&CType>
    ensures { option_map_or (λ t. bare_type t.now) result int ≡ unwrap_or (option_map bare_type function.now.result) int }
{
    match &function.result {
        Some(declared) => Some(declared),
        None => None,
    }
}

/// The body of a function, its names resolved, as a tree of the table. What was in the table stays, also where memory
/// was wanted.
pub fn resolve_body(
    trees: &mut Trees,
    known: &Known,
    function: &Function,
) -> Result<NodeId, AllocError>
    ensures body { IfOk result (λ id. (u : Table) → Grows (table trees.new) u
        → statements_at u id ≡ resolved_body (known_of known.now) (Some (bare_function function.now))) }
    ensures within { IfOk result (λ id. IsIn (table trees.new) (a_node id)) }
    ensures grows { Grows (table trees.old) (table trees.new) }
{
    let mut locals = parameters(trees.allocator(), function.parameters.as_slice())?;
    let returned = value_type(function);
    sequence(trees, known, returned, &mut locals, &function.body)
}
