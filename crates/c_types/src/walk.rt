ghost use Rattle.std.specs.Prelude.{◌≡◌, ◌++◌, IfOk, OnOk, map};
ghost use Rattle.c_expr_types.specs.Expressions.{is_condition};
ghost use Rattle.c_expr_types.specs.Faults.{first};
ghost use Rattle.c_expr_types.specs.Found.{is_evaluated};
ghost use Rattle.c_types.specs.Statements.{beyond, expression_faults, in_a_transaction, in_block, in_loop, in_order, optional_faults, walk};
ghost use Rattle.c_types.specs.Views.{around_seen};

use crate::statement::{
    Around, Loop, condition_fault, declaration_fault, evaluation_fault, jump_fault, return_fault,
    value_return_fault,
};
use c_expr_types::{Fault, sooner};
use c_scope::Scopes;
use c_tree::{CType, Expr, Stmt, StmtNode as Node};
use dsu_io::Boxed;
use std::alloc::{AllocError, Global};

/// The loops round a transaction, as the statements in it see them.
fn beyond(loops: Loop) -> Loop
    ensures { result ≡ beyond loops }
{
    match loops {
        Loop::Outside => Loop::Outside,
        Loop::Within | Loop::Beyond => Loop::Beyond,
    }
}

/// What is wrong with the test of a `for`, where it has one.
fn test_of_for(
    alloc: Global,
    around: &Around,
    scopes: &Scopes<CType>,
    test: &Option<Expr>,
) -> Result<Option<Fault>, AllocError>
    ensures { IfOk result (λ fault. fault ≡ first (optional_faults is_condition (around_seen around.now scopes.now) test.now)) }
{
    match test {
        Some(test) => condition_fault(alloc, around, scopes, test),
        None => Ok(None),
    }
}

/// What is wrong with the step of a `for`, where it has one.
fn step_of_for(
    alloc: Global,
    around: &Around,
    scopes: &Scopes<CType>,
    step: &Option<Expr>,
) -> Result<Option<Fault>, AllocError>
    ensures { IfOk result (λ fault. fault ≡ first (optional_faults is_evaluated (around_seen around.now scopes.now) step.now)) }
{
    match step {
        Some(step) => evaluation_fault(alloc, around, scopes, step),
        None => Ok(None),
    }
}

/// The first fault of statements one after another. After them the innermost block has what they
/// declare.
#[cycle(walk)]
pub(crate) fn statements(
    alloc: Global,
    around: &Around,
    scopes: &mut Scopes<CType>,
    body: &[Stmt],
) -> Result<Option<Fault>, AllocError>
    ensures fault { IfOk result (λ fault. fault ≡ first (in_order (map walk body.now) (around_seen around.now scopes.old)).faults) }
    ensures scopes { OnOk result (scopes.new ≡ (in_order (map walk body.now) (around_seen around.now scopes.old)).scopes) }
{
    let mut fault = None;
    for stmt in body {
        fault = sooner(fault, statement(alloc, around, scopes, stmt)?);
    }
    Ok(fault)
}

/// The first fault of a statement. After it the innermost block has what it declares.
#[cycle(walk)]
fn statement(
    alloc: Global,
    around: &Around,
    scopes: &mut Scopes<CType>,
    stmt: &Stmt,
) -> Result<Option<Fault>, AllocError>
    ensures fault { IfOk result (λ fault. fault ≡ first (walk stmt.now (around_seen around.now scopes.old)).faults) }
    ensures scopes { OnOk result (scopes.new ≡ (walk stmt.now (around_seen around.now scopes.old)).scopes) }
{
    match &stmt.node {
        Node::Block(body) => block(alloc, around, scopes, body.as_slice()),
        Node::Empty | Node::Update => Ok(None),
        Node::Evaluate(expr) => evaluation_fault(alloc, around, scopes, expr),
        Node::Declare(declaration) => declaration_fault(alloc, around, scopes, declaration),
        Node::If(test, body) => if_then(alloc, around, scopes, body, test),
        Node::IfElse(test, body, otherwise) => {
            let of_then = if_then(alloc, around, scopes, body, test)?;
            let of_otherwise = inner(alloc, around, scopes, otherwise)?;
            Ok(sooner(of_then, of_otherwise))
        }
        Node::While(test, body) => while_loop(alloc, around, scopes, body, test),
        Node::DoWhile(body, test) => do_loop(alloc, around, scopes, body, test),
        Node::For(opening, test, step, body) => {
            scopes.enter()?;
            let of_opening = statements(alloc, around, scopes, opening.as_slice())?;
            let of_turn = turn(alloc, around, scopes, test, step, body)?;
            scopes.leave();
            Ok(sooner(of_opening, of_turn))
        }
        Node::Break | Node::Continue => Ok(jump_fault(around.loops, stmt.place)),
        Node::Return => Ok(return_fault(around, scopes, stmt.place)),
        Node::ReturnValue(expr) => value_return_fault(alloc, around, scopes, stmt.place, expr),
        Node::Transaction(body, _) => transaction(alloc, around, scopes, body.as_slice()),
    }
}

/// The first fault of `if (test) body`.
#[cycle(walk)]
fn if_then(
    alloc: Global,
    around: &Around,
    scopes: &mut Scopes<CType>,
    body: &Boxed<Stmt>,
    test: &Expr,
) -> Result<Option<Fault>, AllocError>
    ensures fault { let around = around_seen around.now scopes.old in
        IfOk result (λ fault. fault ≡ first (expression_faults is_condition around test.now ++ (walk body.now (in_block around)).faults)) }
    ensures scopes { OnOk result (scopes.new ≡ scopes.old) }
{
    let of_test = condition_fault(alloc, around, scopes, test)?;
    let of_body = inner(alloc, around, scopes, body)?;
    Ok(sooner(of_test, of_body))
}

/// The first fault of `while (test) body`.
#[cycle(walk)]
fn while_loop(
    alloc: Global,
    around: &Around,
    scopes: &mut Scopes<CType>,
    body: &Boxed<Stmt>,
    test: &Expr,
) -> Result<Option<Fault>, AllocError>
    ensures fault { let around = around_seen around.now scopes.old in
        IfOk result (λ fault. fault ≡ first (expression_faults is_condition around test.now ++ (walk body.now (in_block (in_loop around))).faults)) }
    ensures scopes { OnOk result (scopes.new ≡ scopes.old) }
{
    let of_test = condition_fault(alloc, around, scopes, test)?;
    let of_body = loop_body_fault(alloc, around, scopes, body)?;
    Ok(sooner(of_test, of_body))
}

/// The first fault of `do body while (test);`.
#[cycle(walk)]
fn do_loop(
    alloc: Global,
    around: &Around,
    scopes: &mut Scopes<CType>,
    body: &Boxed<Stmt>,
    test: &Expr,
) -> Result<Option<Fault>, AllocError>
    ensures fault { let around = around_seen around.now scopes.old in
        IfOk result (λ fault. fault ≡ first ((walk body.now (in_block (in_loop around))).faults ++ expression_faults is_condition around test.now)) }
    ensures scopes { OnOk result (scopes.new ≡ scopes.old) }
{
    let of_body = loop_body_fault(alloc, around, scopes, body)?;
    let of_test = condition_fault(alloc, around, scopes, test)?;
    Ok(sooner(of_body, of_test))
}

/// The first fault of the statements of a block.
#[cycle(walk)]
fn block(
    alloc: Global,
    around: &Around,
    scopes: &mut Scopes<CType>,
    body: &[Stmt],
) -> Result<Option<Fault>, AllocError>
    ensures fault { IfOk result (λ fault. fault ≡ first (in_order (map walk body.now) (in_block (around_seen around.now scopes.old))).faults) }
    ensures scopes { OnOk result (scopes.new ≡ scopes.old) }
{
    scopes.enter()?;
    let fault = statements(alloc, around, scopes, body)?;
    scopes.leave();
    Ok(fault)
}

/// The first fault of the statements of a transaction.
#[cycle(walk)]
fn transaction(
    alloc: Global,
    around: &Around,
    scopes: &mut Scopes<CType>,
    body: &[Stmt],
) -> Result<Option<Fault>, AllocError>
    ensures fault { IfOk result (λ fault. fault
        ≡ first (in_order (map walk body.now) (in_block (in_a_transaction (around_seen around.now scopes.old)))).faults) }
    ensures scopes { OnOk result (scopes.new ≡ scopes.old) }
{
    let inside = Around {
        text: around.text,
        result: around.result,
        loops: beyond(around.loops),
        in_transaction: true,
    };
    block(alloc, &inside, scopes, body)
}

/// The first fault of a part of an `if` or a loop, which is a block of its own.
#[cycle(walk)]
fn inner(
    alloc: Global,
    around: &Around,
    scopes: &mut Scopes<CType>,
    part: &Boxed<Stmt>,
) -> Result<Option<Fault>, AllocError>
    ensures fault { IfOk result (λ fault. fault ≡ first (walk part.now (in_block (around_seen around.now scopes.old))).faults) }
    ensures scopes { OnOk result (scopes.new ≡ scopes.old) }
{
    scopes.enter()?;
    let fault = statement(alloc, around, scopes, part.get())?;
    scopes.leave();
    Ok(fault)
}

/// The first fault of a loop's body.
#[cycle(walk)]
fn loop_body_fault(
    alloc: Global,
    around: &Around,
    scopes: &mut Scopes<CType>,
    body: &Boxed<Stmt>,
) -> Result<Option<Fault>, AllocError>
    ensures fault { IfOk result (λ fault. fault ≡ first (walk body.now (in_block (in_loop (around_seen around.now scopes.old)))).faults) }
    ensures scopes { OnOk result (scopes.new ≡ scopes.old) }
{
    let inside = Around {
        text: around.text,
        result: around.result,
        loops: Loop::Within,
        in_transaction: around.in_transaction,
    };
    inner(alloc, &inside, scopes, body)
}

/// The first fault of what comes after the first part of a `for`: its test, its step and its body.
#[cycle(walk)]
fn turn(
    alloc: Global,
    around: &Around,
    scopes: &mut Scopes<CType>,
    test: &Option<Expr>,
    step: &Option<Expr>,
    body: &Boxed<Stmt>,
) -> Result<Option<Fault>, AllocError>
    ensures fault { let around = around_seen around.now scopes.old in
        IfOk result (λ fault. fault ≡ first (optional_faults is_condition around test.now
        ++ (optional_faults is_evaluated around step.now ++ (walk body.now (in_block (in_loop around))).faults))) }
    ensures scopes { OnOk result (scopes.new ≡ scopes.old) }
{
    let of_test = test_of_for(alloc, around, scopes, test)?;
    let of_step = step_of_for(alloc, around, scopes, step)?;
    let of_body = loop_body_fault(alloc, around, scopes, body)?;
    Ok(sooner(of_test, sooner(of_step, of_body)))
}
