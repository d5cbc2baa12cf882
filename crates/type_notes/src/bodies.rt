//! The expression of a function's body with a place, and the variables that are in scope there.
use c_scope::Scopes;
use c_tree::{Binding, CType, Declaration, Expr, Function, Stmt, StmtNode as Node};
use dsu_io::{Boxed, List};
use std::alloc::{AllocError, Global};

/// What is expected of an expression that is no part of another one.
#[derive(Clone, Copy)]
pub(crate) enum Due<'a> {
    /// Its value is converted to a type.
    Converted(&'a CType),
    /// Its value is tested for zero.
    Tested,
    /// It is a statement.
    Evaluated,
}

/// What a body has at a place.
#[derive(Clone, Copy)]
pub(crate) enum Inside<'a> {
    /// An expression that is no part of another one.
    Expression(&'a Expr, Due<'a>),
    /// The expression of a `return`.
    Returned(&'a Expr),
    /// The word `return`.
    Return,
}

/// What a function's body has at a place. The scopes get the variables that are declared there.
pub(crate) fn inside_at<'a>(
    alloc: Global,
    scopes: &mut Scopes<CType>,
    function: &'a Function,
    at: usize,
) -> Result<Option<Inside<'a>>, AllocError> {
    declare_bindings(scopes, function.parameters.as_slice())?;
    in_body(scopes, function.body.as_slice(), at)
}

/// Declares variables by their names and types.
pub(crate) fn declare_bindings(
    scopes: &mut Scopes<CType>,
    bindings: &[Binding],
) -> Result<(), AllocError> {
    for binding in bindings {
        let declared = binding.declared.copy()?;
        scopes.declare(binding.name.text.as_str(), declared)?;
    }
    Ok(())
}

/// Declares what a statement declares.
fn declare(scopes: &mut Scopes<CType>, stmt: &Stmt) -> Result<(), AllocError> {
    if let Node::Declare(declaration) = &stmt.node {
        let declared = declaration.declared.copy()?;
        scopes.declare(declaration.name.text.as_str(), declared)?;
    }
    Ok(())
}

/// Declares what statements declare, up to the one with a number.
fn declare_up_to(scopes: &mut Scopes<CType>, body: &[Stmt], last: usize) -> Result<(), AllocError> {
    for number in 0..body.len() {
        if number <= last {
            declare(scopes, &body[number])?;
        }
    }
    Ok(())
}

/// Where a statement begins to have something at a place of its own: the variables of one declaration begin at one place, so of
/// a declaration its initialiser decides.
fn begins_by(stmt: &Stmt, at: usize) -> bool {
    match &stmt.node {
        Node::Declare(declaration) => is_begun(&declaration.initial, at),
        _ => stmt.place <= at,
    }
}

/// Whether an expression is there and begins up to a place.
fn is_begun(expr: &Option<Expr>, at: usize) -> bool {
    match expr {
        Some(expr) => expr.place <= at,
        None => false,
    }
}

/// The number of the last of some statements that begins up to a place.
fn last_begun(body: &[Stmt], at: usize) -> Option<usize> {
    let mut last = None;
    for number in 0..body.len() {
        if begins_by(&body[number], at) {
            last = Some(number);
        }
    }
    last
}

/// What the statements of a block have at a place. The block was entered.
#[cycle(inside)]
fn in_body<'a>(
    scopes: &mut Scopes<CType>,
    body: &'a [Stmt],
    at: usize,
) -> Result<Option<Inside<'a>>, AllocError> {
    let Some(last) = last_begun(body, at) else {
        return Ok(None);
    };
    declare_up_to(scopes, body, last)?;
    if last >= body.len() {
        return Ok(None);
    }
    in_statement(scopes, &body[last], at)
}

/// What a statement has at a place.
#[cycle(inside)]
fn in_statement<'a>(
    scopes: &mut Scopes<CType>,
    stmt: &'a Stmt,
    at: usize,
) -> Result<Option<Inside<'a>>, AllocError> {
    match &stmt.node {
        Node::Block(body) | Node::Transaction(body, _) => in_block(scopes, body, at),
        Node::Declare(declaration) => Ok(initialiser(declaration)),
        Node::Evaluate(expr) => Ok(evaluated(expr)),
        Node::If(test, body) | Node::While(test, body) => after_test(scopes, body, test, at),
        Node::IfElse(test, body, otherwise) => {
            if otherwise.get().place <= at {
                return in_inner(scopes, otherwise, at);
            }
            after_test(scopes, body, test, at)
        }
        Node::DoWhile(body, test) => {
            if test.place <= at {
                return Ok(tested(test));
            }
            in_inner(scopes, body, at)
        }
        Node::For(opening, test, step, body) => {
            scopes.enter()?;
            if is_opening(test, step, body, at) {
                return in_body(scopes, opening.as_slice(), at);
            }
            declare_up_to(scopes, opening.as_slice(), usize::MAX)?;
            if body.get().place <= at {
                return in_inner(scopes, body, at);
            }
            Ok(in_head(test, step, at))
        }
        Node::ReturnValue(expr) => Ok(returned(expr, at)),
        Node::Return => Ok(Some(Inside::Return)),
        Node::Empty | Node::Update | Node::Break | Node::Continue => Ok(None),
    }
}

/// What a block has at a place.
#[cycle(inside)]
fn in_block<'a>(
    scopes: &mut Scopes<CType>,
    body: &'a List<Stmt>,
    at: usize,
) -> Result<Option<Inside<'a>>, AllocError> {
    scopes.enter()?;
    in_body(scopes, body.as_slice(), at)
}

/// What a part of an `if` or a loop has at a place; it is a block of its own.
#[cycle(inside)]
fn in_inner<'a>(
    scopes: &mut Scopes<CType>,
    part: &'a Boxed<Stmt>,
    at: usize,
) -> Result<Option<Inside<'a>>, AllocError> {
    scopes.enter()?;
    in_statement(scopes, part.get(), at)
}

/// What a test and the statement after it have at a place.
#[cycle(inside)]
fn after_test<'a>(
    scopes: &mut Scopes<CType>,
    body: &'a Boxed<Stmt>,
    test: &'a Expr,
    at: usize,
) -> Result<Option<Inside<'a>>, AllocError> {
    if body.get().place <= at {
        return in_inner(scopes, body, at);
    }
    Ok(tested(test))
}

/// Whether a place comes before the test, the step and the body of a `for`.
fn is_opening(test: &Option<Expr>, step: &Option<Expr>, body: &Boxed<Stmt>, at: usize) -> bool {
    !is_begun(test, at) && !is_begun(step, at) && body.get().place > at
}

/// What the test and the step of a `for` have at a place.
fn in_head<'a>(test: &'a Option<Expr>, step: &'a Option<Expr>, at: usize) -> Option<Inside<'a>> {
    if is_begun(step, at) {
        return evaluated(step.as_ref()?);
    }
    tested(test.as_ref()?)
}

/// The initialiser of a variable.
fn initialiser(declaration: &Declaration) -> Option<Inside<'_>> {
    let initial = declaration.initial.as_ref()?;
    Some(Inside::Expression(initial, Due::Converted(&declaration.declared)))
}

fn evaluated(expr: &Expr) -> Option<Inside<'_>> {
    Some(Inside::Expression(expr, Due::Evaluated))
}

fn tested(expr: &Expr) -> Option<Inside<'_>> {
    Some(Inside::Expression(expr, Due::Tested))
}

/// The expression of a `return`, or the word before it.
fn returned(expr: &Expr, at: usize) -> Option<Inside<'_>> {
    if expr.place <= at {
        Some(Inside::Returned(expr))
    } else {
        Some(Inside::Return)
    }
}
