ghost use Rattle.std.specs.Prelude.{◌≡◌, ◌++◌, IfOk, OnOk, not};
ghost use Rattle.std.specs.Option.{option_or};
ghost use Rattle.c_expr_types.specs.Expressions.{fits, is_condition};
ghost use Rattle.c_expr_types.specs.Faults.{first};
ghost use Rattle.c_expr_types.specs.Found.{is_evaluated};
ghost use Rattle.c_definitions.specs.Lookup.{declare, is_repeated};
ghost use Rattle.c_types.specs.Statements.{walk_declaration, expression_faults, jump_faults, leaving_faults, optional_faults, part_in, return_faults, value_return_faults};
ghost use Rattle.c_types.specs.Views.{around_seen};

use c_definitions::{Known, Names, Position};
use c_expr_types::{Fault, Part, TypeKind, fits, infer, sooner, unknown_tag, unless};
use c_scope::Scopes;
use c_tree::{CType, Declaration, Expr};
use std::alloc::{AllocError, Global};

/// What a `break` or `continue` at a place belongs to.
#[derive(Clone, Copy)]
pub enum Loop {
    /// No loop encloses the place.
    Outside,
    /// A loop that is in the innermost transaction round the place, or there is none.
    Within,
    /// A loop that the innermost transaction is in.
    Beyond,
}

/// What surrounds a statement, but for the scopes.
#[derive(Clone, Copy)]
pub struct Around<'a> {
    pub text: &'a Known<'a>,
    /// The type of the function's result; `None` where it is void.
    pub result: &'a Option<CType>,
    pub loops: Loop,
    pub in_transaction: bool,
}

/// What an expression in a function is found to be.
fn infer_in_function(
    alloc: Global,
    around: &Around,
    scopes: &Scopes<CType>,
    expr: &Expr,
) -> Result<Part, AllocError>
    ensures { IfOk result (λ part. part ≡ part_in (around_seen around.now scopes.now) expr.now) }
{
    let names = Names {
        text: around.text,
        scopes,
        position: Position::InFunction,
    };
    infer(alloc, &names, expr)
}

/// What is wrong with a test.
pub(crate) fn condition_fault(
    alloc: Global,
    around: &Around,
    scopes: &Scopes<CType>,
    expr: &Expr,
) -> Result<Option<Fault>, AllocError>
    ensures { IfOk result (λ fault. fault ≡ first (expression_faults is_condition (around_seen around.now scopes.now) expr.now)) }
{
    let part = infer_in_function(alloc, around, scopes, expr)?;
    Ok(part.required(part.found.has_scalar()))
}

/// What is wrong with an expression that may be without a value.
pub(crate) fn evaluation_fault(
    alloc: Global,
    around: &Around,
    scopes: &Scopes<CType>,
    expr: &Expr,
) -> Result<Option<Fault>, AllocError>
    ensures { IfOk result (λ fault. fault ≡ first (expression_faults is_evaluated (around_seen around.now scopes.now) expr.now)) }
{
    let part = infer_in_function(alloc, around, scopes, expr)?;
    Ok(part.required(part.found.is_evaluated()))
}

/// What is wrong with a value that is converted to a type.
pub(crate) fn conversion_fault(
    alloc: Global,
    around: &Around,
    scopes: &Scopes<CType>,
    to: &CType,
    expr: &Expr,
) -> Result<Option<Fault>, AllocError>
    ensures { IfOk result (λ fault. fault ≡ first (expression_faults (fits around.now.text.now to.now) (around_seen around.now scopes.now) expr.now)) }
{
    let part = infer_in_function(alloc, around, scopes, expr)?;
    Ok(part.required(fits(around.text, to, &part.found)))
}

/// What is wrong with a `break` or `continue`.
pub(crate) fn jump_fault(loops: Loop, at: usize) -> Option<Fault>
    ensures { result ≡ first (jump_faults loops at) }
{
    match loops {
        Loop::Outside => unless(false, TypeKind::OutsideLoop, at),
        Loop::Within => None,
        Loop::Beyond => unless(false, TypeKind::LeavesTransaction, at),
    }
}

/// What is wrong with `return;`.
pub(crate) fn return_fault(around: &Around, scopes: &Scopes<CType>, at: usize) -> Option<Fault>
    ensures { result ≡ first (return_faults around.now.result.now at ++ leaving_faults (around_seen around.now scopes.now) at) }
{
    let no_value = match around.result {
        None => None,
        Some(_) => unless(false, TypeKind::WrongType, at),
    };
    let left = unless(!around.in_transaction, TypeKind::LeavesTransaction, at);
    sooner(no_value, left)
}

/// What is wrong with `return e;`.
pub(crate) fn value_return_fault(
    alloc: Global,
    around: &Around,
    scopes: &Scopes<CType>,
    at: usize,
    expr: &Expr,
) -> Result<Option<Fault>, AllocError>
    ensures { IfOk result (λ fault. fault ≡ first (leaving_faults (around_seen around.now scopes.now) at
        ++ value_return_faults around.now.result.now at (around_seen around.now scopes.now) expr.now)) }
{
    let left = unless(!around.in_transaction, TypeKind::LeavesTransaction, at);
    let value = match around.result {
        None => sooner(
            unless(false, TypeKind::WrongType, at),
            evaluation_fault(alloc, around, scopes, expr)?,
        ),
        Some(declared) => conversion_fault(alloc, around, scopes, declared, expr)?,
    };
    Ok(sooner(left, value))
}

/// Faults of parts hide those of the whole.
pub(crate) fn hiding(parts: Option<Fault>, whole: Option<Fault>) -> Option<Fault>
    ensures { result ≡ option_or parts whole }
{
    parts.or(whole)
}

/// Adds a variable to the innermost block, unless that has one of its name; tells whether it was added.
pub(crate) fn declare_variable(
    scopes: &mut Scopes<CType>,
    name: &str,
    declared: CType,
) -> Result<bool, AllocError>
    ensures told { IfOk result (λ is_new. is_new ≡ not (is_repeated name.now scopes.old)) }
    ensures scopes { OnOk result (scopes.new ≡ declare name.now declared scopes.old) }
{
    scopes.declare(name, declared)
}

/// What is wrong with an initialiser that may be absent.
fn initialiser_fault(
    alloc: Global,
    around: &Around,
    scopes: &Scopes<CType>,
    to: &CType,
    expr: &Option<Expr>,
) -> Result<Option<Fault>, AllocError>
    ensures { IfOk result (λ fault. fault ≡ first (optional_faults (fits around.now.text.now to.now) (around_seen around.now scopes.now) expr.now)) }
{
    match expr {
        Some(expr) => conversion_fault(alloc, around, scopes, to, expr),
        None => Ok(None),
    }
}

/// What is wrong with a declaration in a block. After it the innermost block has the variable, unless
/// it had one of that name.
#[tactic(auto, using(c_expr_types::proofs::Firsts::first_append, crate::proofs::Hiding::first_hiding))]
pub(crate) fn declaration_fault(
    alloc: Global,
    around: &Around,
    scopes: &mut Scopes<CType>,
    declaration: &Declaration,
) -> Result<Option<Fault>, AllocError>
    ensures fault { IfOk result (λ fault. fault ≡ first (walk_declaration (around_seen around.now scopes.old) declaration.now).faults) }
    ensures scopes { OnOk result (scopes.new ≡ (walk_declaration (around_seen around.now scopes.old) declaration.now).scopes) }
{
    let name = declaration.name.text.as_str();
    let is_new = declare_variable(scopes, name, declaration.declared.copy()?)?;
    let part = initialiser_fault(
        alloc,
        around,
        scopes,
        &declaration.declared,
        &declaration.initial,
    )?;
    let own = sooner(
        unknown_tag(around.text, &declaration.declared),
        unless(is_new, TypeKind::DeclaredTwice, declaration.name.place),
    );
    Ok(hiding(part, own))
}
