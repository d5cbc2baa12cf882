ghost use Rattle.std.specs.Prelude.{◌≡◌, IfOk};
ghost use Rattle.c_tree.specs.declared.expr.ExprNode.TheVariants.{Unary, Step, Cast, Binary, And, Or, Choice, Assign, Update, Element, Arrow, Dot, Free, Create, Join, JoinInto, Calloc, Variable, InitMutex, Lock, Unlock, Call, Print, Character, Success, Error};
ghost use Rattle.c_expr_types.specs.Expressions.{is_allowed, part, where_allowed};
ghost use Rattle.c_expr_types.specs.Found.{unless_wrong};
ghost use Rattle.c_definitions.specs.Views.{names_seen};

use crate::expression::{
    argument_faults, call_type, element_type, field_of, field_type, fits, is_assigned, is_equality,
    is_operand, is_safe, is_thread_argument, is_unary_operand, meeting, mutex_call_type, name_type,
    print_faults, spawn_type, thread_parameter, unknown_tag, unless_wrong, value_like,
    where_allowed, wrong,
};
use crate::fault::{Fault, TypeKind, sooner};
use crate::format::fits_format;
use crate::found::{Found, Part};
use c_definitions::Names;
use c_ints::{BinOp, Int, Kind, UnOp, binary_kind, unary_kind};
use c_tree::{CType, Name, StepOp};
use dsu_io::Text;
use std::alloc::AllocError;

/// An expression, by the first fault of its parts and by what it is where they have none.
pub fn settled(
    names: &Names,
    at: usize,
    fault: Option<Fault>,
    initialising: bool,
    own: Found,
) -> Found
    ensures { result ≡ unless_wrong fault (where_allowed (is_allowed (names_seen names.now).position initialising) at own) }
{
    unless_wrong(fault, where_allowed(names.position, initialising, at, own))
}

/// A character, an `int`
pub fn character(names: &Names, at: usize, n: Int) -> Found
    ensures { result ≡ (part (names_seen names.now) at (Character n)).found }
{
    settled(
        names,
        at,
        None,
        true,
        Found::Value(CType::Integer(n.kind())),
    )
}

/// `thrd_success` and `thrd_error`
pub fn status(names: &Names, at: usize) -> Found
    ensures success { result ≡ (part (names_seen names.now) at Success).found }
    ensures error { result ≡ (part (names_seen names.now) at Error).found }
{
    settled(
        names,
        at,
        None,
        false,
        Found::Value(CType::Integer(Kind::I32)),
    )
}

/// A name by itself
pub fn variable(names: &Names, at: usize, name: &Text) -> Result<Found, AllocError>
    ensures { IfOk result (λ found. found ≡ (part (names_seen names.now) at (Variable name.now)).found) }
{
    let own = name_type(&names.meaning_of(name.as_str()), at)?;
    Ok(settled(names, at, None, false, own))
}

/// `op a`
pub fn unary(names: &Names, at: usize, op: UnOp, a: &Part) -> Found
    ensures { result ≡ (part (names_seen names.now) at (Unary op a.now)).found }
{
    let fault = a.required(is_unary_operand(op, &a.found));
    let own = Found::Value(CType::Integer(unary_kind(op, a.kind())));
    settled(names, at, fault, true, own)
}

/// `++a` and the like
pub fn step(names: &Names, at: usize, op: StepOp, a: &Part) -> Result<Found, AllocError>
    ensures { IfOk result (λ found. found ≡ (part (names_seen names.now) at (Step op a.now)).found) }
{
    let fault = a.place_required(a.found.has_integer());
    let own = value_like(&a.found)?;
    Ok(settled(names, at, fault, false, own))
}

/// `(T) a`
pub fn cast(names: &Names, at: usize, to: &CType, a: &Part) -> Result<Found, AllocError>
    ensures { IfOk result (λ found. found ≡ (part (names_seen names.now) at (Cast to.now a.now)).found) }
{
    let fault = a.required(fits(names.text, to, &a.found));
    let own = unless_wrong(unknown_tag(names.text, to), Found::Value(to.copy()?));
    Ok(settled(names, at, fault, true, own))
}

/// `a op b`
pub fn binary(names: &Names, at: usize, op: BinOp, a: &Part, b: &Part) -> Result<Found, AllocError>
    ensures { IfOk result (λ found. found ≡ (part (names_seen names.now) at (Binary op a.now b.now)).found) }
{
    let fault = sooner(
        a.required(is_operand(op, &a.found)),
        b.required(is_operand(op, &b.found)),
    );
    let own = if is_equality(op) && meeting(a, b)?.is_none() {
        wrong(TypeKind::WrongType, at)
    } else {
        Found::Value(CType::Integer(binary_kind(op, a.kind(), b.kind())))
    };
    Ok(settled(names, at, fault, is_safe(op), own))
}

/// `a && b` and `a || b`
pub fn junction(names: &Names, at: usize, a: &Part, b: &Part) -> Found
    ensures and { result ≡ (part (names_seen names.now) at (And a.now b.now)).found }
    ensures or { result ≡ (part (names_seen names.now) at (Or a.now b.now)).found }
{
    let fault = sooner(
        a.required(a.found.has_scalar()),
        b.required(b.found.has_scalar()),
    );
    settled(
        names,
        at,
        fault,
        false,
        Found::Value(CType::Integer(Kind::I32)),
    )
}

/// `a ? b : c`, by `(a, (b, c))`
pub fn choice(names: &Names, at: usize, parts: (Part, (Part, Part))) -> Result<Found, AllocError>
    ensures { IfOk result (λ found. found ≡ (part (names_seen names.now) at (Choice parts.0 parts.1.0 parts.1.1)).found) }
{
    choice_of(names, at, &parts.0, &parts.1.0, &parts.1.1)
}

/// `a ? b : c`. It borrows its parts: a function that drops them at several exits is long to prove.
fn choice_of(names: &Names, at: usize, a: &Part, b: &Part, c: &Part) -> Result<Found, AllocError>
    ensures { IfOk result (λ found. found ≡ (part (names_seen names.now) at (Choice a.now b.now c.now)).found) }
{
    let results = sooner(
        b.required(b.found.is_comparable()),
        c.required(c.found.is_comparable()),
    );
    let fault = sooner(a.required(a.found.has_scalar()), results);
    let own = match meeting(b, c)? {
        Some(declared) => Found::Value(declared),
        None => wrong(TypeKind::WrongType, at),
    };
    Ok(settled(names, at, fault, true, own))
}

/// `a = b`
pub fn assign(names: &Names, at: usize, a: &Part, b: &Part) -> Result<Found, AllocError>
    ensures { IfOk result (λ found. found ≡ (part (names_seen names.now) at (Assign a.now b.now)).found) }
{
    let fault = sooner(
        a.place_required(true),
        b.required(is_assigned(&a.found, &b.found)),
    );
    let own = value_like(&a.found)?;
    Ok(settled(names, at, fault, false, own))
}

/// `a += b` and the like
pub fn update(names: &Names, at: usize, op: BinOp, a: &Part, b: &Part) -> Result<Found, AllocError>
    ensures { IfOk result (λ found. found ≡ (part (names_seen names.now) at (Update op a.now b.now)).found) }
{
    let fault = sooner(
        a.place_required(a.found.has_integer()),
        b.required(b.found.has_integer()),
    );
    let own = value_like(&a.found)?;
    Ok(settled(names, at, fault, false, own))
}

/// `name[a]`
pub fn indexed(names: &Names, at: usize, name: &Text, a: &Part) -> Result<Found, AllocError>
    ensures { IfOk result (λ found. found ≡ (part (names_seen names.now) at (Element name.now a.now)).found) }
{
    let fault = a.required(a.found.has_integer());
    let own = element_type(&names.meaning_of(name.as_str()), at)?;
    Ok(settled(names, at, fault, false, own))
}

/// `a->name`
pub fn arrow(names: &Names, at: usize, a: &Part, name: &Name) -> Result<Found, AllocError>
    ensures { IfOk result (λ found. found ≡ (part (names_seen names.now) at (Arrow a.now name.now)).found) }
{
    let fault = a.required(a.found.has_handle());
    let declared = field_of(names.text, &a.found, name.text.as_str());
    let own = field_type(declared, name.place)?;
    Ok(settled(names, at, fault, false, own))
}

/// `a.name`, which is in transformers alone
pub fn dot(names: &Names, at: usize, a: &Part, name: &Name) -> Found
    ensures { result ≡ (part (names_seen names.now) at (Dot a.now name.now)).found }
{
    let fault = a.required(a.found.is_value());
    settled(names, at, fault, false, wrong(TypeKind::WrongType, at))
}

/// `calloc(1, sizeof(struct T))`
pub fn calloc(names: &Names, at: usize, tag: &Name) -> Result<Found, AllocError>
    ensures { IfOk result (λ found. found ≡ (part (names_seen names.now) at (Calloc tag.now)).found) }
{
    let own = if names.text.is_tag(tag.text.as_str()) {
        Found::Value(CType::Handle(tag.copy()?))
    } else {
        wrong(TypeKind::UnknownName, tag.place)
    };
    Ok(settled(names, at, None, false, own))
}

/// `free(a)`
pub fn free(names: &Names, at: usize, a: &Part) -> Found
    ensures { result ≡ (part (names_seen names.now) at (Free a.now)).found }
{
    let fault = a.required(a.found.has_handle());
    settled(names, at, fault, false, Found::Nothing)
}

/// `thrd_create(&a, name, b)`
pub fn create(names: &Names, at: usize, a: &Part, name: &Name, b: &Part) -> Found
    ensures { result ≡ (part (names_seen names.now) at (Create a.now name.now b.now)).found }
{
    let meaning = names.meaning_of(name.text.as_str());
    let fault = sooner(
        a.place_required(a.found.has_type(&CType::Thread)),
        b.required(is_thread_argument(thread_parameter(&meaning), &b.found)),
    );
    settled(
        names,
        at,
        fault,
        false,
        spawn_type(&meaning, name.place, at),
    )
}

/// `thrd_join(a, NULL)`
pub fn join(names: &Names, at: usize, a: &Part) -> Found
    ensures { result ≡ (part (names_seen names.now) at (Join a.now)).found }
{
    let fault = a.required(a.found.has_type(&CType::Thread));
    settled(
        names,
        at,
        fault,
        false,
        Found::Value(CType::Integer(Kind::I32)),
    )
}

/// `thrd_join(a, &b)`
pub fn join_into(names: &Names, at: usize, a: &Part, b: &Part) -> Found
    ensures { result ≡ (part (names_seen names.now) at (JoinInto a.now b.now)).found }
{
    let fault = sooner(
        a.required(a.found.has_type(&CType::Thread)),
        b.place_required(b.found.has_type(&CType::Integer(Kind::I32))),
    );
    settled(
        names,
        at,
        fault,
        false,
        Found::Value(CType::Integer(Kind::I32)),
    )
}

/// `mtx_init`, `mtx_lock` and `mtx_unlock`
pub fn mutex(names: &Names, at: usize, name: &Name) -> Found
    ensures init { result ≡ (part (names_seen names.now) at (InitMutex name.now)).found }
    ensures lock { result ≡ (part (names_seen names.now) at (Lock name.now)).found }
    ensures unlock { result ≡ (part (names_seen names.now) at (Unlock name.now)).found }
{
    let own = mutex_call_type(&names.meaning_of(name.text.as_str()), name.place, at);
    settled(names, at, None, false, own)
}

/// `name(..)`
pub fn call(names: &Names, at: usize, name: &Text, arguments: &[Part]) -> Result<Found, AllocError>
    ensures { IfOk result (λ found. found ≡ (part (names_seen names.now) at (Call name.now arguments.now)).found) }
{
    let meaning = names.meaning_of(name.as_str());
    let fault = argument_faults(&meaning, arguments);
    let own = call_type(&meaning, at, arguments.len())?;
    Ok(settled(names, at, fault, false, own))
}

/// `printf(..)`, whose first string is at a place of its own
pub fn print(names: &Names, at: usize, place: usize, format: &Text, arguments: &[Part]) -> Found
    ensures { result ≡ (part (names_seen names.now) at (Print place format.now arguments.now)).found }
{
    let fault = print_faults(arguments);
    let own = if fits_format(format.as_str().as_bytes(), arguments) {
        Found::Nothing
    } else {
        wrong(TypeKind::BadFormat, place)
    };
    settled(names, at, fault, false, own)
}
