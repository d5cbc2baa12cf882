ghost use Rattle.std.specs.Prelude.{◌≡◌, ◌&&◌, IfOk, length, option_copied, option_map};
ghost use Rattle.c_expr_types.specs.Expressions.{call_type, conversion_faults, element_type, field_type, field_of, fits, is_allowed, is_assigned, is_condition, follows, is_equality, is_operand, is_safe, is_thread_argument, is_unary_operand, meeting, name_type, number_type, mutex_call_type, argument_faults, print_faults, spawn_type, thread_parameter, unknown_tag, value_faults, where_allowed};
ghost use Rattle.c_expr_types.specs.Faults.{first};
ghost use Rattle.c_expr_types.specs.Found.{has_value, is_handle, type_of, unless_wrong, value_of_type, wrong};
ghost use Rattle.c_definitions.specs.Lookup.{types_of};
ghost use Rattle.c_definitions.specs.Views.{meaning_seen};

use crate::fault::{Fault, TypeKind, sooner, unless};
use crate::found::{Found, Part, same};
use c_definitions::{Known, Meaning, Names, Position};
use c_ints::{BinOp, Int, Kind, UnOp, common};
use c_tree::{Binding, CType, Name};
use std::alloc::AllocError;

/// What an expression is that has a fault where one is there, and else is as said.
pub fn unless_wrong(fault: Option<Fault>, found: Found) -> Found
    ensures { result ≡ unless_wrong fault found }
{
    match fault {
        Some(fault) => Found::Wrong(fault),
        None => found,
    }
}

/// What an expression is that has one fault by itself.
pub fn wrong(kind: TypeKind, place: usize) -> Found
    ensures { result ≡ wrong kind place }
{
    Found::Wrong(Fault { kind, place })
}

/// An expression whose form is allowed; else it is of a wrong type, beside what else is wrong with it.
pub fn where_allowed(position: Position, initialising: bool, at: usize, found: Found) -> Found
    ensures { result ≡ where_allowed (is_allowed position initialising) at found }
{
    if matches!(position, Position::InFunction) || initialising {
        return found;
    }
    let of_form = Fault {
        kind: TypeKind::WrongType,
        place: at,
    };
    match found {
        Found::Wrong(fault) => {
            if fault.is_before(of_form) {
                Found::Wrong(fault)
            } else {
                Found::Wrong(of_form)
            }
        }
        _ => Found::Wrong(of_form),
    }
}

/// A number: one of value 0 each handle takes too.
pub fn number_type(n: Int) -> Found
    ensures { result ≡ number_type n }
{
    if n.value() == 0 {
        Found::Zero(n.kind())
    } else {
        Found::Value(CType::Integer(n.kind()))
    }
}

/// A name by itself.
pub fn name_type(meaning: &Option<Meaning>, at: usize) -> Result<Found, AllocError>
    ensures { IfOk result (λ found. found ≡ name_type (option_map meaning_seen meaning.now) at) }
{
    match meaning {
        None => Ok(wrong(TypeKind::UnknownName, at)),
        Some(Meaning::Variable(declared)) => Ok(Found::Place(declared.copy()?)),
        Some(_) => Ok(Found::Designator),
    }
}

/// An element of a name.
pub fn element_type(meaning: &Option<Meaning>, at: usize) -> Result<Found, AllocError>
    ensures { IfOk result (λ found. found ≡ element_type (option_map meaning_seen meaning.now) at) }
{
    match meaning {
        None => Ok(wrong(TypeKind::UnknownName, at)),
        Some(Meaning::Array(element)) => Ok(Found::Place(element.copy()?)),
        Some(_) => Ok(wrong(TypeKind::WrongType, at)),
    }
}

/// A value of a type, or none.
pub fn value_of_type(declared: &Option<CType>) -> Result<Found, AllocError>
    ensures { IfOk result (λ found. found ≡ value_of_type declared.now) }
{
    match declared {
        Some(declared) => Ok(Found::Value(declared.copy()?)),
        None => Ok(Found::Nothing),
    }
}

/// A call of a name with a number of arguments.
pub fn call_type(meaning: &Option<Meaning>, at: usize, count: usize) -> Result<Found, AllocError>
    ensures { IfOk result (λ found. found ≡ call_type (option_map meaning_seen meaning.now) at count) }
{
    match meaning {
        None => Ok(wrong(TypeKind::UnknownName, at)),
        Some(Meaning::Function(function)) => {
            if function.parameters.as_slice().len() == count {
                value_of_type(&function.result)
            } else {
                Ok(wrong(TypeKind::WrongCount, at))
            }
        }
        Some(_) => Ok(wrong(TypeKind::WrongType, at)),
    }
}

/// The type of the parameter of a function that a thread can run.
pub fn thread_parameter<'a>(meaning: &Option<Meaning<'a>>) -> Option<&'a CType>
    ensures { option_copied result ≡ thread_parameter (option_map meaning_seen meaning.now) }
{
    let Some(Meaning::Function(function)) = meaning else {
        return None;
    };
    let Some(result) = &function.result else {
        return None;
    };
    let [parameter] = function.parameters.as_slice() else {
        return None;
    };
    if same(result, &CType::Integer(Kind::I32)) && !matches!(parameter.declared, CType::Thread) {
        return Some(&parameter.declared);
    }
    None
}

/// The value of `thrd_create`, by what the function's name stands for.
pub fn spawn_type(meaning: &Option<Meaning>, name: usize, at: usize) -> Found
    ensures { result ≡ spawn_type (option_map meaning_seen meaning.now) name at }
{
    if meaning.is_none() {
        return wrong(TypeKind::UnknownName, name);
    }
    match thread_parameter(meaning) {
        Some(_) => Found::Value(CType::Integer(Kind::I32)),
        None => wrong(TypeKind::WrongType, at),
    }
}

/// The value of a call on a mutex, by what its name stands for.
pub fn mutex_call_type(meaning: &Option<Meaning>, name: usize, at: usize) -> Found
    ensures { result ≡ mutex_call_type (option_map meaning_seen meaning.now) name at }
{
    match meaning {
        None => wrong(TypeKind::UnknownName, name),
        Some(Meaning::Mutex) => Found::Value(CType::Integer(Kind::I32)),
        Some(_) => wrong(TypeKind::WrongType, at),
    }
}

/// The type of a field of a handle's struct.
pub fn field_of<'a>(text: &'a Known<'a>, declared: &Found, name: &str) -> Option<&'a CType>
    ensures { option_copied result ≡ field_of text.now (type_of declared.now) name.now }
{
    let tag = match declared {
        Found::Place(CType::Handle(tag)) => tag,
        Found::Value(CType::Handle(tag)) => tag,
        _ => return None,
    };
    text.member(tag.text.as_str(), name)
}

/// A field of a type, or one that isn't there.
pub fn field_type(declared: Option<&CType>, at: usize) -> Result<Found, AllocError>
    ensures { IfOk result (λ found. found ≡ field_type (option_copied declared.entry) at) }
{
    match declared {
        Some(declared) => Ok(Found::Place(declared.copy()?)),
        None => Ok(wrong(TypeKind::UnknownField, at)),
    }
}

/// The fault of a type whose tag isn't declared.
pub fn unknown_tag(text: &Known, declared: &CType) -> Option<Fault>
    ensures { result ≡ first (unknown_tag text.now declared.now) }
{
    match declared {
        CType::Handle(tag) => unless(
            text.is_tag(tag.text.as_str()),
            TypeKind::UnknownName,
            tag.place,
        ),
        CType::Integer(_) => None,
        CType::Thread => None,
    }
}

/// Whether a value is converted to a type; to one of an unknown tag each value is.
pub fn fits(text: &Known, declared: &CType, found: &Found) -> bool
    ensures { result ≡ fits text.now declared.now found.now }
{
    if text.is_known(declared) {
        found.converts(declared)
    } else {
        found.is_value()
    }
}

/// `==` or `!=`
pub fn is_equality(op: BinOp) -> bool
    ensures { result ≡ is_equality op }
{
    matches!(op, BinOp::Eq | BinOp::Ne)
}

/// Whether the operator has no trap where it wraps.
pub fn is_safe(op: BinOp) -> bool
    ensures { result ≡ is_safe op }
{
    !matches!(op, BinOp::Div | BinOp::Rem | BinOp::Shl | BinOp::Shr)
}

/// Whether it is an operand of a binary operator in some pair.
pub fn is_operand(op: BinOp, found: &Found) -> bool
    ensures { result ≡ is_operand op found.now }
{
    if is_equality(op) {
        found.is_comparable()
    } else {
        found.has_integer()
    }
}

/// Whether it is an operand of a unary operator.
pub fn is_unary_operand(op: UnOp, found: &Found) -> bool
    ensures { result ≡ is_unary_operand op found.now }
{
    if matches!(op, UnOp::Not) {
        found.has_scalar()
    } else {
        found.has_integer()
    }
}

/// Whether a value is assigned to what is on the left; to what is no place each value is.
pub fn is_assigned(to: &Found, found: &Found) -> bool
    ensures { result ≡ is_assigned to.now found.now }
{
    match to {
        Found::Place(declared) => found.converts(declared),
        _ => found.is_value(),
    }
}

/// Whether a thread's function takes the value; where it is unknown each value is taken.
pub fn is_thread_argument(parameter: Option<&CType>, found: &Found) -> bool
    ensures { result ≡ is_thread_argument (option_copied parameter.entry) found.now }
{
    match parameter {
        Some(declared) => found.converts(declared),
        None => found.is_value(),
    }
}

/// The type of a value.
pub fn type_of(found: &Found) -> Result<Option<CType>, AllocError>
    ensures { IfOk result (λ declared. declared ≡ type_of found.now) }
{
    match found {
        Found::Place(declared) => Ok(Some(declared.copy()?)),
        Found::Value(declared) => Ok(Some(declared.copy()?)),
        Found::Zero(kind) => Ok(Some(CType::Integer(*kind))),
        _ => Ok(None),
    }
}

/// A value of the type that another has, or none.
pub fn value_like(found: &Found) -> Result<Found, AllocError>
    ensures { IfOk result (λ value. value ≡ value_of_type (type_of found.now)) }
{
    value_of_type(&type_of(found)?)
}

/// Whether the first is a handle to whose type the second is converted.
fn leads(handle: &Found, other: &Found) -> bool
    ensures { result ≡ (has_value is_handle handle.now && follows (type_of handle.now) other.now) }
{
    match handle {
        Found::Place(declared) => handle.has_handle() && other.converts(declared),
        Found::Value(declared) => handle.has_handle() && other.converts(declared),
        _ => false,
    }
}

/// The type at which two operands of `==` or `!=`, or two results of `?:`, meet.
pub fn meeting(a: &Part, b: &Part) -> Result<Option<CType>, AllocError>
    ensures { IfOk result (λ declared. declared ≡ meeting a.now.found b.now.found) }
{
    if a.found.has_integer() && b.found.has_integer() {
        return Ok(Some(CType::Integer(common(a.kind(), b.kind()))));
    }
    if leads(&a.found, &b.found) {
        return type_of(&a.found);
    }
    if leads(&b.found, &a.found) {
        return type_of(&b.found);
    }
    Ok(None)
}

/// What is wrong with arguments that are each only to have a value.
#[tactic(auto, using(crate::proofs::Firsts::first_append, crate::proofs::Firsts::sooner_of_three, crate::proofs::Firsts::sooner_none))]
fn value_faults(arguments: &[Part]) -> Option<Fault>
    ensures { result ≡ first (value_faults arguments.now) }
{
    let mut fault = None;
    for argument in arguments {
        fault = sooner(fault, argument.required(argument.found.is_value()));
    }
    fault
}

/// What is wrong with the arguments of a `printf` by themselves.
#[tactic(auto, using(crate::proofs::Firsts::first_append, crate::proofs::Firsts::sooner_of_three, crate::proofs::Firsts::sooner_none))]
pub fn print_faults(arguments: &[Part]) -> Option<Fault>
    ensures { result ≡ first (print_faults arguments.now) }
{
    let mut fault = None;
    for argument in arguments {
        fault = sooner(fault, argument.required(argument.found.is_evaluated()));
    }
    fault
}

/// What is wrong with arguments that are as many as the parameters.
#[tactic(auto, using(crate::proofs::Firsts::first_append, crate::proofs::Firsts::sooner_of_three, crate::proofs::Firsts::sooner_none))]
fn conversion_faults(parameters: &[Binding], arguments: &[Part]) -> Option<Fault>
    requires { length parameters.now ≡ length arguments.now }
    ensures { result ≡ first (conversion_faults (types_of parameters.now) arguments.now) }
{
    let mut fault = None;
    for i in 0..arguments.len() {
        let argument = &arguments[i];
        let fits = argument.found.converts(&parameters[i].declared);
        fault = sooner(fault, argument.required(fits));
    }
    fault
}

/// What is wrong with the arguments of a call.
pub fn argument_faults(meaning: &Option<Meaning>, arguments: &[Part]) -> Option<Fault>
    ensures { result ≡ first (argument_faults (option_map meaning_seen meaning.now) arguments.now) }
{
    if let Some(Meaning::Function(function)) = meaning {
        let parameters = function.parameters.as_slice();
        if parameters.len() == arguments.len() {
            return conversion_faults(parameters, arguments);
        }
    }
    value_faults(arguments)
}
