ghost use Rattle.std.specs.Prelude.{◌≡◌, is_some, option_map, option_copied, if◌then◌else◌};
ghost use Rattle.c_expr_types.specs.declared.found.Found.TheVariants.{Value};
ghost use Rattle.c_expr_types.specs.Expressions.{binary, choice, is_equality, is_operand, is_unary_operand, meeting, number_type};
ghost use Rattle.c_expr_types.specs.declared.fault.TypeKind.TheVariants.{WrongType};
ghost use Rattle.c_expr_types.specs.Found.{wrong};
ghost use Rattle.patch_faults.specs.TransformTypes.{field_value, type_in};
ghost use Rattle.transformer_types.specs.Alone.{binary_of, cast_of, choice_of, field_of, unary_of};
ghost use Rattle.transformer_types.specs.Views.{found_seen, old_seen, part_seen};

use crate::fault::{ValueFault, first_of_value};
use crate::found::{Found, Old, Part, unless_wrong};
use crate::layout::member;
use c_ints::{BinOp, Int, UnOp, binary_kind, common, unary_kind};
use c_tree::{CType, Name};

/// A number: one of value 0 each handle takes too.
pub(crate) fn number<'a>(n: Int) -> Found<'a>
    ensures { found_seen result ≡ number_type n }
{
    if n.value() == 0 {
        Found::Zero(n.kind())
    } else {
        Found::Integer(n.kind())
    }
}

/// `==` or `!=`
fn is_equality(op: BinOp) -> bool
    ensures { result ≡ is_equality op }
{
    matches!(op, BinOp::Eq | BinOp::Ne)
}

/// Whether it is an operand of a unary operator.
fn is_unary_operand(op: UnOp, found: Found) -> bool
    ensures { result ≡ is_unary_operand op (found_seen found.entry) }
{
    if matches!(op, UnOp::Not) {
        found.has_scalar()
    } else {
        found.has_integer()
    }
}

/// Whether it is an operand of a binary operator in some pair.
fn is_operand(op: BinOp, found: Found) -> bool
    ensures { result ≡ is_operand op (found_seen found.entry) }
{
    if is_equality(op) {
        found.is_comparable()
    } else {
        found.has_integer()
    }
}

/// `op a`
pub(crate) fn unary<'a>(op: UnOp, a: Part<'a>) -> Found<'a>
    ensures { found_seen result ≡ unary_of op (part_seen a.entry) }
{
    let fault = a.required(is_unary_operand(op, a.found));
    unless_wrong(fault, Found::Integer(unary_kind(op, a.kind())))
}

/// `(T) a`
pub(crate) fn cast<'a>(to: &'a CType, a: Part<'a>) -> Found<'a>
    ensures { found_seen result ≡ cast_of to.now (part_seen a.entry) }
{
    let fault = a.required(a.found.converts(to));
    unless_wrong(fault, Found::Of(to))
}

/// What two operands of `==` or `!=`, or two results of `?:`, are together: a value of the type at which they meet.
fn meeting<'a>(a: Part<'a>, b: Part<'a>) -> Option<Found<'a>>
    ensures { option_map found_seen result ≡ option_map Value (meeting (part_seen a.entry).found (part_seen b.entry).found) }
{
    if a.found.has_integer() && b.found.has_integer() {
        return Some(Found::Integer(common(a.kind(), b.kind())));
    }
    if a.found.leads(b.found) {
        return Some(a.found);
    }
    if b.found.leads(a.found) {
        return Some(b.found);
    }
    None
}

/// Whether two operands of `==` or `!=` meet at a type.
fn meet(a: Part, b: Part) -> bool
    ensures { result ≡ is_some (meeting (part_seen a.entry).found (part_seen b.entry).found) }
{
    meeting(a, b).is_some()
}

/// What an expression is where its operands meet; else it is of a wrong type.
fn where_met<'a>(met: bool, at: usize, found: Found<'a>) -> Found<'a>
    ensures { found_seen result ≡ (if met then found_seen found.entry else wrong WrongType at) }
{
    if met {
        found
    } else {
        Found::Wrong(ValueFault::WrongType(at))
    }
}

/// The value of `a op b`, where its operands are right by themselves.
#[tactic(auto, using(crate::proofs::Meetings::where_met_by))]
fn binary_value<'a>(at: usize, op: BinOp, a: Part<'a>, b: Part<'a>) -> Found<'a>
    ensures { found_seen result ≡ binary op at (part_seen a.entry) (part_seen b.entry) }
{
    let value = Found::Integer(binary_kind(op, a.kind(), b.kind()));
    if is_equality(op) {
        where_met(meet(a, b), at, value)
    } else {
        value
    }
}

/// `a op b`
pub(crate) fn binary<'a>(at: usize, op: BinOp, a: Part<'a>, b: Part<'a>) -> Found<'a>
    ensures { found_seen result ≡ binary_of op at (part_seen a.entry) (part_seen b.entry) }
{
    let fault = first_of_value(
        a.required(is_operand(op, a.found)),
        b.required(is_operand(op, b.found)),
    );
    unless_wrong(fault, binary_value(at, op, a, b))
}

/// The value of `a ? b : c`, where its parts are right by themselves.
fn choice_value<'a>(at: usize, b: Part<'a>, c: Part<'a>) -> Found<'a>
    ensures { found_seen result ≡ choice at (part_seen b.entry) (part_seen c.entry) }
{
    match meeting(b, c) {
        Some(value) => value,
        None => Found::Wrong(ValueFault::WrongType(at)),
    }
}

/// `a ? b : c`
pub(crate) fn choice<'a>(at: usize, a: Part<'a>, b: Part<'a>, c: Part<'a>) -> Found<'a>
    ensures { found_seen result ≡ choice_of at (part_seen a.entry) (part_seen b.entry) (part_seen c.entry) }
{
    let results = first_of_value(
        b.required(b.found.is_comparable()),
        c.required(c.found.is_comparable()),
    );
    let fault = first_of_value(a.required(a.found.has_scalar()), results);
    unless_wrong(fault, choice_value(at, b, c))
}

/// The type of a field of `old`.
fn type_in<'a>(old: Old<'a>, name: &str) -> Option<&'a CType>
    ensures { option_copied result ≡ type_in (old_seen old.entry) name.now }
{
    match old {
        Old::Object(fields) => member(fields, name),
        Old::Value(_) => None,
    }
}

/// A field of a type, or one that isn't there.
fn field_value<'a>(declared: Option<&'a CType>, place: usize) -> Found<'a>
    ensures { found_seen result ≡ field_value (option_copied declared.entry) place }
{
    match declared {
        Some(declared) => Found::Of(declared),
        None => Found::Wrong(ValueFault::UnknownField(place)),
    }
}

/// `a.name`, where a is `old`
pub(crate) fn field<'a>(old: Old<'a>, a: Part<'a>, name: &Name) -> Found<'a>
    ensures { found_seen result ≡ field_of (old_seen old.entry) (part_seen a.entry) name.now }
{
    let fault = a.required(old.is_object());
    let declared = type_in(old, name.text.as_str());
    unless_wrong(fault, field_value(declared, name.place))
}
