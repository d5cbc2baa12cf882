//! Operators and library calls, and the expressions that they take.
ghost use Rattle.std.specs.Prelude.{◌≡◌, pos, IfOk};
ghost use Rattle.c_ints.specs.declared.kind.Kind.TheVariants.{I32};
ghost use Rattle.c_ints.specs.Number.{number, kind_of};
ghost use Rattle.c_ints.specs.Arithmetic.{unary_kind};
ghost use Rattle.c_tree.specs.BareExpr.{Integer, Handle};
ghost use Rattle.c_tree.specs.Bare.{bare_type};
ghost use Rattle.c_semantics.specs.Resolved.{Constant, Unary, Convert, And, Or, Update, Postfix, New, Free, Join, JoinInto, InitMutex, Lock, Unlock};
ghost use Rattle.c_semantics.specs.Texts.{int};
ghost use Rattle.c_semantics.specs.Resolution.{value as value_of, kind, tag_of, side as side_of, binary as binary_of, choice as choice_of, assignment as assignment_of, update as update_of, step as step_of};
ghost use Rattle.resolved_tree.specs.Nodes.{Table, word as word_of, expression_at, type_of};
ghost use Rattle.resolved_tree.specs.Parts.{a_word, a_node, in_type, both};
ghost use Rattle.name_resolution.specs.Found.{Grows, IsIn, found, in_found};
ghost use Rattle.resolved_tree.specs.Trees.{table};

use crate::found::{Found, converted, expression, place, tree, value, value_type, word};
use crate::types::{INT, common_type, kind};
use c_ints::{BinOp, Int, UnOp, binary_kind, unary_kind};
use c_tree::{CType, StepOp};
use resolved_tree::{ExpressionNode, NodeId, Trees, ValueType, Word};
use std::alloc::AllocError;

/// The tag of a handle's struct; of another type it is the empty name.
pub(crate) fn tag(trees: &mut Trees, declared: ValueType) -> Result<Word, AllocError>
    requires { IsIn (table trees.old) (in_type declared) }
    ensures word { IfOk result (λ r. (u : Table) → Grows (table trees.new) u → word_of u r ≡ tag_of (type_of u declared)) }
    ensures within { IfOk result (λ r. IsIn (table trees.new) (a_word r)) }
    ensures grows { Grows (table trees.old) (table trees.new) }
{
    match declared {
        ValueType::Handle(tag) => Ok(tag),
        ValueType::Integer(_) | ValueType::Thread => word(trees, ""),
    }
}

/// A side of a comparison: converted where a handle is compared.
fn side(trees: &mut Trees, compared: ValueType, of: Found) -> Result<NodeId, AllocError>
    requires { IsIn (table trees.old) (both (in_type compared) (in_found of)) }
    ensures tree { IfOk result (λ id. (u : Table) → Grows (table trees.new) u
        → expression_at u id ≡ side_of (type_of u compared) (found u of).tree) }
    ensures within { IfOk result (λ id. IsIn (table trees.new) (a_node id)) }
    ensures grows { Grows (table trees.old) (table trees.new) }
{
    match compared {
        ValueType::Handle(_) => converted(trees, compared, of),
        ValueType::Integer(_) | ValueType::Thread => tree(trees, of),
    }
}

/// A constant.
pub(crate) fn constant(trees: &mut Trees, n: Int) -> Result<Found, AllocError>
    ensures found { IfOk result (λ r. (u : Table) → Grows (table trees.new) u
        → found u r ≡ value_of (Constant n) (Integer (kind_of n))) }
    ensures within { IfOk result (λ r. IsIn (table trees.new) (in_found r)) }
    ensures grows { Grows (table trees.old) (table trees.new) }
{
    value(
        trees,
        ExpressionNode::Constant(n),
        ValueType::Integer(n.kind()),
    )
}

/// A unary operator.
pub(crate) fn unary(trees: &mut Trees, op: UnOp, a: Found) -> Result<Found, AllocError>
    requires { IsIn (table trees.old) (in_found a) }
    ensures found { IfOk result (λ r. (u : Table) → Grows (table trees.new) u
        → found u r ≡ value_of (Unary op (found u a).tree) (Integer (unary_kind op (kind (found u a).type)))) }
    ensures within { IfOk result (λ r. IsIn (table trees.new) (in_found r)) }
    ensures grows { Grows (table trees.old) (table trees.new) }
{
    let kind = unary_kind(op, kind(a.declared()));
    let operand = tree(trees, a)?;
    value(
        trees,
        ExpressionNode::Unary(op, operand),
        ValueType::Integer(kind),
    )
}

/// A cast.
pub(crate) fn cast(trees: &mut Trees, to: &CType, a: Found) -> Result<Found, AllocError>
    requires { IsIn (table trees.old) (in_found a) }
    ensures found { IfOk result (λ r. (u : Table) → Grows (table trees.new) u
        → found u r ≡ value_of (Convert (bare_type to.now) (found u a).tree) (bare_type to.now)) }
    ensures within { IfOk result (λ r. IsIn (table trees.new) (in_found r)) }
    ensures grows { Grows (table trees.old) (table trees.new) }
{
    let to = value_type(trees, to)?;
    let operand = converted(trees, to, a)?;
    Ok(Found::Value(operand, to))
}

/// `a && b`
pub(crate) fn and(trees: &mut Trees, a: Found, b: Found) -> Result<Found, AllocError>
    requires { IsIn (table trees.old) (both (in_found a) (in_found b)) }
    ensures found { IfOk result (λ r. (u : Table) → Grows (table trees.new) u
        → found u r ≡ value_of (And (found u a).tree (found u b).tree) int) }
    ensures within { IfOk result (λ r. IsIn (table trees.new) (in_found r)) }
    ensures grows { Grows (table trees.old) (table trees.new) }
{
    let left = tree(trees, a)?;
    let right = tree(trees, b)?;
    value(trees, ExpressionNode::And(left, right), INT)
}

/// `a || b`
pub(crate) fn or(trees: &mut Trees, a: Found, b: Found) -> Result<Found, AllocError>
    requires { IsIn (table trees.old) (both (in_found a) (in_found b)) }
    ensures found { IfOk result (λ r. (u : Table) → Grows (table trees.new) u
        → found u r ≡ value_of (Or (found u a).tree (found u b).tree) int) }
    ensures within { IfOk result (λ r. IsIn (table trees.new) (in_found r)) }
    ensures grows { Grows (table trees.old) (table trees.new) }
{
    let left = tree(trees, a)?;
    let right = tree(trees, b)?;
    value(trees, ExpressionNode::Or(left, right), INT)
}

/// A binary operator.
pub(crate) fn binary(trees: &mut Trees, op: BinOp, a: Found, b: Found) -> Result<Found, AllocError>
    requires { IsIn (table trees.old) (both (in_found a) (in_found b)) }
    ensures found { IfOk result (λ r. (u : Table) → Grows (table trees.new) u
        → found u r ≡ binary_of op (found u a) (found u b)) }
    ensures within { IfOk result (λ r. IsIn (table trees.new) (in_found r)) }
    ensures grows { Grows (table trees.old) (table trees.new) }
{
    let compared = common_type(a.declared(), b.declared());
    let kind = binary_kind(op, kind(a.declared()), kind(b.declared()));
    let left = side(trees, compared, a)?;
    let right = side(trees, compared, b)?;
    value(
        trees,
        ExpressionNode::Binary(op, left, right),
        ValueType::Integer(kind),
    )
}

/// `c ? a : b`
pub(crate) fn choice(trees: &mut Trees, c: Found, a: Found, b: Found) -> Result<Found, AllocError>
    requires { IsIn (table trees.old) (both (in_found c) (both (in_found a) (in_found b))) }
    ensures found { IfOk result (λ r. (u : Table) → Grows (table trees.new) u
        → found u r ≡ choice_of (found u c) (found u a) (found u b)) }
    ensures within { IfOk result (λ r. IsIn (table trees.new) (in_found r)) }
    ensures grows { Grows (table trees.old) (table trees.new) }
{
    let declared = common_type(a.declared(), b.declared());
    let condition = tree(trees, c)?;
    let first = converted(trees, declared, a)?;
    let second = converted(trees, declared, b)?;
    value(
        trees,
        ExpressionNode::Choice(condition, first, second),
        declared,
    )
}

/// `a = b`
pub(crate) fn assignment(trees: &mut Trees, a: Found, b: Found) -> Result<Found, AllocError>
    requires { IsIn (table trees.old) (both (in_found a) (in_found b)) }
    ensures found { IfOk result (λ r. (u : Table) → Grows (table trees.new) u
        → found u r ≡ assignment_of (found u a) (found u b)) }
    ensures within { IfOk result (λ r. IsIn (table trees.new) (in_found r)) }
    ensures grows { Grows (table trees.old) (table trees.new) }
{
    let declared = a.declared();
    let place = place(trees, a)?;
    let assigned = converted(trees, declared, b)?;
    value(trees, ExpressionNode::Assign(place, assigned), declared)
}

/// A compound assignment.
pub(crate) fn update(trees: &mut Trees, op: BinOp, a: Found, b: Found) -> Result<Found, AllocError>
    requires { IsIn (table trees.old) (both (in_found a) (in_found b)) }
    ensures found { IfOk result (λ r. (u : Table) → Grows (table trees.new) u
        → found u r ≡ update_of op (found u a) (found u b)) }
    ensures within { IfOk result (λ r. IsIn (table trees.new) (in_found r)) }
    ensures grows { Grows (table trees.old) (table trees.new) }
{
    let declared = a.declared();
    let place = place(trees, a)?;
    let operand = tree(trees, b)?;
    value(
        trees,
        ExpressionNode::Update(declared, op, place, operand),
        declared,
    )
}

/// `++x` and `--x` are `x += 1` and `x -= 1`.
fn pre_step(trees: &mut Trees, op: BinOp, a: Found) -> Result<Found, AllocError>
    requires { IsIn (table trees.old) (in_found a) }
    ensures found { IfOk result (λ r. (u : Table) → Grows (table trees.new) u
        → found u r ≡ value_of (Update (found u a).type op (found u a).place (Constant (number I32 (pos 1)))) (found u a).type) }
    ensures within { IfOk result (λ r. IsIn (table trees.new) (in_found r)) }
    ensures grows { Grows (table trees.old) (table trees.new) }
{
    let declared = a.declared();
    let place = place(trees, a)?;
    let one = expression(trees, ExpressionNode::Constant(Int::I32(1)))?;
    value(
        trees,
        ExpressionNode::Update(declared, op, place, one),
        declared,
    )
}

/// `x++` and `x--` give the old value.
fn post_step(trees: &mut Trees, op: BinOp, a: Found) -> Result<Found, AllocError>
    requires { IsIn (table trees.old) (in_found a) }
    ensures found { IfOk result (λ r. (u : Table) → Grows (table trees.new) u
        → found u r ≡ value_of (Postfix (found u a).type op (found u a).place) (found u a).type) }
    ensures within { IfOk result (λ r. IsIn (table trees.new) (in_found r)) }
    ensures grows { Grows (table trees.old) (table trees.new) }
{
    let declared = a.declared();
    let place = place(trees, a)?;
    value(
        trees,
        ExpressionNode::Postfix(declared, op, place),
        declared,
    )
}

/// `++` and `--`
pub(crate) fn step(trees: &mut Trees, op: StepOp, a: Found) -> Result<Found, AllocError>
    requires { IsIn (table trees.old) (in_found a) }
    ensures found { IfOk result (λ r. (u : Table) → Grows (table trees.new) u
        → found u r ≡ step_of op (found u a)) }
    ensures within { IfOk result (λ r. IsIn (table trees.new) (in_found r)) }
    ensures grows { Grows (table trees.old) (table trees.new) }
{
    match op {
        StepOp::PreIncrement => pre_step(trees, BinOp::Add, a),
        StepOp::PreDecrement => pre_step(trees, BinOp::Sub, a),
        StepOp::PostIncrement => post_step(trees, BinOp::Add, a),
        StepOp::PostDecrement => post_step(trees, BinOp::Sub, a),
    }
}

/// A new object of the struct with a tag.
pub(crate) fn calloc(trees: &mut Trees, tag: &str) -> Result<Found, AllocError>
    ensures found { IfOk result (λ r. (u : Table) → Grows (table trees.new) u
        → found u r ≡ value_of (New tag.now) (Handle tag.now)) }
    ensures within { IfOk result (λ r. IsIn (table trees.new) (in_found r)) }
    ensures grows { Grows (table trees.old) (table trees.new) }
{
    let tag = word(trees, tag)?;
    value(trees, ExpressionNode::New(tag), ValueType::Handle(tag))
}

/// The end of an object.
pub(crate) fn free(trees: &mut Trees, a: Found) -> Result<Found, AllocError>
    requires { IsIn (table trees.old) (in_found a) }
    ensures found { IfOk result (λ r. (u : Table) → Grows (table trees.new) u
        → found u r ≡ value_of (Free (tag_of (found u a).type) (found u a).tree) int) }
    ensures within { IfOk result (λ r. IsIn (table trees.new) (in_found r)) }
    ensures grows { Grows (table trees.old) (table trees.new) }
{
    let tag = tag(trees, a.declared())?;
    let object = tree(trees, a)?;
    value(trees, ExpressionNode::Free(tag, object), INT)
}

/// `thrd_join(t, NULL)`
pub(crate) fn join(trees: &mut Trees, a: Found) -> Result<Found, AllocError>
    requires { IsIn (table trees.old) (in_found a) }
    ensures found { IfOk result (λ r. (u : Table) → Grows (table trees.new) u
        → found u r ≡ value_of (Join (found u a).tree) int) }
    ensures within { IfOk result (λ r. IsIn (table trees.new) (in_found r)) }
    ensures grows { Grows (table trees.old) (table trees.new) }
{
    let thread = tree(trees, a)?;
    value(trees, ExpressionNode::Join(thread), INT)
}

/// `thrd_join(t, &x)`
pub(crate) fn join_into(trees: &mut Trees, a: Found, b: Found) -> Result<Found, AllocError>
    requires { IsIn (table trees.old) (both (in_found a) (in_found b)) }
    ensures found { IfOk result (λ r. (u : Table) → Grows (table trees.new) u
        → found u r ≡ value_of (JoinInto (found u a).tree (found u b).place) int) }
    ensures within { IfOk result (λ r. IsIn (table trees.new) (in_found r)) }
    ensures grows { Grows (table trees.old) (table trees.new) }
{
    let thread = tree(trees, a)?;
    let place = place(trees, b)?;
    value(trees, ExpressionNode::JoinInto(thread, place), INT)
}

/// `mtx_init`
pub(crate) fn init_mutex(trees: &mut Trees, name: &str) -> Result<Found, AllocError>
    ensures found { IfOk result (λ r. (u : Table) → Grows (table trees.new) u
        → found u r ≡ value_of (InitMutex name.now) int) }
    ensures within { IfOk result (λ r. IsIn (table trees.new) (in_found r)) }
    ensures grows { Grows (table trees.old) (table trees.new) }
{
    let name = word(trees, name)?;
    value(trees, ExpressionNode::InitMutex(name), INT)
}

/// `mtx_lock`
pub(crate) fn lock(trees: &mut Trees, name: &str) -> Result<Found, AllocError>
    ensures found { IfOk result (λ r. (u : Table) → Grows (table trees.new) u
        → found u r ≡ value_of (Lock name.now) int) }
    ensures within { IfOk result (λ r. IsIn (table trees.new) (in_found r)) }
    ensures grows { Grows (table trees.old) (table trees.new) }
{
    let name = word(trees, name)?;
    value(trees, ExpressionNode::Lock(name), INT)
}

/// `mtx_unlock`
pub(crate) fn unlock(trees: &mut Trees, name: &str) -> Result<Found, AllocError>
    ensures found { IfOk result (λ r. (u : Table) → Grows (table trees.new) u
        → found u r ≡ value_of (Unlock name.now) int) }
    ensures within { IfOk result (λ r. IsIn (table trees.new) (in_found r)) }
    ensures grows { Grows (table trees.old) (table trees.new) }
{
    let name = word(trees, name)?;
    value(trees, ExpressionNode::Unlock(name), INT)
}
