ghost use Rattle.std.specs.Prelude.{◌≡◌, IfOk, Ok};
ghost use Rattle.c_tree.specs.declared.expr.ExprNode.TheVariants.{Variable, Cast, Call, Element, Arrow, Dot, Print, Create};
ghost use Rattle.c_tree.specs.declared.expr.Expr.{out-Expr};

use crate::name::{CType, Name};
use c_ints::{BinOp, Int, UnOp};
use dsu_io::{Boxed, List, Text};
use std::alloc::{AllocError, Global};

/// `++` and `--` (6.5.2.4, 6.5.3.1).
#[derive(Clone, Copy, Debug, PartialEq, Eq)]
pub enum StepOp {
    /// `++x`
    PreIncrement,
    /// `--x`
    PreDecrement,
    /// `x++`
    PostIncrement,
    /// `x--`
    PostDecrement,
}

/// An expression (6.5).
#[derive(Debug, Drop)]
pub struct Expr {
    /// The first byte of its first token, which may be a parenthesis, counted in bytes from 0.
    pub place: usize,
    pub node: ExprNode<Expr>,
}

/// What an expression is, over the expressions `E` that it is made of.
#[derive(Debug, Drop)]
pub enum ExprNode<E> {
    Number(Int),
    /// `'a'`, an `int`
    Character(Int),
    /// `NULL`
    Null,
    /// `thrd_success`
    Success,
    /// `thrd_error`
    Error,
    /// A name, at the node's own place.
    Variable(Text),
    Unary(UnOp, Boxed<E>),
    Step(StepOp, Boxed<E>),
    /// `(int) x`
    Cast(CType, Boxed<E>),
    Binary(BinOp, Boxed<E>, Boxed<E>),
    /// `a && b`
    And(Boxed<E>, Boxed<E>),
    /// `a || b`
    Or(Boxed<E>, Boxed<E>),
    /// `a ? b : c`
    Choice(Boxed<E>, Boxed<E>, Boxed<E>),
    /// `a = b`
    Assign(Boxed<E>, Boxed<E>),
    /// `a += b` and the other compound assignments
    Update(BinOp, Boxed<E>, Boxed<E>),
    /// `f(a, b)`, the name at the node's own place
    Call(Text, List<E>),
    /// `a[i]`, the name at the node's own place
    Element(Text, Boxed<E>),
    /// `p->f`
    Arrow(Boxed<E>, Name),
    /// `old.f`
    Dot(Boxed<E>, Name),
    /// `printf("..", a, b)`
    Print {
        /// The first string's first byte.
        place: usize,
        /// The adjacent strings' bytes, one after another, without quotes and after their escapes.
        format: Text,
        arguments: List<E>,
    },
    /// `calloc(1, sizeof(struct T))`, with the name `T`
    Calloc(Name),
    /// `free(p)`
    Free(Boxed<E>),
    /// `thrd_create(&t, f, a)`
    Create(Boxed<E>, Name, Boxed<E>),
    /// `thrd_join(t, NULL)`
    Join(Boxed<E>),
    /// `thrd_join(t, &x)`
    JoinInto(Boxed<E>, Boxed<E>),
    /// `mtx_init(&m, mtx_plain)`
    InitMutex(Name),
    /// `mtx_lock(&m)`
    Lock(Name),
    /// `mtx_unlock(&m)`
    Unlock(Name),
}

impl Expr {
    /// A copy, places and all.
    #[cycle(copy_expr)]
    pub fn copy(&self, alloc: Global) -> Result<Expr, AllocError>
        ensures { IfOk result (λ copy. copy ≡ self.now) }
    {
        Ok(Expr {
            place: self.place,
            node: copy_node(alloc, self)?,
        })
    }
}

#[cycle(copy_expr)]
fn copy_node(alloc: Global, expr: &Expr) -> Result<ExprNode<Expr>, AllocError>
    ensures { IfOk result (λ copy. copy ≡ (out-Expr expr.now).node) }
{
    match &expr.node {
        ExprNode::Number(n) => Ok(ExprNode::Number(*n)),
        ExprNode::Character(n) => Ok(ExprNode::Character(*n)),
        ExprNode::Null => Ok(ExprNode::Null),
        ExprNode::Success => Ok(ExprNode::Success),
        ExprNode::Error => Ok(ExprNode::Error),
        ExprNode::Variable(name) => variable(name),
        ExprNode::Unary(op, a) => Ok(ExprNode::Unary(*op, copy_part(alloc, a)?)),
        ExprNode::Step(op, a) => Ok(ExprNode::Step(*op, copy_part(alloc, a)?)),
        ExprNode::Cast(to, a) => cast(to, copy_part(alloc, a)?),
        ExprNode::Binary(op, a, b) => {
            let (a, b) = both(copy_part(alloc, a), copy_part(alloc, b))?;
            Ok(ExprNode::Binary(*op, a, b))
        }
        ExprNode::And(a, b) => {
            let (a, b) = both(copy_part(alloc, a), copy_part(alloc, b))?;
            Ok(ExprNode::And(a, b))
        }
        ExprNode::Or(a, b) => {
            let (a, b) = both(copy_part(alloc, a), copy_part(alloc, b))?;
            Ok(ExprNode::Or(a, b))
        }
        ExprNode::Choice(a, b, c) => {
            let (a, b) = both(copy_part(alloc, a), copy_part(alloc, b))?;
            Ok(ExprNode::Choice(a, b, copy_part(alloc, c)?))
        }
        ExprNode::Assign(a, b) => {
            let (a, b) = both(copy_part(alloc, a), copy_part(alloc, b))?;
            Ok(ExprNode::Assign(a, b))
        }
        ExprNode::Update(op, a, b) => {
            let (a, b) = both(copy_part(alloc, a), copy_part(alloc, b))?;
            Ok(ExprNode::Update(*op, a, b))
        }
        ExprNode::Call(name, list) => call(name, copy_exprs(alloc, list)?),
        ExprNode::Element(name, a) => element(name, copy_part(alloc, a)?),
        ExprNode::Arrow(a, name) => arrow(copy_part(alloc, a)?, name),
        ExprNode::Dot(a, name) => dot(copy_part(alloc, a)?, name),
        ExprNode::Print {
            place,
            format,
            arguments,
        } => print(*place, format, copy_exprs(alloc, arguments)?),
        ExprNode::Calloc(name) => Ok(ExprNode::Calloc(name.copy()?)),
        ExprNode::Free(a) => Ok(ExprNode::Free(copy_part(alloc, a)?)),
        ExprNode::Create(a, name, b) => {
            let (a, b) = both(copy_part(alloc, a), copy_part(alloc, b))?;
            create(a, name, b)
        }
        ExprNode::Join(a) => Ok(ExprNode::Join(copy_part(alloc, a)?)),
        ExprNode::JoinInto(a, b) => {
            let (a, b) = both(copy_part(alloc, a), copy_part(alloc, b))?;
            Ok(ExprNode::JoinInto(a, b))
        }
        ExprNode::InitMutex(name) => Ok(ExprNode::InitMutex(name.copy()?)),
        ExprNode::Lock(name) => Ok(ExprNode::Lock(name.copy()?)),
        ExprNode::Unlock(name) => Ok(ExprNode::Unlock(name.copy()?)),
    }
}

#[cycle(copy_expr)]
fn copy_part(alloc: Global, part: &Boxed<Expr>) -> Result<Boxed<Expr>, AllocError>
    ensures { IfOk result (λ copy. copy ≡ part.now) }
{
    Boxed::of(alloc, part.get().copy(alloc)?)
}

/// A copy of a list, places and all.
#[cycle(copy_expr)]
pub fn copy_exprs(alloc: Global, list: &List<Expr>) -> Result<List<Expr>, AllocError>
    ensures { IfOk result (λ copy. copy ≡ list.now) }
{
    let exprs = list.as_slice();
    let mut copies = Vec::new(alloc);
    for expr in exprs {
        copies.push(expr.copy(alloc)?)?;
    }
    Ok(List::of(copies))
}

/// Two copies, or the error of the first that failed. One `?` for two parts keeps the proof of `copy_node` small.
fn both(
    a: Result<Boxed<Expr>, AllocError>,
    b: Result<Boxed<Expr>, AllocError>,
) -> Result<(Boxed<Expr>, Boxed<Expr>), AllocError>
    ensures { IfOk result (λ copies. (a ≡ Ok copies.0) × (b ≡ Ok copies.1)) }
{
    Ok((a?, b?))
}

fn variable(name: &Text) -> Result<ExprNode<Expr>, AllocError>
    ensures { IfOk result (λ copy. copy ≡ Variable name.now) }
{
    Ok(ExprNode::Variable(name.clone()?))
}

fn cast(to: &CType, a: Boxed<Expr>) -> Result<ExprNode<Expr>, AllocError>
    ensures { IfOk result (λ copy. copy ≡ Cast to.now a) }
{
    Ok(ExprNode::Cast(to.copy()?, a))
}

fn call(name: &Text, arguments: List<Expr>) -> Result<ExprNode<Expr>, AllocError>
    ensures { IfOk result (λ copy. copy ≡ Call name.now arguments) }
{
    Ok(ExprNode::Call(name.clone()?, arguments))
}

fn element(name: &Text, a: Boxed<Expr>) -> Result<ExprNode<Expr>, AllocError>
    ensures { IfOk result (λ copy. copy ≡ Element name.now a) }
{
    Ok(ExprNode::Element(name.clone()?, a))
}

fn arrow(a: Boxed<Expr>, name: &Name) -> Result<ExprNode<Expr>, AllocError>
    ensures { IfOk result (λ copy. copy ≡ Arrow a name.now) }
{
    Ok(ExprNode::Arrow(a, name.copy()?))
}

fn dot(a: Boxed<Expr>, name: &Name) -> Result<ExprNode<Expr>, AllocError>
    ensures { IfOk result (λ copy. copy ≡ Dot a name.now) }
{
    Ok(ExprNode::Dot(a, name.copy()?))
}

fn print(place: usize, format: &Text, arguments: List<Expr>) -> Result<ExprNode<Expr>, AllocError>
    ensures { IfOk result (λ copy. copy ≡ Print place format.now arguments) }
{
    Ok(ExprNode::Print {
        place,
        format: format.clone()?,
        arguments,
    })
}

fn create(a: Boxed<Expr>, name: &Name, b: Boxed<Expr>) -> Result<ExprNode<Expr>, AllocError>
    ensures { IfOk result (λ copy. copy ≡ Create a name.now b) }
{
    Ok(ExprNode::Create(a, name.copy()?, b))
}
