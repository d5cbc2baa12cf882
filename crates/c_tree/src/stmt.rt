ghost use Rattle.std.specs.Prelude.{◌≡◌, IfOk};
ghost use Rattle.c_tree.specs.declared.stmt.Stmt.{out-Stmt};

use crate::expr::Expr;
use crate::name::{CType, Name};
use dsu_io::{Boxed, List};
use std::alloc::{AllocError, Global};

/// One declared variable; `int a, b;` makes two.
#[derive(Debug, Drop)]
pub struct Declaration {
    pub declared: CType,
    pub name: Name,
    pub initial: Option<Expr>,
}

/// A statement, or a declaration in a block (6.8).
#[derive(Debug, Drop)]
pub struct Stmt {
    /// The first byte of its first token, counted in bytes from 0; of a declaration that is its type's.
    pub place: usize,
    pub node: StmtNode<Stmt>,
}

/// What a statement is, over the statements `S` that it is made of.
#[derive(Debug, Drop)]
pub enum StmtNode<S> {
    Block(List<S>),
    /// `;`
    Empty,
    /// An expression statement.
    Evaluate(Expr),
    Declare(Declaration),
    If(Expr, Boxed<S>),
    IfElse(Expr, Boxed<S>, Boxed<S>),
    While(Expr, Boxed<S>),
    DoWhile(Boxed<S>, Expr),
    /// The first part is no statement, one `Evaluate`, or one `Declare` or more.
    For(List<S>, Option<Expr>, Option<Expr>, Boxed<S>),
    Break,
    Continue,
    /// `return;`
    Return,
    /// `return e;`
    ReturnValue(Expr),
    /// `dsu_update();`
    Update,
    /// `dsu_tx { .. }`, with the place of its closing brace
    Transaction(List<S>, usize),
}

impl Stmt {
    /// A copy, places and all.
    #[cycle(copy_stmt)]
    pub fn copy(&self, alloc: Global) -> Result<Stmt, AllocError>
        ensures { IfOk result (λ copy. copy ≡ self.now) }
    {
        Ok(Stmt {
            place: self.place,
            node: copy_node(alloc, self)?,
        })
    }
}

#[cycle(copy_stmt)]
fn copy_node(alloc: Global, stmt: &Stmt) -> Result<StmtNode<Stmt>, AllocError>
    ensures { IfOk result (λ copy. copy ≡ (out-Stmt stmt.now).node) }
{
    match &stmt.node {
        StmtNode::Block(body) => Ok(StmtNode::Block(copy_stmts(alloc, body)?)),
        StmtNode::Empty => Ok(StmtNode::Empty),
        StmtNode::Evaluate(e) => Ok(StmtNode::Evaluate(e.copy(alloc)?)),
        StmtNode::Declare(d) => Ok(StmtNode::Declare(d.copy(alloc)?)),
        StmtNode::If(e, s) => Ok(StmtNode::If(e.copy(alloc)?, copy_inner(alloc, s)?)),
        StmtNode::IfElse(e, s, t) => Ok(StmtNode::IfElse(
            e.copy(alloc)?,
            copy_inner(alloc, s)?,
            copy_inner(alloc, t)?,
        )),
        StmtNode::While(e, s) => Ok(StmtNode::While(e.copy(alloc)?, copy_inner(alloc, s)?)),
        StmtNode::DoWhile(s, e) => Ok(StmtNode::DoWhile(copy_inner(alloc, s)?, e.copy(alloc)?)),
        StmtNode::For(first, test, step, s) => Ok(StmtNode::For(
            copy_stmts(alloc, first)?,
            copy_optional(alloc, test)?,
            copy_optional(alloc, step)?,
            copy_inner(alloc, s)?,
        )),
        StmtNode::Break => Ok(StmtNode::Break),
        StmtNode::Continue => Ok(StmtNode::Continue),
        StmtNode::Return => Ok(StmtNode::Return),
        StmtNode::ReturnValue(e) => Ok(StmtNode::ReturnValue(e.copy(alloc)?)),
        StmtNode::Update => Ok(StmtNode::Update),
        StmtNode::Transaction(body, end) => Ok(StmtNode::Transaction(
            copy_stmts(alloc, body)?,
            *end,
        )),
    }
}

#[cycle(copy_stmt)]
fn copy_inner(alloc: Global, inner: &Boxed<Stmt>) -> Result<Boxed<Stmt>, AllocError>
    ensures { IfOk result (λ copy. copy ≡ inner.now) }
{
    Boxed::of(alloc, inner.get().copy(alloc)?)
}

/// A copy of a list, places and all.
#[cycle(copy_stmt)]
pub fn copy_stmts(alloc: Global, list: &List<Stmt>) -> Result<List<Stmt>, AllocError>
    ensures { IfOk result (λ copy. copy ≡ list.now) }
{
    let stmts = list.as_slice();
    let mut copies = Vec::new(alloc);
    for stmt in stmts {
        copies.push(stmt.copy(alloc)?)?;
    }
    Ok(List::of(copies))
}

impl Declaration {
    /// A copy, places and all.
    pub fn copy(&self, alloc: Global) -> Result<Declaration, AllocError>
        ensures { IfOk result (λ copy. copy ≡ self.now) }
    {
        Ok(Declaration {
            declared: self.declared.copy()?,
            name: self.name.copy()?,
            initial: copy_optional(alloc, &self.initial)?,
        })
    }
}

fn copy_optional(alloc: Global, expr: &Option<Expr>) -> Result<Option<Expr>, AllocError>
    ensures { IfOk result (λ copy. copy ≡ expr.now) }
{
    match expr {
        Some(expr) => Ok(Some(expr.copy(alloc)?)),
        None => Ok(None),
    }
}
