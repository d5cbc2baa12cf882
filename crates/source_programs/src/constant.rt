//! The cells with which globals begin.
ghost use Rattle.std.specs.Prelude.{◌≡◌, [], map, Some, option_map, unwrap_or, IfOk};
ghost use Rattle.c_tree.specs.Bare.{bare_expr, bare_type, bare_declaration, bare_array, bare_kind};
ghost use Rattle.c_semantics.specs.Constants.{no_old, constant, initial, elements, initial_cells};
ghost use Rattle.c_tree.specs.BareDef.{Global as GlobalIs};
ghost use Rattle.local_evaluation.specs.Values.{seen};

use c_ints::Int;
use c_tree::{Array, CType, Declaration, DefKind, Expr, ExprNode};
use constant_values::{chosen, converted, kind_of, wrapped, wrapped_unary, zero};
use dsu_io::Boxed;
use local_evaluation::Value;
use std::alloc::{AllocError, Global};

/// The cells with which what a definition defines begins (C11 6.7.9): one of a global, and those of an array, of which
/// the ones after its list are zero. Other definitions have none. A length that doesn't fit in memory is reported as out of memory.
pub(crate) fn initial_cells(alloc: Global, kind: &DefKind) -> Result<Vec<Value>, AllocError>
    ensures { IfOk result (λ cells. map seen cells.items ≡ initial_cells (bare_kind kind.now)) }
{
    match kind {
        DefKind::Global(declaration) => cell_of(alloc, declaration),
        DefKind::Array(array) => cells_of(alloc, array),
        DefKind::Struct(_, _)
        | DefKind::Forward(_)
        | DefKind::Mutex(_)
        | DefKind::Function(_)
        | DefKind::Prototype(_)
        | DefKind::TransformStruct(_)
        | DefKind::TransformGlobal(_, _) => Ok(Vec::new(alloc)),
    }
}

/// The cell of a global.
fn cell_of(alloc: Global, declaration: &Declaration) -> Result<Vec<Value>, AllocError>
    ensures { IfOk result (λ cells. map seen cells.items ≡ initial_cells (GlobalIs (bare_declaration declaration.now))) }
{
    let value = match &declaration.initial {
        Some(e) => initial(&declaration.declared, e),
        None => zero(kind_of(&declaration.declared)),
    };
    Vec::from_slice(alloc, &[value])
}

/// The cells of an array.
fn cells_of(alloc: Global, array: &Array) -> Result<Vec<Value>, AllocError>
    ensures { IfOk result (λ cells. map seen cells.items ≡ initial_cells (bare_array array.now)) }
{
    let length = elements(array.length.value);
    let mut cells = Vec::with_capacity(alloc, length)?;
    for e in initialisers(array) {
        cells.push(initial(&array.element, e))?;
    }
    cells.resize(length, zero(kind_of(&array.element)))?;
    Ok(cells)
}

/// The initialisers of an array; none where no list of them is written.
fn initialisers(array: &Array) -> &[Expr]
    ensures { map bare_expr result.now ≡ unwrap_or (option_map (map bare_expr) array.now.initial) [] }
{
    match &array.initial {
        Some(list) => list.as_slice(),
        None => &[],
    }
}

/// How many elements an array has.
fn elements(length: Int) -> usize
    ensures { result ≡ elements length }
{
    length.value().unsigned_abs() as usize
}

/// The value with which a variable of a type begins that has an initialiser.
fn initial(declared: &CType, e: &Expr) -> Value
    ensures { seen result ≡ initial (bare_type declared.now) (Some (bare_expr e.now)) }
{
    converted(kind_of(declared), constant(e))
}

/// The value of an initialiser. Its operators wrap.
#[cycle(constant)]
fn constant(expr: &Expr) -> Value
    ensures { seen result ≡ constant no_old (bare_expr expr.now) }
{
    match &expr.node {
        ExprNode::Number(n) | ExprNode::Character(n) => Value::Number(*n),
        ExprNode::Unary(op, a) => wrapped_unary(*op, part(a)),
        ExprNode::Cast(to, a) => converted(kind_of(to), part(a)),
        ExprNode::Binary(op, a, b) => wrapped(*op, part(a), part(b)),
        ExprNode::Choice(c, a, b) => chosen(part(c), part(a), part(b)),
        _ => Value::Number(Int::I32(0)),
    }
}

#[cycle(constant)]
fn part(expr: &Boxed<Expr>) -> Value
    ensures { seen result ≡ constant no_old (bare_expr expr.now) }
{
    constant(expr.get())
}
