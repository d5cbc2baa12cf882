use c_tree::Expr;
use dsu_io::Boxed;

/// An expression as an operand of what follows it.
#[derive(Drop)]
pub struct Operand {
    /// On the heap from the start, since most operands become parts of larger ones.
    pub expr: Boxed<Expr>,
    /// The first byte of its first token, which may be a parenthesis.
    pub start: usize,
    /// Whether it's a unary expression (6.5.3), which may come before an assignment's operator.
    pub is_unary: bool,
}
