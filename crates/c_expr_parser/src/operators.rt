ghost use Rattle.std.specs.Prelude.{◌≡◌};
ghost use Rattle.c_expr_parser.specs.Tables.{look, binary_operators, binary_operator, compound_operators, compound_operator, prefix_of};
ghost use Rattle.c_expr_parser.specs.Plans.{assignment_operator};

use crate::cursor::{is, is_kind};
use c_ints::{BinOp, UnOp};
use c_lexer::{Token, TokenKind};

/// What joins two operands (C11 6.5.5 to 6.5.14).
#[derive(Clone, Copy)]
pub enum Joint {
    /// An operator on two values.
    Operation(BinOp),
    /// `&&`
    Both,
    /// `||`
    Either,
}

/// An assignment's operator (6.5.16): `=` without an operation, and the others with theirs.
pub fn assignment_operator(token: &Token) -> Option<Option<BinOp>>
    ensures { result ≡ assignment_operator token.now }
{
    if is(token, TokenKind::Punctuator, "=") {
        return Some(None);
    }
    match compound_operator(token) {
        Some(op) => Some(Some(op)),
        None => None,
    }
}

fn compound_operator(token: &Token) -> Option<BinOp>
    ensures { result ≡ compound_operator token.now }
{
    if !is_kind(token, TokenKind::Punctuator) {
        return None;
    }
    spelled_compound(token.text.as_str())
}

fn spelled_compound(text: &str) -> Option<BinOp>
    ensures { result ≡ look text.now compound_operators }
{
    match text {
        "+=" => Some(BinOp::Add),
        "-=" => Some(BinOp::Sub),
        "*=" => Some(BinOp::Mul),
        "/=" => Some(BinOp::Div),
        "%=" => Some(BinOp::Rem),
        "&=" => Some(BinOp::And),
        "|=" => Some(BinOp::Or),
        "^=" => Some(BinOp::Xor),
        "<<=" => Some(BinOp::Shl),
        ">>=" => Some(BinOp::Shr),
        _ => None,
    }
}

/// What joins two operands at a level, from 1, the tightest, to 10.
pub fn binary_operator(token: &Token, level: u32) -> Option<Joint>
    ensures { result ≡ binary_operator level token.now }
{
    if !is_kind(token, TokenKind::Punctuator) {
        return None;
    }
    match spelled_binary(token.text.as_str()) {
        Some((at, joint)) if at == level => Some(joint),
        _ => None,
    }
}

/// The level of a binary operator, and what it joins by.
fn spelled_binary(text: &str) -> Option<(u32, Joint)>
    ensures { result ≡ look text.now binary_operators }
{
    match text {
        "*" => Some((1, Joint::Operation(BinOp::Mul))),
        "/" => Some((1, Joint::Operation(BinOp::Div))),
        "%" => Some((1, Joint::Operation(BinOp::Rem))),
        "+" => Some((2, Joint::Operation(BinOp::Add))),
        "-" => Some((2, Joint::Operation(BinOp::Sub))),
        "<<" => Some((3, Joint::Operation(BinOp::Shl))),
        ">>" => Some((3, Joint::Operation(BinOp::Shr))),
        "<" => Some((4, Joint::Operation(BinOp::Lt))),
        ">" => Some((4, Joint::Operation(BinOp::Gt))),
        "<=" => Some((4, Joint::Operation(BinOp::Le))),
        ">=" => Some((4, Joint::Operation(BinOp::Ge))),
        "==" => Some((5, Joint::Operation(BinOp::Eq))),
        "!=" => Some((5, Joint::Operation(BinOp::Ne))),
        "&" => Some((6, Joint::Operation(BinOp::And))),
        "^" => Some((7, Joint::Operation(BinOp::Xor))),
        "|" => Some((8, Joint::Operation(BinOp::Or))),
        "&&" => Some((9, Joint::Both)),
        "||" => Some((10, Joint::Either)),
        _ => None,
    }
}

/// What begins an operand with a punctuator (6.5.1, 6.5.3).
#[derive(Clone, Copy)]
pub enum Prefix {
    /// `(`, of a cast or of parentheses
    Open,
    /// `++`
    Increment,
    /// `--`
    Decrement,
    Operator(UnOp),
}

/// What begins an operand with a punctuator of this spelling.
pub fn prefix_of(text: &str) -> Option<Prefix>
    ensures { result ≡ prefix_of text.now }
{
    match text {
        "(" => Some(Prefix::Open),
        "++" => Some(Prefix::Increment),
        "--" => Some(Prefix::Decrement),
        "+" => Some(Prefix::Operator(UnOp::Plus)),
        "-" => Some(Prefix::Operator(UnOp::Negate)),
        "~" => Some(Prefix::Operator(UnOp::Complement)),
        "!" => Some(Prefix::Operator(UnOp::Not)),
        _ => None,
    }
}
