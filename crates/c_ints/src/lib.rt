//! The integers of C: eight kinds from 8 to 64 bits, their conversions, their operators and their constants.
//!
//! An `Int` is always a number of its kind, by its type. Each call meets a formula on whole numbers
//! that follows C11 and is in specs/: it says which value an operator, a conversion or a
//! constant has, or which trap or fault, and nothing else can come. No call takes memory or waits;
//! each takes constant time, but for `literal`, which is linear in its text.
//!
//! Read `kind` and `int`, then `operator`, `conversion`, `exact`, `arithmetic`, `wrapping` and
//! `constant`.
#![tactic(auto)]

mod arithmetic;
mod constant;
mod conversion;
mod exact;
mod int;
mod kind;
mod operator;
mod wrapping;

pub use arithmetic::{binary, unary};
pub use constant::{LiteralFault, Radix, Suffix, literal};
pub use conversion::{binary_kind, common, convert, promote, unary_kind};
pub use int::Int;
pub use kind::Kind;
pub use operator::{ArithTrap, BinOp, SafeOp, UnOp};
pub use wrapping::{binary_wrap, unary_wrap};
