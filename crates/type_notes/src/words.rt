//! Types and operators as texts write them.
use crate::draft::Draft;
use c_ints::{BinOp, Kind, UnOp};
use c_tree::{CType, StepOp};

/// The words of an integer type.
pub fn integer_words(kind: Kind) -> &'static str {
    match kind {
        Kind::I8 => "char",
        Kind::U8 => "unsigned char",
        Kind::I16 => "short",
        Kind::U16 => "unsigned short",
        Kind::I32 => "int",
        Kind::U32 => "unsigned int",
        Kind::I64 => "long",
        Kind::U64 => "unsigned long",
    }
}

/// Says a type.
pub(crate) fn say_type(draft: &mut Draft, declared: &CType) {
    match declared {
        CType::Integer(kind) => draft.say(integer_words(*kind)),
        CType::Handle(tag) => {
            draft.say("struct ");
            draft.name(tag.text.as_str());
            draft.say(" *");
        }
        CType::Thread => draft.say("thrd_t"),
    }
}

/// Says the type of a function's result.
pub(crate) fn say_result(draft: &mut Draft, declared: &Option<CType>) {
    match declared {
        Some(declared) => say_type(draft, declared),
        None => draft.say("void"),
    }
}

/// A binary operator.
pub(crate) fn binary_word(op: BinOp) -> &'static str {
    match op {
        BinOp::Add => "+",
        BinOp::Sub => "-",
        BinOp::Mul => "*",
        BinOp::Div => "/",
        BinOp::Rem => "%",
        BinOp::And => "&",
        BinOp::Or => "|",
        BinOp::Xor => "^",
        BinOp::Shl => "<<",
        BinOp::Shr => ">>",
        BinOp::Lt => "<",
        BinOp::Gt => ">",
        BinOp::Le => "<=",
        BinOp::Ge => ">=",
        BinOp::Eq => "==",
        BinOp::Ne => "!=",
    }
}

/// A unary operator.
pub(crate) fn unary_word(op: UnOp) -> &'static str {
    match op {
        UnOp::Plus => "+",
        UnOp::Negate => "-",
        UnOp::Complement => "~",
        UnOp::Not => "!",
    }
}

/// `++` or `--`.
pub(crate) fn step_word(op: StepOp) -> &'static str {
    match op {
        StepOp::PreIncrement | StepOp::PostIncrement => "++",
        StepOp::PreDecrement | StepOp::PostDecrement => "--",
    }
}
