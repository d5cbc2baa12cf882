//! The names of kinds, operators, check-ins and stops.
use bytecode::ValueKind;
use c_ints::{BinOp, Kind, UnOp};
use local_evaluation::Stop;
use resolved_tree::Word;
use skeletons::CheckInKind;

/// The name of a kind of integer.
pub(crate) fn kind_name(kind: Kind) -> &'static str {
    match kind {
        Kind::I8 => "i8",
        Kind::U8 => "u8",
        Kind::I16 => "i16",
        Kind::U16 => "u16",
        Kind::I32 => "i32",
        Kind::U32 => "u32",
        Kind::I64 => "i64",
        Kind::U64 => "u64",
    }
}

/// That of what a word is.
pub(crate) fn word_name(kind: ValueKind) -> &'static str {
    match kind {
        ValueKind::Number(kind) => kind_name(kind),
        ValueKind::Handle => "handle",
        ValueKind::Thread => "thread",
    }
}

/// That of an operator on one integer.
pub(crate) fn unary_name(op: UnOp) -> &'static str {
    match op {
        UnOp::Plus => "plus",
        UnOp::Negate => "negate",
        UnOp::Complement => "complement",
        UnOp::Not => "not",
    }
}

/// That of an operator on two integers.
pub(crate) fn binary_name(op: BinOp) -> &'static str {
    match op {
        BinOp::Add => "add",
        BinOp::Sub => "sub",
        BinOp::Mul => "mul",
        BinOp::Div => "div",
        BinOp::Rem => "rem",
        BinOp::And => "and",
        BinOp::Or => "or",
        BinOp::Xor => "xor",
        BinOp::Shl => "shl",
        BinOp::Shr => "shr",
        BinOp::Lt => "lt",
        BinOp::Gt => "gt",
        BinOp::Le => "le",
        BinOp::Ge => "ge",
        BinOp::Eq => "eq",
        BinOp::Ne => "ne",
    }
}

/// That of a check-in.
pub(crate) fn check_in_name(kind: CheckInKind) -> &'static str {
    match kind {
        CheckInKind::Entry => "entry",
        CheckInKind::Call => "call",
        CheckInKind::Begin => "begin",
        CheckInKind::End => "end",
        CheckInKind::Update => "update",
    }
}

/// That of a stop.
pub(crate) fn stop_name(stop: Stop) -> &'static str {
    match stop {
        Stop::ReadGlobal(_) => "read_global",
        Stop::WriteGlobal(_) => "write_global",
        Stop::ReadElement(_) => "read_element",
        Stop::WriteElement(_) => "write_element",
        Stop::ReadField(_, _) => "read_field",
        Stop::WriteField(_, _) => "write_field",
        Stop::New(_) => "new",
        Stop::Free(_) => "free",
        Stop::Print(_, _) => "print",
        Stop::InitMutex(_) => "init_mutex",
        Stop::Lock(_) => "lock",
        Stop::Unlock(_) => "unlock",
        Stop::Spawn(_) => "spawn",
        Stop::Join => "join",
        Stop::Call(_, _) => "call",
        Stop::Return => "return",
        Stop::Back => "back",
        Stop::Begin => "begin",
        Stop::End => "end",
        Stop::Update => "update",
    }
}

/// What a stop is at: the name of a global, an array, a mutex or a function, or the tag of a struct.
pub(crate) fn subject(stop: Stop) -> Option<Word> {
    match stop {
        Stop::ReadGlobal(name)
        | Stop::WriteGlobal(name)
        | Stop::ReadElement(name)
        | Stop::WriteElement(name)
        | Stop::ReadField(name, _)
        | Stop::WriteField(name, _)
        | Stop::New(name)
        | Stop::Free(name)
        | Stop::InitMutex(name)
        | Stop::Lock(name)
        | Stop::Unlock(name)
        | Stop::Spawn(name)
        | Stop::Call(name, _) => Some(name),
        _ => None,
    }
}
