ghost use Rattle.std.specs.Prelude.{◌≡◌};
ghost use Rattle.c_expr_types.specs.Faults.{first, is_before, number_of, sooner, unless};

/// What is wrong with a text whose tokens and grammar are right. Where two faults are at one place,
/// the one that is listed first is reported.
#[derive(Clone, Copy, Debug, PartialEq, Eq)]
pub enum TypeKind {
    /// A name that nothing declares.
    UnknownName,
    /// A name that is declared a second time.
    DeclaredTwice,
    /// An expression, a prototype or a `return` of another type than is due.
    WrongType,
    /// A call with more or fewer arguments than parameters.
    WrongCount,
    /// An expression that isn't a place stands where one is due.
    NotPlace,
    /// A `break` or `continue` outside a loop.
    OutsideLoop,
    /// There is no `int main(void)`.
    NoMain,
    /// A `printf` whose format doesn't fit its arguments.
    BadFormat,
    /// A `return`, `break` or `continue` that leaves a transaction.
    LeavesTransaction,
    /// A definition that is larger than a limit allows.
    OverLimit,
    /// A field that its struct doesn't have.
    UnknownField,
    /// A transformer of nothing that the text has, or with a name or operator that it can't have.
    BadTransformer,
}

/// Why a text was refused.
#[derive(Clone, Copy, Debug, PartialEq, Eq)]
pub enum TypeFault {
    /// The fault and its place, a byte counted from 0.
    Refused(TypeKind, usize),
    /// Lack of memory.
    Memory,
}

/// A fault of a text.
#[derive(Clone, Copy)]
pub struct Fault {
    pub kind: TypeKind,
    /// A byte counted from 0.
    pub place: usize,
}

impl TypeKind {
    /// The number that decides between two faults at one place.
    pub fn number(self) -> u8
        ensures { result ≡ number_of self }
    {
        match self {
            TypeKind::UnknownName => 1,
            TypeKind::DeclaredTwice => 2,
            TypeKind::WrongType => 3,
            TypeKind::WrongCount => 4,
            TypeKind::NotPlace => 5,
            TypeKind::OutsideLoop => 6,
            TypeKind::NoMain => 7,
            TypeKind::BadFormat => 8,
            TypeKind::LeavesTransaction => 9,
            TypeKind::OverLimit => 10,
            TypeKind::UnknownField => 11,
            TypeKind::BadTransformer => 12,
        }
    }
}

impl Fault {
    /// Whether it is reported rather than the other.
    pub fn is_before(self, other: Fault) -> bool
        ensures { result ≡ is_before self other }
    {
        self.place < other.place
            || (self.place == other.place && self.kind.number() < other.kind.number())
    }
}

/// The first of two faults that may be there.
pub fn sooner(a: Option<Fault>, b: Option<Fault>) -> Option<Fault>
    ensures { result ≡ sooner a b }
{
    match (a, b) {
        (Some(a), Some(b)) => Some(if b.is_before(a) { b } else { a }),
        (Some(a), None) => Some(a),
        (None, b) => b,
    }
}

/// A fault, where a test fails.
pub fn unless(holds: bool, kind: TypeKind, place: usize) -> Option<Fault>
    ensures { result ≡ first (unless holds kind place) }
{
    if holds {
        None
    } else {
        Some(Fault { kind, place })
    }
}
