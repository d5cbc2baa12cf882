//! The faults and their words.
ghost use Rattle.std.specs.Prelude.{◌≡◌};
ghost use Rattle.dsu_report.specs.Faults.{kind_word, place_word, line_word};

use c_front::FaultKind;
use c_types::TypeKind;

/// What is wrong in a line of a journal.
#[derive(Clone, Copy, Debug, PartialEq, Eq)]
pub enum LineWord {
    /// The first line isn't that of a journal.
    Header,
    /// The line tells no event.
    NoEvent,
    /// The event can't happen where the line has it.
    CannotHappen,
}

/// Why a command came to nothing, as standard error tells it.
#[derive(Clone, Copy, Debug, PartialEq, Eq)]
pub enum FaultLine {
    /// The words name no command: the usage text.
    Usage,
    /// A text has a fault at a line and a column, both counted from 1.
    Place(u32, u32, FaultKind),
    /// The file couldn't be read.
    Unread,
    /// The file is longer than it may be.
    TooLong,
    /// A journal has a fault in a line, counted from 1.
    Line(u32, LineWord),
    /// Standard output couldn't be written.
    Write,
    /// Lack of memory.
    Memory,
}

/// Why a text that a command prints wasn't written whole.
#[derive(Clone, Copy, Debug, PartialEq, Eq)]
pub enum ReportFault {
    /// The sink failed.
    Failed,
    /// Out of memory.
    Memory,
}

/// The words of a fault of the types.
fn words_for_kind(kind: TypeKind) -> &'static str
    ensures { result.now ≡ kind_word kind }
{
    match kind {
        TypeKind::UnknownName => "unknown name",
        TypeKind::DeclaredTwice => "declared twice",
        TypeKind::WrongType => "wrong type",
        TypeKind::WrongCount => "wrong number of arguments",
        TypeKind::NotPlace => "not a place",
        TypeKind::OutsideLoop => "outside a loop",
        TypeKind::NoMain => "no main",
        TypeKind::BadFormat => "bad printf format",
        TypeKind::LeavesTransaction => "leaves a transaction",
        TypeKind::OverLimit => "over a limit",
        TypeKind::UnknownField => "unknown field",
        TypeKind::BadTransformer => "bad transformer",
    }
}

/// The words of what is wrong at a place.
pub(crate) fn words_at_place(word: FaultKind) -> &'static str
    ensures { result.now ≡ place_word word }
{
    match word {
        FaultKind::BadByte => "bad byte",
        FaultKind::BadLiteral => "bad literal",
        FaultKind::Directive => "directive",
        FaultKind::TooMany => "too many tokens",
        FaultKind::Syntax => "syntax",
        FaultKind::TooDeep => "nested too deep",
        FaultKind::Kind(kind) => words_for_kind(kind),
    }
}

/// The words of what is wrong in a line.
pub(crate) fn words_in_line(word: LineWord) -> &'static str
    ensures { result.now ≡ line_word word }
{
    match word {
        LineWord::Header => "header",
        LineWord::NoEvent => "no event",
        LineWord::CannotHappen => "cannot happen",
    }
}
