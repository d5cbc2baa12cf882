use c_types::TypeKind;

/// What is wrong with a text.
#[derive(Clone, Copy, Debug, PartialEq, Eq)]
pub enum FaultKind {
    /// No blank, comment or token begins here (6.4).
    BadByte,
    /// A constant or a string is malformed or has no value (6.4.4, 6.4.5).
    BadLiteral,
    /// A line that begins with `#` includes none of the known headers.
    Directive,
    /// The text has more tokens than it may have. This is the first byte of the first that is one too many.
    TooMany,
    /// A token doesn't follow those before it, or the text ends too early (6.5 to 6.9).
    Syntax,
    /// A token nests too deep.
    TooDeep,
    /// A rule of types is broken.
    Kind(TypeKind),
}

/// Why a text isn't accepted.
#[derive(Clone, Copy, Debug, PartialEq, Eq)]
pub enum TextFault {
    /// The first fault of the text, and the byte at which it stands, counted from 0. What is missing at the end of the
    /// text is at the text's length.
    Refused(FaultKind, usize),
    /// Lack of memory.
    Memory,
}
