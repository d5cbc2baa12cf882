ghost use Rattle.std.specs.Prelude.{◌≡◌, ◌<◌, ◌≤◌, ◌++◌, ◌∷◌, [], length, List, ℕ, Some, None, true, false, if◌then◌else◌, IfOk, MatchOption, codes};
ghost use Rattle.c_tree.specs.declared.name.CType.TheVariants.{Handle, Integer};
ghost use Rattle.c_expr_parser.specs.Tables.{begins_type, is_integer_word, kind_of, longer_kind};
ghost use Rattle.c_expr_parser.specs.TypeNames.{counts};
ghost use Rattle.c_expr_parser.specs.Readings.{most_depth};
ghost use Rattle.c_expr_parser.specs.Plans.{Return, Typing, Words as MoreWords, keyword, punctuator, name_then, parsed, read, typed, reads, Finds};
ghost use Rattle.c_expr_parser.specs.WordCounts.{has, seen, spelled};

use crate::cursor::{MOST_DEPTH, is, is_kind, name, take};
use crate::stop::Stop;
use c_ints::Kind;
use c_lexer::{Token, TokenKind};
use c_tree::CType;

/// A word of an integer type.
#[derive(Clone, Copy)]
enum Word {
    Char,
    Short,
    Int,
    Long,
    Signed,
    Unsigned,
}

/// The words of an integer type, each seen at most once.
#[derive(Clone, Copy)]
struct Words {
    char: bool,
    short: bool,
    int: bool,
    long: bool,
    signed: bool,
    unsigned: bool,
}

impl Words {
    fn none() -> Words
        ensures { seen result ≡ counts [] }
    {
        Words {
            char: false,
            short: false,
            int: false,
            long: false,
            signed: false,
            unsigned: false,
        }
    }

    /// The longest type that the words begin, of this kind so far, and the tokens after it.
    fn rest_of_type(self, kind: Kind, tokens: &[Token]) -> (CType, &[Token])
        ensures reads { (words : List (List ℕ)) (depth : ℕ) → seen self ≡ counts words → kind_of words ≡ Some kind → depth ≤ most_depth
            → reads (MoreWords depth words) tokens.now ≡ read (typed result.0) result.1.now }
        ensures within { length result.1.now ≤ length tokens.now }
    {
        let mut words = self;
        let mut kind = kind;
        let mut rest = tokens;
        while let Some((token, behind)) = rest.split_first() {
            let Some(longer) = words.longer(token) else {
                break;
            };
            words = longer.0;
            kind = longer.1;
            rest = behind;
        }
        (CType::Integer(kind), rest)
    }

    /// The words with that of a token, where they mean a type, and that type's kind.
    fn longer(self, token: &Token) -> Option<(Words, Kind)>
        ensures { (words : List (List ℕ)) → seen self ≡ counts words
            → MatchOption result (longer_kind words token.now ≡ None)
            (λ x. (longer_kind words token.now ≡ Some x.1) × (seen x.0 ≡ counts (words ++ token.now.text ∷ []))) }
    {
        let words = self.with(integer_word(token)?)?;
        let kind = words.kind()?;
        Some((words, kind))
    }

    /// The words with one more, where it wasn't seen.
    fn with(self, word: Word) -> Option<Words>
        ensures { (words : List (List ℕ)) → seen self ≡ counts words
            → MatchOption result (kind_of (words ++ spelled word ∷ []) ≡ None)
            (λ more. seen more ≡ counts (words ++ spelled word ∷ [])) }
    {
        if self.has(word) {
            return None;
        }
        Some(match word {
            Word::Char => Words { char: true, ..self },
            Word::Short => Words {
                short: true,
                ..self
            },
            Word::Int => Words { int: true, ..self },
            Word::Long => Words { long: true, ..self },
            Word::Signed => Words {
                signed: true,
                ..self
            },
            Word::Unsigned => Words {
                unsigned: true,
                ..self
            },
        })
    }

    fn has(self, word: Word) -> bool
        ensures { result ≡ has word self }
    {
        match word {
            Word::Char => self.char,
            Word::Short => self.short,
            Word::Int => self.int,
            Word::Long => self.long,
            Word::Signed => self.signed,
            Word::Unsigned => self.unsigned,
        }
    }

    /// The type that the words mean in any order (C11 6.7.2 paragraph 2).
    fn kind(self) -> Option<Kind>
        ensures { (words : List (List ℕ)) → seen self ≡ counts words → result ≡ kind_of words }
    {
        if self.signed && self.unsigned {
            None
        } else if self.char {
            if self.short || self.int || self.long {
                None
            } else {
                Some(self.by_sign(Kind::I8, Kind::U8))
            }
        } else if self.short {
            if self.long {
                None
            } else {
                Some(self.by_sign(Kind::I16, Kind::U16))
            }
        } else if self.long {
            Some(self.by_sign(Kind::I64, Kind::U64))
        } else if self.int || self.signed || self.unsigned {
            Some(self.by_sign(Kind::I32, Kind::U32))
        } else {
            None
        }
    }

    fn by_sign(self, signed: Kind, unsigned: Kind) -> Kind
        ensures { result ≡ (if self.unsigned then unsigned else signed) }
    {
        if self.unsigned { unsigned } else { signed }
    }
}

/// Whether a type begins with the token.
pub fn begins_type(token: &Token) -> bool
    ensures { result ≡ begins_type token.now }
{
    integer_word(token).is_some()
        || is(token, TokenKind::Keyword, "struct")
        || is(token, TokenKind::LibraryWord, "thrd_t")
}

/// A type (C11 6.7.2).
pub fn type_name(tokens: &[Token], depth: u32) -> Result<(CType, &[Token]), Stop>
    ensures reads { Finds (reads (Typing depth) tokens.now) (λ x. read (typed x.0) x.1.now) result }
    ensures within { IfOk result (λ x. (depth ≤ most_depth) × (length x.1.now < length tokens.now)) }
{
    let Some((token, rest)) = tokens.split_first() else {
        return Err(Stop::Stuck(0));
    };
    if let Some((words, kind)) = Words::none().longer(token) {
        if depth > MOST_DEPTH {
            return Err(Stop::Deep(tokens.len()));
        }
        return Ok(words.rest_of_type(kind, rest));
    }
    if is(token, TokenKind::Keyword, "struct") {
        return handle(tokens, depth);
    }
    let rest = take(tokens, TokenKind::LibraryWord, "thrd_t", depth)?;
    Ok((CType::Thread, rest))
}

/// A handle's type: `struct`, a tag and `*`.
fn handle(tokens: &[Token], depth: u32) -> Result<(CType, &[Token]), Stop>
    ensures reads { Finds (parsed (keyword (codes "struct") depth (name_then depth (λ tag. punctuator (codes "*") depth (Return (typed (Handle tag)))))) tokens.now) (λ x. read (typed x.0) x.1.now) result }
    ensures within { IfOk result (λ x. (depth ≤ most_depth) × (length x.1.now < length tokens.now)) }
{
    let rest = take(tokens, TokenKind::Keyword, "struct", depth)?;
    let (tag, rest) = name(rest, depth)?;
    let rest = take(rest, TokenKind::Punctuator, "*", depth)?;
    Ok((CType::Handle(tag), rest))
}

fn integer_word(token: &Token) -> Option<Word>
    ensures { MatchOption result (is_integer_word token.now ≡ false)
        (λ word. (is_integer_word token.now ≡ true) × (token.now.text ≡ spelled word)) }
{
    if !is_kind(token, TokenKind::Keyword) {
        return None;
    }
    match token.text.as_str() {
        "char" => Some(Word::Char),
        "short" => Some(Word::Short),
        "int" => Some(Word::Int),
        "long" => Some(Word::Long),
        "signed" => Some(Word::Signed),
        "unsigned" => Some(Word::Unsigned),
        _ => None,
    }
}
