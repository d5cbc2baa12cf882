ghost use Rattle.std.specs.Prelude.{◌≡◌};
ghost use Rattle.c_parser.specs.Parts.{word_of, opening_of};

use c_lexer::{Token, TokenKind};

/// The keywords that begin statements.
#[derive(Clone, Copy)]
pub enum StatementWord {
    If,
    While,
    Do,
    For,
    Break,
    Continue,
    Return,
}

/// What begins a statement other than an expression's.
#[derive(Clone, Copy)]
pub enum Opening {
    Begun(StatementWord),
    /// `dsu_update`
    Update,
    /// `dsu_tx`
    Transaction,
    /// `{`
    Brace,
    /// `;`
    Semicolon,
}

/// The keyword that begins a statement and has a spelling.
fn word_of(spelling: &str) -> Option<StatementWord>
    ensures { result ≡ word_of spelling.now }
{
    match spelling {
        "if" => Some(StatementWord::If),
        "while" => Some(StatementWord::While),
        "do" => Some(StatementWord::Do),
        "for" => Some(StatementWord::For),
        "break" => Some(StatementWord::Break),
        "continue" => Some(StatementWord::Continue),
        "return" => Some(StatementWord::Return),
        _ => None,
    }
}

/// What a token begins, if it begins a statement other than an expression's.
pub fn opening_of(token: &Token) -> Option<Opening>
    ensures { result ≡ opening_of token.now }
{
    let spelling = token.text.as_str();
    match token.kind {
        TokenKind::Keyword => Some(Opening::Begun(word_of(spelling)?)),
        TokenKind::LibraryWord => match spelling {
            "dsu_update" => Some(Opening::Update),
            "dsu_tx" => Some(Opening::Transaction),
            _ => None,
        },
        TokenKind::Punctuator => match spelling {
            "{" => Some(Opening::Brace),
            ";" => Some(Opening::Semicolon),
            _ => None,
        },
        TokenKind::Identifier | TokenKind::Number | TokenKind::Character | TokenKind::Str => None,
    }
}
