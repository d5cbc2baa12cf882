ghost use Rattle.std.specs.Prelude.{◌≡◌};
ghost use Rattle.c_lexer.specs.declared.token.TokenKind.TheVariants.{Identifier};
ghost use Rattle.c_expr_parser.specs.Tables.{is, is_kind, begins_type, holds_ahead};

use c_expr_parser::parts::{begins_type, is, is_kind};
use c_lexer::{Token, TokenKind};

/// Whether the first token has a kind and a spelling.
pub fn is_ahead(tokens: &[Token], kind: TokenKind, spelling: &str) -> bool
    ensures { result ≡ holds_ahead (is kind spelling.now) tokens.now }
{
    match tokens.split_first() {
        Some((first, _)) => is(first, kind, spelling),
        None => false,
    }
}

/// Whether a type begins with the first token.
pub fn type_ahead(tokens: &[Token]) -> bool
    ensures { result ≡ holds_ahead begins_type tokens.now }
{
    match tokens.split_first() {
        Some((first, _)) => begins_type(first),
        None => false,
    }
}

/// Whether the first token is an identifier.
pub fn name_ahead(tokens: &[Token]) -> bool
    ensures { result ≡ holds_ahead (is_kind Identifier) tokens.now }
{
    match tokens.split_first() {
        Some((first, _)) => is_kind(first, TokenKind::Identifier),
        None => false,
    }
}
