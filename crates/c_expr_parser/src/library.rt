ghost use Rattle.std.specs.Prelude.{◌≡◌, ◌∷◌, ◌<◌, ◌≤◌, ◌+◌, length, IfOk, List, Bool};
ghost use Rattle.c_lexer.specs.declared.token.Token.{Token};
ghost use Rattle.c_expr_parser.specs.Tables.{library_name};
ghost use Rattle.c_expr_parser.specs.Readings.{most_depth};
ghost use Rattle.c_expr_parser.specs.Plans.{Target, target_value, create_place, create_function, named, size_of_struct, mutex_argument, word_call, wanted, print_call, calloc_call, free_call, create_call, join_call, init_call, mutex_call, operand as operand_value, read, parsed, reads, Finds};

use crate::climb::assignment;
use crate::cursor::{name, one, shallow, skip, take};
use crate::nodes::join_thread;
use crate::operand::Operand;
use crate::postfix::{postfix, primary};
use crate::quoted::strings;
use crate::stop::Stop;
use crate::unary::{further, operand};
use c_lexer::{Token, TokenKind};
use c_tree::{ExprNode, Name};
use std::alloc::Global;

/// The names of the library that begin an operand.
#[derive(Clone, Copy)]
pub enum LibraryName {
    Null,
    Success,
    Error,
    Printf,
    Calloc,
    Free,
    Create,
    Join,
    Init,
    Lock,
    Unlock,
}

/// The name of the library that a spelling is, if it begins an operand.
fn word_of(spelling: &str) -> Option<LibraryName>
    ensures { result ≡ library_name spelling.now }
{
    match spelling {
        "NULL" => Some(LibraryName::Null),
        "thrd_success" => Some(LibraryName::Success),
        "thrd_error" => Some(LibraryName::Error),
        "printf" => Some(LibraryName::Printf),
        "calloc" => Some(LibraryName::Calloc),
        "free" => Some(LibraryName::Free),
        "thrd_create" => Some(LibraryName::Create),
        "thrd_join" => Some(LibraryName::Join),
        "mtx_init" => Some(LibraryName::Init),
        "mtx_lock" => Some(LibraryName::Lock),
        "mtx_unlock" => Some(LibraryName::Unlock),
        _ => None,
    }
}

/// An operand that begins with a name of the library.
#[cycle(expression)]
pub fn library<'a>(
    alloc: Global,
    tokens: &'a [Token],
    depth: u32,
) -> Result<(Operand, &'a [Token]), Stop>
    requires { depth ≤ most_depth + 1 }
    ensures reads { (casts : Bool) → (t : Token) → (ts : List Token) → tokens.now ≡ t ∷ ts → t.kind ≡ TokenKind.LibraryWord → Finds (reads (wanted casts depth) tokens.now) (λ x. read (operand_value x.0) x.1.now) result }
    ensures within { IfOk result (λ x. length x.1.now < length tokens.now) }
{
    let Some((first, rest)) = tokens.split_first() else {
        return Err(Stop::Stuck(0));
    };
    let Some(word) = word_of(first.text.as_str()) else {
        return Err(Stop::Stuck(tokens.len()));
    };
    shallow(tokens, depth)?;
    library_call(alloc, word, first.at, rest, depth)
}

/// What follows a name of the library that begins an operand at a place.
#[cycle(expression)]
fn library_call<'a>(
    alloc: Global,
    word: LibraryName,
    start: usize,
    tokens: &'a [Token],
    depth: u32,
) -> Result<(Operand, &'a [Token]), Stop>
    requires { depth ≤ most_depth }
    ensures reads { Finds (parsed (word_call word depth start) tokens.now) (λ x. read (operand_value x.0) x.1.now) result }
    ensures within { IfOk result (λ x. length x.1.now ≤ length tokens.now) }
{
    match word {
        LibraryName::Null => primary(alloc, start, ExprNode::Null, tokens, depth),
        LibraryName::Success => primary(alloc, start, ExprNode::Success, tokens, depth),
        LibraryName::Error => primary(alloc, start, ExprNode::Error, tokens, depth),
        LibraryName::Printf => print_call(alloc, start, tokens, depth),
        LibraryName::Calloc => calloc_call(alloc, start, tokens, depth),
        LibraryName::Free => free_call(alloc, start, tokens, depth),
        LibraryName::Create => create_call(alloc, start, tokens, depth),
        LibraryName::Join => join_call(alloc, start, tokens, depth),
        LibraryName::Init => init_call(alloc, start, tokens, depth),
        LibraryName::Lock => {
            let (mutex, rest) = mutex_argument(tokens, depth)?;
            primary(alloc, start, ExprNode::Lock(mutex), rest, depth)
        }
        LibraryName::Unlock => {
            let (mutex, rest) = mutex_argument(tokens, depth)?;
            primary(alloc, start, ExprNode::Unlock(mutex), rest, depth)
        }
    }
}

/// `("..", a, b)` after `printf`.
#[cycle(expression)]
fn print_call<'a>(
    alloc: Global,
    start: usize,
    tokens: &'a [Token],
    depth: u32,
) -> Result<(Operand, &'a [Token]), Stop>
    requires { depth ≤ most_depth }
    ensures reads { Finds (parsed (print_call depth start) tokens.now) (λ x. read (operand_value x.0) x.1.now) result }
    ensures within { IfOk result (λ x. length x.1.now ≤ length tokens.now) }
{
    let rest = take(tokens, TokenKind::Punctuator, "(", depth)?;
    let (format, rest) = strings(alloc, rest, depth + 1)?;
    let (arguments, rest) = further(alloc, Vec::new(alloc), rest, depth + 1)?;
    let rest = take(rest, TokenKind::Punctuator, ")", depth)?;
    let node = ExprNode::Print {
        place: format.place,
        format: format.text,
        arguments,
    };
    primary(alloc, start, node, rest, depth)
}

/// `(1, sizeof(struct T))` after `calloc`.
fn calloc_call<'a>(
    alloc: Global,
    start: usize,
    tokens: &'a [Token],
    depth: u32,
) -> Result<(Operand, &'a [Token]), Stop>
    requires { depth ≤ most_depth }
    ensures reads { Finds (parsed (calloc_call depth start) tokens.now) (λ x. read (operand_value x.0) x.1.now) result }
    ensures within { IfOk result (λ x. length x.1.now ≤ length tokens.now) }
{
    let rest = take(tokens, TokenKind::Punctuator, "(", depth)?;
    let rest = one(rest, depth + 1)?;
    let rest = take(rest, TokenKind::Punctuator, ",", depth + 1)?;
    let (tag, rest) = size_of_struct(rest, depth + 1)?;
    let rest = take(rest, TokenKind::Punctuator, ")", depth)?;
    primary(alloc, start, ExprNode::Calloc(tag), rest, depth)
}

/// `sizeof(struct T)`, with the tag.
fn size_of_struct(tokens: &[Token], depth: u32) -> Result<(Name, &[Token]), Stop>
    requires { depth ≤ most_depth + 1 }
    ensures reads { Finds (parsed (size_of_struct depth) tokens.now) (λ x. read (named x.0) x.1.now) result }
    ensures within { IfOk result (λ x. length x.1.now ≤ length tokens.now) }
{
    let rest = take(tokens, TokenKind::Keyword, "sizeof", depth)?;
    let rest = take(rest, TokenKind::Punctuator, "(", depth)?;
    let rest = take(rest, TokenKind::Keyword, "struct", depth + 1)?;
    let (tag, rest) = name(rest, depth + 1)?;
    let rest = take(rest, TokenKind::Punctuator, ")", depth)?;
    Ok((tag, rest))
}

/// `(p)` after `free`.
#[cycle(expression)]
fn free_call<'a>(
    alloc: Global,
    start: usize,
    tokens: &'a [Token],
    depth: u32,
) -> Result<(Operand, &'a [Token]), Stop>
    requires { depth ≤ most_depth }
    ensures reads { Finds (parsed (free_call depth start) tokens.now) (λ x. read (operand_value x.0) x.1.now) result }
    ensures within { IfOk result (λ x. length x.1.now ≤ length tokens.now) }
{
    let rest = take(tokens, TokenKind::Punctuator, "(", depth)?;
    let (handle, rest) = assignment(alloc, rest, depth + 1)?;
    let rest = take(rest, TokenKind::Punctuator, ")", depth)?;
    primary(alloc, start, ExprNode::Free(handle.expr), rest, depth)
}

/// `(&t, f, a)` after `thrd_create`.
#[cycle(expression)]
fn create_call<'a>(
    alloc: Global,
    start: usize,
    tokens: &'a [Token],
    depth: u32,
) -> Result<(Operand, &'a [Token]), Stop>
    requires { depth ≤ most_depth }
    ensures reads { Finds (parsed (create_call depth start) tokens.now) (λ x. read (operand_value x.0) x.1.now) result }
    ensures within { IfOk result (λ x. length x.1.now ≤ length tokens.now) }
{
    let (place, rest) = create_place(alloc, tokens, depth)?;
    let (function, rest) = create_function(rest, depth + 1)?;
    let (argument, rest) = assignment(alloc, rest, depth + 1)?;
    let rest = take(rest, TokenKind::Punctuator, ")", depth)?;
    let node = ExprNode::Create(place.expr, function, argument.expr);
    primary(alloc, start, node, rest, depth)
}

/// `(&t,` after `thrd_create`, with the place.
#[cycle(expression)]
fn create_place<'a>(
    alloc: Global,
    tokens: &'a [Token],
    depth: u32,
) -> Result<(Operand, &'a [Token]), Stop>
    requires { depth ≤ most_depth }
    ensures reads { Finds (parsed (create_place depth) tokens.now) (λ x. read (operand_value x.0) x.1.now) result }
    ensures within { IfOk result (λ x. length x.1.now < length tokens.now) }
{
    let rest = take(tokens, TokenKind::Punctuator, "(", depth)?;
    let rest = take(rest, TokenKind::Punctuator, "&", depth + 1)?;
    let (place, rest) = operand(alloc, rest, depth + 1, false)?;
    let rest = take(rest, TokenKind::Punctuator, ",", depth + 1)?;
    Ok((place, rest))
}

/// `f,`, with the function.
fn create_function(tokens: &[Token], depth: u32) -> Result<(Name, &[Token]), Stop>
    ensures reads { Finds (parsed (create_function depth) tokens.now) (λ x. read (named x.0) x.1.now) result }
    ensures within { IfOk result (λ x. length x.1.now ≤ length tokens.now) }
{
    let (function, rest) = name(tokens, depth)?;
    let rest = take(rest, TokenKind::Punctuator, ",", depth)?;
    Ok((function, rest))
}

/// `(t, NULL)` or `(t, &x)` after `thrd_join`.
#[cycle(expression)]
fn join_call<'a>(
    alloc: Global,
    start: usize,
    tokens: &'a [Token],
    depth: u32,
) -> Result<(Operand, &'a [Token]), Stop>
    requires { depth ≤ most_depth }
    ensures reads { Finds (parsed (join_call depth start) tokens.now) (λ x. read (operand_value x.0) x.1.now) result }
    ensures within { IfOk result (λ x. length x.1.now ≤ length tokens.now) }
{
    let rest = take(tokens, TokenKind::Punctuator, "(", depth)?;
    let (thread, rest) = assignment(alloc, rest, depth + 1)?;
    let rest = take(rest, TokenKind::Punctuator, ",", depth + 1)?;
    let (target, rest) = join_target(alloc, rest, depth + 1)?;
    let rest = take(rest, TokenKind::Punctuator, ")", depth)?;
    let joined = join_thread(alloc, start, thread, target)?;
    postfix(alloc, joined, rest, depth)
}

/// The place to which a thread's result goes, or none for `NULL`.
#[cycle(expression)]
fn join_target<'a>(
    alloc: Global,
    tokens: &'a [Token],
    depth: u32,
) -> Result<(Option<Operand>, &'a [Token]), Stop>
    requires { depth ≤ most_depth + 1 }
    ensures reads { Finds (reads (Target depth) tokens.now) (λ x. read (target_value x.0) x.1.now) result }
    ensures within { IfOk result (λ x. length x.1.now ≤ length tokens.now) }
{
    if let Some(rest) = skip(tokens, TokenKind::LibraryWord, "NULL") {
        shallow(tokens, depth)?;
        return Ok((None, rest));
    }
    let rest = take(tokens, TokenKind::Punctuator, "&", depth)?;
    let (place, rest) = operand(alloc, rest, depth, false)?;
    Ok((Some(place), rest))
}

/// `(&m, mtx_plain)` after `mtx_init`.
fn init_call<'a>(
    alloc: Global,
    start: usize,
    tokens: &'a [Token],
    depth: u32,
) -> Result<(Operand, &'a [Token]), Stop>
    requires { depth ≤ most_depth }
    ensures reads { Finds (parsed (init_call depth start) tokens.now) (λ x. read (operand_value x.0) x.1.now) result }
    ensures within { IfOk result (λ x. length x.1.now ≤ length tokens.now) }
{
    let rest = take(tokens, TokenKind::Punctuator, "(", depth)?;
    let rest = take(rest, TokenKind::Punctuator, "&", depth + 1)?;
    let (mutex, rest) = name(rest, depth + 1)?;
    let rest = take(rest, TokenKind::Punctuator, ",", depth + 1)?;
    let rest = take(rest, TokenKind::LibraryWord, "mtx_plain", depth + 1)?;
    let rest = take(rest, TokenKind::Punctuator, ")", depth)?;
    primary(alloc, start, ExprNode::InitMutex(mutex), rest, depth)
}

/// `(&m)` after `mtx_lock` and `mtx_unlock`, with the mutex's name.
fn mutex_argument(tokens: &[Token], depth: u32) -> Result<(Name, &[Token]), Stop>
    requires { depth ≤ most_depth }
    ensures reads { Finds (parsed (mutex_argument depth) tokens.now) (λ x. read (named x.0) x.1.now) result }
    ensures within { IfOk result (λ x. length x.1.now ≤ length tokens.now) }
{
    let rest = take(tokens, TokenKind::Punctuator, "(", depth)?;
    let rest = take(rest, TokenKind::Punctuator, "&", depth + 1)?;
    let (mutex, rest) = name(rest, depth + 1)?;
    let rest = take(rest, TokenKind::Punctuator, ")", depth)?;
    Ok((mutex, rest))
}
