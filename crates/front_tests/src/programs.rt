//! Programs: their items, their faults and their depth.
use crate::reading::{Reading, all_are_read, are_read, program_of, tokens_of};
use c_expr_parser::SyntaxFault;
use c_lexer::Token;
use std::alloc::Global;

/// How many definitions some tokens of a text of so many bytes are, and whether the program ends where the text does.
fn count_of(alloc: Global, tokens: &[Token], end: usize) -> Result<(usize, bool), SyntaxFault> {
    let program = program_of(alloc, tokens, end)?;
    let found = (program.definitions.as_slice().len(), program.end == end);
    drop(program);
    Ok(found)
}

/// The same of a text, or its fault.
pub fn count_shown(alloc: Global, text: &str) -> Option<String> {
    let tokens = tokens_of(alloc, text.as_bytes()).ok()?;
    let found = count_of(alloc, &tokens, text.len());
    drop(tokens);
    format!(in alloc; "{found:?}").ok()
}

/// Texts, and how many definitions each makes, or its fault.
static TEXTS: [&str; 2] = [
    // An item of each kind.
    "\
    \x20=> Ok((0, true))¶\
    struct T; => Ok((1, true))¶\
    struct T { int a, b; struct U *p, *q; }; => Ok((1, true))¶\
    mtx_t m; static mtx_t n; => Ok((2, true))¶\
    thrd_t t[4]; int a, b = 2, c[3] = {1, 2,}; => Ok((4, true))¶\
    struct T *p, *q; static struct T *r = NULL; => Ok((3, true))¶\
    int f(); int g(void); void h(int a, struct T *b); int k(int, thrd_t); => Ok((4, true))¶\
    static struct T *f(void) { return NULL; } => Ok((1, true))¶\
    dsu_transform struct T { a = old.b + 1; c = 2; } => Ok((1, true))¶\
    dsu_transform struct T { } => Ok((1, true))¶\
    dsu_transform g = old + 1; => Ok((1, true))¶\
    void f(void) { int a, b = 1; struct T *p = q, *r; ; { } a = b; } => Ok((1, true))¶\
    void f(void) { while (1) break; do continue; while (0); return; } => Ok((1, true))¶\
    void f(void) { for (;;) ; for (i = 0; i < 3; i++) g(i); } => Ok((1, true))¶\
    void f(void) { for (int i = 0, j = 1; ; ) { dsu_update(); } } => Ok((1, true))¶\
    void f(void) { dsu_tx { int a = 1; b = a; } dsu_tx { } } => Ok((1, true))",
    // Texts that are none, and the number of the token where that is seen.
    "\
    int main(void) { return 1 => Err(At(8))¶\
    int x = 1 => Err(At(4))¶\
    int x => Err(At(2))¶\
    int a[2] = {,}; => Err(At(7))¶\
    static struct T { int a; }; => Err(At(3))¶\
    void f(void) { else; } => Err(At(6))¶\
    int f(int, int b); => Err(At(6))¶\
    int f(int a, int); => Err(At(7))¶\
    void g; => Err(At(2))¶\
    dsu_transform x = 1 => Err(At(4))¶\
    int f(void) { dsu_tx; } => Err(At(7))¶\
    struct T { }; => Err(At(3))¶\
    int x = 1, ; => Err(At(5))¶\
    mtx_t m, n; => Err(At(2))¶\
    int f(void) { for (;) ; } => Err(At(9))¶\
    int x; } => Err(At(3))",
];

#[test]
fn texts_have_their_items_or_a_fault(rt: HostRuntime) {
    all_are_read(&rt, rt.alloc(), Reading::Count, &TEXTS);
}

/// Texts at a limit: 64 levels are read and the next is too deep, and as many tokens as a text may have: 65,536.
static LIMITS: &str = "\
    int x = `64 (`1`64 )`; => Ok((1, true))¶\
    int x = `65 (`1`65 )`; => Err(TooDeep(68))¶\
    `21842 int x;\n`int x, y; int x, y; => Ok((21846, true))";

#[test]
fn texts_are_read_up_to_the_limits(rt: HostRuntime) {
    are_read(&rt, rt.alloc(), Reading::Count, LIMITS);
}

/// An `if` without an `else`, of one that has it, in a function of 20 tokens at byte 7.
static NESTED_IF: &str = "\
    static int f(void) { if (a) if (b) x; else y; } => \
    [Def { place: 7, kind: Function(Function { result: Some(Integer(I32)), \
    name: Name { place: 11, text: Text { inner: \"f\" } }, parameters: List { inner: [] }, body: List { inner: [\
    Stmt { place: 21, node: If(Expr { place: 25, node: Variable(Text { inner: \"a\" }) }, Boxed { inner: \
    Stmt { place: 28, node: IfElse(Expr { place: 32, node: Variable(Text { inner: \"b\" }) }, Boxed { inner: \
    Stmt { place: 35, node: Evaluate(Expr { place: 35, node: Variable(Text { inner: \"x\" }) }) } }, Boxed { inner: \
    Stmt { place: 43, node: Evaluate(Expr { place: 43, node: Variable(Text { inner: \"y\" }) }) } }) } }) }] }, \
    end: 46, tokens: 20 }) }]";

#[test]
fn an_else_belongs_to_the_nearest_if(rt: HostRuntime) {
    are_read(&rt, rt.alloc(), Reading::Definitions, NESTED_IF);
}
