//! Expressions: their trees, their faults and their depth.
use crate::reading::{Reading, all_are_read, are_read, program_in, tokens_of};
use c_expr_parser::{SyntaxFault, expression};
use c_lexer::Token;
use c_tree::{Def, DefKind, Expr, same_expr};
use dsu_io::Boxed;
use std::alloc::{AllocError, Global};
use std::process::Abort;

/// What some tokens are read as at a depth: the tree, in a box, which is cheaper to own, and the number of the token after it.
fn expression_of(
    alloc: Global,
    tokens: &[Token],
    depth: u32,
) -> Result<(Boxed<Expr>, usize), SyntaxFault> {
    let depth = if depth > 64 { 64 } else { depth };
    let (tree, to) = expression(alloc, tokens, 0, depth)?;
    Ok((Boxed::of(alloc, tree)?, to))
}

/// How many tokens the expression has that some tokens begin with, and its tree; or the fault.
fn tokens_shown(alloc: Global, tokens: &[Token], depth: u32) -> Option<String> {
    match expression_of(alloc, tokens, depth) {
        Ok((boxed, to)) => {
            let tree = boxed.get();
            let shown = format!(in alloc; "{to} {tree:?}.").ok();
            drop(boxed);
            shown
        }
        Err(fault) => format!(in alloc; "{fault:?}").ok(),
    }
}

/// The same of a text.
pub fn shown(alloc: Global, text: &str, depth: u32) -> Option<String> {
    let tokens = tokens_of(alloc, text.as_bytes()).ok()?;
    let shown = tokens_shown(alloc, &tokens, depth);
    drop(tokens);
    shown
}

/// Whether two transformers of globals have the same expression.
fn are_same(definitions: &[Def]) -> Option<bool> {
    match definitions {
        [a, b] => match (&a.kind, &b.kind) {
            (DefKind::TransformGlobal(_, a), DefKind::TransformGlobal(_, b)) => {
                Some(same_expr(a, b))
            }
            _ => None,
        },
        _ => None,
    }
}

/// Whether two expressions are the same. They are read within transformers, since a program is cheaper to own than a tree.
pub fn pair_shown(alloc: Global, text: &str) -> Option<String> {
    let (a, b) = text.split_once(" <=> ")?;
    let both = format!(in alloc; "dsu_transform g = ({a}); dsu_transform g = ({b});").ok()?;
    let program = program_in(alloc, &both)?;
    let are_same = are_same(program.definitions.as_slice());
    drop(program);
    let are_same = are_same?;
    format!(in alloc; "{are_same}").ok()
}

/// Texts by kind, and what is read of each, up to the form of the expression's node or, with a full stop, to its end.
static NODES: [&str; 6] = [
    // One operand (6.5.2, 6.5.3).
    "+a => 2 Expr { place: 0, node: Unary(Plus,¶\
     -a => 2 Expr { place: 0, node: Unary(Negate,¶\
     ~a => 2 Expr { place: 0, node: Unary(Complement,¶\
     !a => 2 Expr { place: 0, node: Unary(Not,¶\
     ++a => 2 Expr { place: 0, node: Step(PreIncrement,¶\
     --a => 2 Expr { place: 0, node: Step(PreDecrement,¶\
     x a => 1 Expr { place: 0, node: Variable(Text { inner: \"x\" })¶\
     a++ => 2 Expr { place: 0, node: Step(PostIncrement,¶\
     a-- => 2 Expr { place: 0, node: Step(PostDecrement,",
    // Assignments (6.5.16).
    "a = b => 3 Expr { place: 0, node: Assign(¶\
     a += b => 3 Expr { place: 0, node: Update(Add,¶\
     a -= b => 3 Expr { place: 0, node: Update(Sub,¶\
     a *= b => 3 Expr { place: 0, node: Update(Mul,¶\
     a /= b => 3 Expr { place: 0, node: Update(Div,¶\
     a %= b => 3 Expr { place: 0, node: Update(Rem,¶\
     a &= b => 3 Expr { place: 0, node: Update(And,¶\
     a |= b => 3 Expr { place: 0, node: Update(Or,¶\
     a ^= b => 3 Expr { place: 0, node: Update(Xor,¶\
     a <<= b => 3 Expr { place: 0, node: Update(Shl,¶\
     a >>= b => 3 Expr { place: 0, node: Update(Shr,",
    // Two operands (6.5.5 to 6.5.14), and other punctuators.
    "a * b => 3 Expr { place: 0, node: Binary(Mul,¶\
     a / b => 3 Expr { place: 0, node: Binary(Div,¶\
     a % b => 3 Expr { place: 0, node: Binary(Rem,¶\
     a + b => 3 Expr { place: 0, node: Binary(Add,¶\
     a - b => 3 Expr { place: 0, node: Binary(Sub,¶\
     a << b => 3 Expr { place: 0, node: Binary(Shl,¶\
     a >> b => 3 Expr { place: 0, node: Binary(Shr,¶\
     a < b => 3 Expr { place: 0, node: Binary(Lt,¶\
     a > b => 3 Expr { place: 0, node: Binary(Gt,¶\
     a >= b => 3 Expr { place: 0, node: Binary(Ge,¶\
     a != b => 3 Expr { place: 0, node: Binary(Ne,¶\
     a & b => 3 Expr { place: 0, node: Binary(And,¶\
     a ^ b => 3 Expr { place: 0, node: Binary(Xor,¶\
     a | b => 3 Expr { place: 0, node: Binary(Or,¶\
     a && b => 3 Expr { place: 0, node: And(¶\
     a || b => 3 Expr { place: 0, node: Or(¶\
     a == b => 3 Expr { place: 0, node: Binary(Eq,¶\
     a <= b => 3 Expr { place: 0, node: Binary(Le,¶\
     a 1 => 1 Expr { place: 0, node: Variable(Text { inner: \"a\" })¶\
     a ! b => 1 Expr { place: 0, node: Variable(Text { inner: \"a\" })¶\
     a->b => 3 Expr { place: 0, node: Arrow(¶\
     old.b => 3 Expr { place: 0, node: Dot(",
    // Numbers (6.4.4.1) and characters (6.4.4.4).
    "0 => 1 Expr { place: 0, node: Number(I32(0))¶\
     017 => 1 Expr { place: 0, node: Number(I32(15))¶\
     0x1fUL => 1 Expr { place: 0, node: Number(U64(31))¶\
     42lu => 1 Expr { place: 0, node: Number(U64(42))¶\
     9223372036854775807 => 1 Expr { place: 0, node: Number(I64(9223372036854775807))¶\
     'a' => 1 Expr { place: 0, node: Character(I32(97))¶\
     '\"' => 1 Expr { place: 0, node: Character(I32(34))¶\
     '\\n' => 1 Expr { place: 0, node: Character(I32(10))¶\
     '\\t' => 1 Expr { place: 0, node: Character(I32(9))¶\
     '\\r' => 1 Expr { place: 0, node: Character(I32(13))¶\
     '\\0' => 1 Expr { place: 0, node: Character(I32(0))¶\
     '\\\\' => 1 Expr { place: 0, node: Character(I32(92))¶\
     '\\'' => 1 Expr { place: 0, node: Character(I32(39))¶\
     '\\\"' => 1 Expr { place: 0, node: Character(I32(34))",
    // Types, their words in every order (6.7.2p2).
    "(char) x => 4 Expr { place: 0, node: Cast(Integer(I8),¶\
     (signed char) x => 5 Expr { place: 0, node: Cast(Integer(I8),¶\
     (char unsigned) x => 5 Expr { place: 0, node: Cast(Integer(U8),¶\
     (short) x => 4 Expr { place: 0, node: Cast(Integer(I16),¶\
     (short int) x => 5 Expr { place: 0, node: Cast(Integer(I16),¶\
     (int signed short) x => 6 Expr { place: 0, node: Cast(Integer(I16),¶\
     (int unsigned short) x => 6 Expr { place: 0, node: Cast(Integer(U16),¶\
     (int) x => 4 Expr { place: 0, node: Cast(Integer(I32),¶\
     (signed) x => 4 Expr { place: 0, node: Cast(Integer(I32),¶\
     (int signed) x => 5 Expr { place: 0, node: Cast(Integer(I32),¶\
     (unsigned) x => 4 Expr { place: 0, node: Cast(Integer(U32),¶\
     (int unsigned) x => 5 Expr { place: 0, node: Cast(Integer(U32),¶\
     (long) x => 4 Expr { place: 0, node: Cast(Integer(I64),¶\
     (int long) x => 5 Expr { place: 0, node: Cast(Integer(I64),¶\
     (long signed int) x => 6 Expr { place: 0, node: Cast(Integer(I64),¶\
     (unsigned long) x => 5 Expr { place: 0, node: Cast(Integer(U64),¶\
     (int long unsigned) x => 6 Expr { place: 0, node: Cast(Integer(U64),¶\
     (struct node *) x => 6 Expr { place: 0, node: Cast(Handle(Name { place: 8, text: Text { inner: \"node\" } }),¶\
     (thrd_t) x => 4 Expr { place: 0, node: Cast(Thread,¶\
     count ; 1 => 1 Expr { place: 0, node: Variable(Text { inner: \"count\" })",
    // Whole trees.
    "(a) => 3 Expr { place: 1, node: Variable(Text { inner: \"a\" }) }.¶\
     a - b - c => 5 Expr { place: 0, node: Binary(Sub, Boxed { inner: Expr { place: 0, node: Binary(Sub, Boxed { inner: Expr { place: 0, node: Variable(Text { inner: \"a\" }) } }, Boxed { inner: Expr { place: 4, node: Variable(Text { inner: \"b\" }) } }) } }, Boxed { inner: Expr { place: 8, node: Variable(Text { inner: \"c\" }) } }) }.¶\
     a = (b) = 1 => 7 Expr { place: 0, node: Assign(Boxed { inner: Expr { place: 0, node: Variable(Text { inner: \"a\" }) } }, Boxed { inner: Expr { place: 4, node: Assign(Boxed { inner: Expr { place: 5, node: Variable(Text { inner: \"b\" }) } }, Boxed { inner: Expr { place: 10, node: Number(I32(1)) } }) } }) }.¶\
     f(-x, y->z) => 9 Expr { place: 0, node: Call(Text { inner: \"f\" }, List { inner: [Expr { place: 2, node: Unary(Negate, Boxed { inner: Expr { place: 3, node: Variable(Text { inner: \"x\" }) } }) }, Expr { place: 6, node: Arrow(Boxed { inner: Expr { place: 6, node: Variable(Text { inner: \"y\" }) } }, Name { place: 9, text: Text { inner: \"z\" } }) }] }) }.",
];

#[test]
fn texts_are_read_as_their_trees(rt: HostRuntime) {
    all_are_read(&rt, rt.alloc(), Reading::Expression(0), &NODES);
}

/// The operators with two operands, level by level (6.5.5 to 6.5.14).
static LEVELS: [&str; 10] = [
    "* / %",
    "+ -",
    "<< >>",
    "< > <= >=",
    "== !=",
    "&",
    "^",
    "|",
    "&&",
    "||",
];

/// Rows by which three operands group from the left alone, or from the right alone.
fn rows_of(alloc: Global, x: &str, y: &str, is_left: bool) -> Result<String, AllocError> {
    let is_right = !is_left;
    format!(in alloc;
        "a {x} b {y} c <=> (a {x} b) {y} c => {is_left}¶a {x} b {y} c <=> a {x} (b {y} c) => {is_right}"
    )
}

/// Stops the test where operators of two levels group otherwise.
fn group_one_way(
    rt: &impl Abort,
    alloc: Global,
    xs: &str,
    ys: &str,
    is_left: bool,
) -> Result<(), AllocError> {
    for x in xs.split(' ') {
        for y in ys.split(' ') {
            let rows = rows_of(alloc, x, y, is_left)?;
            are_read(rt, alloc, Reading::Pair, &rows);
        }
    }
    Ok(())
}

/// They group from the left exactly where the first operator's level is no higher.
#[test]
fn operators_bind_by_their_levels(rt: HostRuntime) -> Result<(), AllocError> {
    for (low, xs) in LEVELS.iter().enumerate() {
        for (high, ys) in LEVELS.iter().enumerate() {
            group_one_way(&rt, rt.alloc(), xs, ys, low <= high)?;
        }
    }
    Ok(())
}

/// Calls with adjacent strings, how many tokens each is, and what the strings, which are at byte 7, mean.
static STRINGS: &str = "\
    printf(\"\") => 4 Expr { place: 0, node: Print { place: 7, format: Text { inner: \"\" }¶\
    printf(\"a\\n\\t\\r\\\\\\'\\\"z\") => 4 Expr { place: 0, node: Print { place: 7, format: Text { inner: \"a\\n\\t\\r\\\\'\\\"z\" }¶\
    printf(\"\\\\n\") => 4 Expr { place: 0, node: Print { place: 7, format: Text { inner: \"\\\\n\" }¶\
    printf(\"caf\u{e9} \u{1f600}\\n\") => 4 Expr { place: 0, node: Print { place: 7, format: Text { inner: \"caf\u{e9} \u{1f600}\\n\" }¶\
    printf(\"one \" \"\u{fc}ber\"\"\\\\\") => 6 Expr { place: 0, node: Print { place: 7, format: Text { inner: \"one \u{fc}ber\\\\\" }¶\
    printf(\"'\\\\\\\\\") => 4 Expr { place: 0, node: Print { place: 7, format: Text { inner: \"'\\\\\\\\\" }";

#[test]
fn adjacent_strings_are_one(rt: HostRuntime) {
    are_read(&rt, rt.alloc(), Reading::Expression(0), STRINGS);
}

/// Expressions, others with more parentheses or another order, and whether the two are the same.
static GROUPS: [&str; 2] = [
    "\
    a-b-c <=> (a-b)-c => true¶\
    a-b*c-d <=> (a-(b*c))-d => true¶\
    a*b%c/d <=> ((a*b)%c)/d => true¶\
    a<<b+c <=> a<<(b+c) => true¶\
    a<b<<c <=> a<(b<<c) => true¶\
    a==b<c <=> a==(b<c) => true¶\
    a&b==c <=> a&(b==c) => true¶\
    a^b&c <=> a^(b&c) => true¶\
    a|b^c <=> a|(b^c) => true¶\
    a&&b|c <=> a&&(b|c) => true¶\
    a||b&&c <=> a||(b&&c) => true¶\
    a||b||c <=> (a||b)||c => true¶\
    a!=b==c <=> (a!=b)==c => true¶\
    a>=b<=c>d <=> ((a>=b)<=c)>d => true¶\
    a?b:c <=> (a)?(b):(c) => true¶\
    a?b:c?d:e <=> a?b:(c?d:e) => true¶\
    a?b?c:d:e <=> a?(b?c:d):e => true¶\
    a?b=c:d <=> a?(b=c):d => true¶\
    a||b?c:d <=> (a||b)?c:d => true¶\
    a=b=c <=> a=(b=c) => true¶\
    a=b?c:d <=> a=(b?c:d) => true¶\
    a+=b<<=c <=> a+=(b<<=c) => true¶\
    -a=b <=> (-a)=b => true¶\
    -a-b <=> (-a)-b => true¶\
    - -a <=> -(-a) => true¶\
    !~+a <=> !(~(+a)) => true¶\
    -a++ <=> -(a++) => true¶\
    ++a->b <=> ++(a->b) => true¶\
    a++++ <=> ((a++)++) => true¶\
    a->b->c <=> (a->b)->c => true¶\
    f(a)->b++ <=> ((f(a))->b)++ => true¶\
    a[b]++ <=> (a[b])++ => true¶\
    (int)a*b <=> ((int)a)*b => true¶\
    (int)-a <=> (int)(-a) => true¶\
    (int)(long)a <=> (int)((long)a) => true¶\
    (struct t*)p->q <=> (struct t*)(p->q) => true¶\
    -(int)a <=> -((int)a) => true¶\
    f(a,b=c,d?e:g) <=> f((a),(b=c),(d?e:g)) => true",
    "\
    a-b-c <=> a-(b-c) => false¶\
    a*b+c <=> a*(b+c) => false¶\
    -a++ <=> (-a)++ => false¶\
    (int)a*b <=> (int)(a*b) => false¶\
    a?b:c <=> a?c:b => false¶\
    f(a,b) <=> f(b,a) => false",
];

#[test]
fn operators_group_as_in_c(rt: HostRuntime) {
    all_are_read(&rt, rt.alloc(), Reading::Pair, &GROUPS);
}

/// Expressions, and how many tokens of them are read, or the fault.
static ENDS: [&str; 4] = [
    "\
    a b => 1 Expr¶\
    a = b; => 3 Expr¶\
    a + b = c => 3 Expr¶\
    (int)a = b => 4 Expr¶\
    (a) = b => 5 Expr¶\
    a ? b : c = d => 5 Expr¶\
    0x10 => 1 Expr¶\
    '\\0' => 1 Expr¶\
    NULL => 1 Expr¶\
    thrd_success => 1 Expr¶\
    thrd_error => 1 Expr¶\
    f() => 3 Expr¶\
    printf(\"a\" \"b\\n\", x) => 7 Expr¶\
    calloc(1, sizeof(struct t)) => 10 Expr¶\
    calloc(0x1u, sizeof(struct t))->n => 12 Expr¶\
    free(p) => 4 Expr¶\
    thrd_create(&t[i], f, 1) => 12 Expr¶\
    thrd_join(t, NULL) => 6 Expr¶\
    thrd_join(t, &r) => 7 Expr¶\
    mtx_init(&m, mtx_plain) => 7 Expr¶\
    mtx_lock(&m) => 5 Expr¶\
    mtx_unlock(&m) => 5 Expr¶\
    \x20=> At(0)¶\
    ) => At(0)¶\
    a +  => At(2)¶\
    a + ; => At(2)¶\
    (a => At(2)¶\
    (long long) a => At(2)¶\
    (short char) a => At(2)¶\
    (struct t) a => At(3)¶\
    ++(int)a => At(2)¶\
    f(a,) => At(4)¶\
    a[] => At(2)¶\
    a ? b => At(3)¶\
    p->1 => At(2)¶\
    calloc(2, sizeof(struct t)) => At(2)¶\
    thrd_create(t => At(2)¶\
    thrd_join(t, 0) => At(4)¶\
    printf(a) => At(2)¶\
    mtx_lock(m) => At(2)¶\
    *a => At(0)",
    // Types.
    "\
    (int unsigned x => At(3)¶\
    (long signed int * => At(4)¶\
    (char int => At(2)¶\
    (unsigned signed => At(2)¶\
    (x) y => 3 Expr¶\
    (return x => At(1)¶\
    (static => At(1)¶\
    (mtx_t => At(1)¶\
    (struct 1 * => At(2)¶\
    (struct node ; => At(3)¶\
    (struct node => At(3)¶\
    ( => At(1)",
    // Names, punctuators and numbers.
    "\
    p->; => At(2)¶\
    p-> => At(2)¶\
    thrd_join(t; => At(3)¶\
    calloc(0x1UL, sizeof(struct t)) => 10 Expr¶\
    calloc( => At(2)",
    // Strings.
    "\
    printf(\"a\"; => At(3)¶\
    printf(\"a\", x) => 6 Expr¶\
    printf(\"a\" \"b\"\"c\" 'd' => At(5)¶\
    printf(1) => At(2)¶\
    printf( => At(2)",
];

/// The same at the greatest depth.
static DEEP: &str = "\
    a => 1 Expr¶\
    f(a => TooDeep(2)¶\
    -a => TooDeep(1)¶\
    a = b => TooDeep(2)¶\
    (int) a => TooDeep(1)¶\
    (struct node *) a => TooDeep(1)¶\
    (thrd_t) x => TooDeep(1)¶\
    mtx_lock(&m) => TooDeep(2)¶\
    calloc(1, sizeof(struct t)) => TooDeep(2)¶\
    printf(\"a\" 1) => TooDeep(2)";

#[test]
fn expressions_end_where_the_grammar_ends(rt: HostRuntime) {
    all_are_read(&rt, rt.alloc(), Reading::Expression(0), &ENDS);
    are_read(&rt, rt.alloc(), Reading::Expression(64), DEEP);
}

/// Expressions that are nested 64 and 65 times, and how many tokens of them are read, or the first that is too deep.
static NESTS: &str = "\
    `64 (`x`64 )` => 129 Expr¶\
    `65 (`x`65 )` => TooDeep(65)¶\
    `64 !`x => 65 Expr¶\
    `65 !`x => TooDeep(65)¶\
    `64 f(`x`64 )` => 193 Expr¶\
    `65 f(`x`65 )` => TooDeep(130)¶\
    `64 a=`x => 129 Expr¶\
    `65 a=`x => TooDeep(130)¶\
    `64 a[`x`64 ]` => 193 Expr¶\
    `65 a[`x`65 ]` => TooDeep(130)¶\
    `64 (int)`x => 193 Expr¶\
    `65 (int)`x => TooDeep(193)";

#[test]
fn sixty_four_levels_are_read(rt: HostRuntime) {
    are_read(&rt, rt.alloc(), Reading::Expression(0), NESTS);
}
