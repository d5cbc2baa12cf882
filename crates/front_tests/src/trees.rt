//! Trees: which definitions are the same, and what a copy holds.
use crate::reading::program_in;
use c_tree::{Def, same_def};
use std::alloc::{AllocError, Global};
use std::process::Abort;

/// Samples by kind, separated by `¶`: a definition in two spellings, ` => ` and the form of its node. No two samples are the same.
static SAMPLES: [&str; 5] = [
    // Definitions of each kind.
    "struct T { int a; int b; }; struct T { int a, b; }; => Struct(Name¶\
     struct T { int b, a; }; struct T { int b; int a; }; => Struct(Name¶\
     struct T { int a; }; struct T { signed a; }; => Struct(Name¶\
     struct T; struct T; => Forward(Name¶\
     mtx_t T; mtx_t T; => Mutex(Name¶\
     void f(int a, int b) { } static void f(int a, signed int b) { } => Function(Function { result: None,¶\
     void f(int a); static void f(int a); => Prototype(Prototype { result: None,¶\
     void f(int); void f(signed int); => parameters: Unnamed(¶\
     thrd_t f(); thrd_t f(void); => Prototype(Prototype { result: Some(Thread),¶\
     int v; static int v; => Global(Declaration¶\
     int v = 1; int v = (1); => Global(Declaration¶\
     int v[3]; int v[03]; => Array(Array¶\
     int v[4]; int v[04]; => Array(Array¶\
     int v[3] = {1}; int v[3] = {1,}; => Array(Array¶\
     int v[3] = {1, 0}; int v[3] = {1, (0)}; => Array(Array¶\
     dsu_transform struct T { a = 1; } dsu_transform struct T { a = (1); } => TransformStruct(StructTransform",
    // Constants, names and operators with one operand.
    "dsu_transform g = 97; dsu_transform g = 0x61; => node: Number(I32(97))¶\
     dsu_transform g = 98; dsu_transform g = 0142; => node: Number(I32(98))¶\
     dsu_transform g = 97l; dsu_transform g = 0x61L; => node: Number(I64(97))¶\
     dsu_transform g = 'a'; dsu_transform g = ('a'); => node: Character(I32(97))¶\
     dsu_transform g = NULL; dsu_transform g = (NULL); => node: Null ¶\
     dsu_transform g = thrd_success; dsu_transform g = (thrd_success); => node: Success ¶\
     dsu_transform g = thrd_error; dsu_transform g = (thrd_error); => node: Error ¶\
     dsu_transform g = a; dsu_transform g = (a); => node: Variable(¶\
     dsu_transform g = b; dsu_transform g = ((b)); => node: Variable(¶\
     dsu_transform g = +1; dsu_transform g = +(1); => node: Unary(Plus,¶\
     dsu_transform g = -1; dsu_transform g = - 1; => node: Unary(Negate,¶\
     dsu_transform g = ~1; dsu_transform g = (~1); => node: Unary(Complement,¶\
     dsu_transform g = !1; dsu_transform g = ! /* */ 1; => node: Unary(Not,¶\
     dsu_transform g = ++1; dsu_transform g = ++(1); => node: Step(PreIncrement,¶\
     dsu_transform g = --1; dsu_transform g = --(1); => node: Step(PreDecrement,¶\
     dsu_transform g = 1++; dsu_transform g = (1)++; => node: Step(PostIncrement,¶\
     dsu_transform g = 1--; dsu_transform g = (1)--; => node: Step(PostDecrement,¶\
     dsu_transform g = +2; dsu_transform g = +(2); => node: Unary(Plus,¶\
     dsu_transform g = (int) 1; dsu_transform g = (signed) 1; => node: Cast(Integer(I32),¶\
     dsu_transform g = (unsigned) 1; dsu_transform g = (int unsigned) 1; => node: Cast(Integer(U32),¶\
     dsu_transform g = (thrd_t) 1; dsu_transform g = (thrd_t) (1); => node: Cast(Thread,¶\
     dsu_transform g = (struct T *) 1; dsu_transform g = (struct T*) 1; => node: Cast(Handle(¶\
     dsu_transform g = (struct S *) 1; dsu_transform g = (struct S*) 1; => node: Cast(Handle(",
    // Operators with more operands, calls, elements and fields.
    "dsu_transform g = 1 + 2; dsu_transform g = (1) + (2); => node: Binary(Add,¶\
     dsu_transform g = (1 += 2); dsu_transform g = ((1) += (2)); => node: Update(Add,¶\
     dsu_transform g = 1 - 2; dsu_transform g = (1) - (2); => node: Binary(Sub,¶\
     dsu_transform g = (1 -= 2); dsu_transform g = ((1) -= (2)); => node: Update(Sub,¶\
     dsu_transform g = 2 + 1; dsu_transform g = (2 + 1); => node: Binary(Add,¶\
     dsu_transform g = 1 && 2; dsu_transform g = (1 && 2); => node: And(¶\
     dsu_transform g = 1 || 2; dsu_transform g = (1 || 2); => node: Or(¶\
     dsu_transform g = (1 = 2); dsu_transform g = ((1) = (2)); => node: Assign(¶\
     dsu_transform g = 1 ? 2 : 3; dsu_transform g = (1) ? (2) : (3); => node: Choice(¶\
     dsu_transform g = 1 ? 3 : 2; dsu_transform g = (1) ? (3) : (2); => node: Choice(¶\
     dsu_transform g = f(); dsu_transform g = (f()); => node: Call(¶\
     dsu_transform g = printf(\"%d\"); dsu_transform g = printf(\"%\" \"d\"); => node: Print {¶\
     dsu_transform g = f(1); dsu_transform g = f((1)); => node: Call(¶\
     dsu_transform g = printf(\"%d\", 1); dsu_transform g = printf(\"%\" \"d\", (1)); => node: Print {¶\
     dsu_transform g = f(1, 2); dsu_transform g = f((1), (2)); => node: Call(¶\
     dsu_transform g = printf(\"%d\", 1, 2); dsu_transform g = printf(\"%d\" \"\", 1, 2); => node: Print {¶\
     dsu_transform g = f(2, 1); dsu_transform g = f((2), (1)); => node: Call(¶\
     dsu_transform g = printf(\"%d\", 2, 1); dsu_transform g = printf(\"\" \"%d\", 2, 1); => node: Print {¶\
     dsu_transform g = f[1]; dsu_transform g = f[(1)]; => node: Element(¶\
     dsu_transform g = (1)->f; dsu_transform g = ((1)->f); => node: Arrow(¶\
     dsu_transform g = (1).f; dsu_transform g = ((1).f); => node: Dot(",
    // Calls of the library, and statements without statements in them.
    "dsu_transform g = calloc(1, sizeof(struct m)); dsu_transform g = calloc(0x1u, sizeof(struct m)); => node: Calloc(¶\
     dsu_transform g = mtx_init(&m, mtx_plain); dsu_transform g = (mtx_init(&m, mtx_plain)); => node: InitMutex(¶\
     dsu_transform g = mtx_lock(&m); dsu_transform g = (mtx_lock(&m)); => node: Lock(¶\
     dsu_transform g = mtx_unlock(&m); dsu_transform g = (mtx_unlock(&m)); => node: Unlock(¶\
     dsu_transform g = free(1); dsu_transform g = free((1)); => node: Free(¶\
     dsu_transform g = thrd_join(1, NULL); dsu_transform g = thrd_join((1), NULL); => node: Join(¶\
     dsu_transform g = thrd_join(1, &b); dsu_transform g = thrd_join((1), &b); => node: JoinInto(¶\
     dsu_transform g = thrd_create(&b, f, 2); dsu_transform g = thrd_create(&b, f, (2)); => node: Create(¶\
     int f(int a, int b) { ; } int signed f(int a, int b) { ; } => node: Empty ¶\
     int f(int a, int b) { break; } int signed f(int a, int b) { break; } => node: Break ¶\
     int f(int a, int b) { continue; } int signed f(int a, int b) { continue; } => node: Continue ¶\
     int f(int a, int b) { return; } int signed f(int a, int b) { return; } => node: Return ¶\
     int f(int a, int b) { dsu_update(); } int signed f(int a, int b) { dsu_update(); } => node: Update ¶\
     int f(int a, int b) { 1; } int f(int a, int b) { (1); } => node: Evaluate(¶\
     int f(int a, int b) { return 1; } int f(int a, int b) { return (1); } => node: ReturnValue(¶\
     int f(int a, int b) { thrd_t v; } int signed f(int a, int b) { thrd_t v; } => node: Declare(¶\
     int f(int a, int b) { int v = 0; } int f(int a, int b) { int v = (0); } => node: Declare(",
    // Statements with statements in them.
    "int f(int a, int b) { { } } int signed f(int a, int b) { { } } => node: Block(¶\
     int f(int a, int b) { dsu_tx { } } int signed f(int a, int b) { dsu_tx { } } => node: Transaction(¶\
     int f(int a, int b) { { 1; } } int f(int a, int b) { { (1); } } => node: Block(¶\
     int f(int a, int b) { dsu_tx { 1; } } int f(int a, int b) { dsu_tx { (1); } } => node: Transaction(¶\
     int f(int a, int b) { { 1; 2; } } int f(int a, int b) { { (1); 2; } } => node: Block(¶\
     int f(int a, int b) { dsu_tx { 1; 2; } } int f(int a, int b) { dsu_tx { (1); 2; } } => node: Transaction(¶\
     int f(int a, int b) { { 2; 1; } } int f(int a, int b) { { (2); 1; } } => node: Block(¶\
     int f(int a, int b) { dsu_tx { 2; 1; } } int f(int a, int b) { dsu_tx { (2); 1; } } => node: Transaction(¶\
     int f(int a, int b) { if (0) 1; } int f(int a, int b) { if ((0)) 1; } => node: If(¶\
     int f(int a, int b) { while (0) 1; } int f(int a, int b) { while ((0)) 1; } => node: While(¶\
     int f(int a, int b) { do 1; while (0); } int f(int a, int b) { do 1; while ((0)); } => node: DoWhile(¶\
     int f(int a, int b) { if (0) 1; else 2; } int f(int a, int b) { if ((0)) 1; else 2; } => node: IfElse(¶\
     int f(int a, int b) { for (;;) 1; } int f(int a, int b) { for (;;) (1); } => node: For(¶\
     int f(int a, int b) { for (; 1;) 1; } int f(int a, int b) { for (; (1);) 1; } => node: For(¶\
     int f(int a, int b) { for (;; 1) 1; } int f(int a, int b) { for (;; (1)) 1; } => node: For(",
];

/// Adds the definitions of some samples.
fn push_all(text: &mut String, samples: &str) -> Option<()> {
    for sample in samples.split('¶') {
        let (pair, _) = sample.split_once(" => ")?;
        text.push_str(pair).ok()?;
    }
    Some(())
}

/// The text of the samples of a table.
fn text_of_all(alloc: Global, table: &[&str]) -> Option<String> {
    let mut text = String::new(alloc);
    for samples in table {
        push_all(&mut text, samples)?;
    }
    Some(text)
}

/// Whether the definition at a place is the same as the two of its pair, and as no other.
fn is_same_in_pair(one: &Def, place: usize, definitions: &[Def]) -> bool {
    for (at, other) in definitions.iter().enumerate() {
        if same_def(one, other) != (at / 2 == place / 2) {
            return false;
        }
    }
    true
}

/// The first definition that isn't, or their number.
fn first_mismatch(definitions: &[Def]) -> usize {
    for (place, one) in definitions.iter().enumerate() {
        if !is_same_in_pair(one, place, definitions) {
            return place;
        }
    }
    definitions.len()
}

/// The same of the samples of a table.
fn mismatch(alloc: Global, table: &[&str]) -> Option<usize> {
    let text = text_of_all(alloc, table)?;
    let program = program_in(alloc, &text)?;
    let found = first_mismatch(program.definitions.as_slice());
    drop(program);
    Some(found)
}

#[test]
fn definitions_are_the_same_at_other_places_alone(rt: HostRuntime) {
    let found = mismatch(rt.alloc(), &SAMPLES);
    assert!(rt; found == Some(2 * 92), "{found:?}");
}

/// Some definitions, printed with their places.
fn definitions_shown(alloc: Global, definitions: &[Def]) -> Option<String> {
    format!(in alloc; "{definitions:?}").ok()
}

/// The same of a text.
pub fn shown(alloc: Global, text: &str) -> Option<String> {
    let program = program_in(alloc, text)?;
    let shown = definitions_shown(alloc, program.definitions.as_slice());
    drop(program);
    shown
}

/// Copies of some definitions.
fn copies_of(alloc: Global, definitions: &[Def]) -> Result<Vec<Def>, AllocError> {
    let mut copies = Vec::new(alloc);
    for one in definitions {
        copies.push(one.copy_def(alloc)?)?;
    }
    Ok(copies)
}

/// Whether copies are the same as their samples, but for their places.
fn are_same(copies: &[Def], samples: &[Def]) -> bool {
    for (copy, sample) in copies.iter().zip(samples) {
        if !same_def(copy, sample) {
            return false;
        }
    }
    copies.len() == samples.len()
}

/// Whether copies are the same as their samples, places and all, and are printed with a part.
fn are_alike(alloc: Global, copies: &[Def], samples: &[Def], part: &str) -> Option<bool> {
    let copied = definitions_shown(alloc, copies)?;
    let shown = definitions_shown(alloc, samples)?;
    Some(copied == shown && shown.as_str().contains(part) && are_same(copies, samples))
}

/// The same of the copies of some definitions.
fn are_copied(alloc: Global, samples: &[Def], part: &str) -> Option<bool> {
    let copies = copies_of(alloc, samples).ok()?;
    let are_alike = are_alike(alloc, &copies, samples, part);
    drop(copies);
    are_alike
}

/// The same of the definitions of a sample, and its form.
fn is_copied(alloc: Global, sample: &str) -> Option<bool> {
    let (pair, form) = sample.split_once(" => ")?;
    let program = program_in(alloc, pair)?;
    let are_copied = are_copied(alloc, program.definitions.as_slice(), form);
    drop(program);
    are_copied
}

/// Stops the test at the first of some samples whose copies are others.
fn all_are_copied(rt: &impl Abort, alloc: Global, samples: &str) {
    for sample in samples.split('¶') {
        assert!(rt; is_copied(alloc, sample) == Some(true), "{sample}");
    }
}

#[test]
fn copies_hold_the_same_places(rt: HostRuntime) {
    for samples in SAMPLES.iter() {
        all_are_copied(&rt, rt.alloc(), samples);
    }
}
