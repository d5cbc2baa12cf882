//! The first fault of texts, or that they have none: with ample memory a text is read, and its fault is reported where a reader of
//! the rules finds it.

use crate::reading::{Reading, all_are_read, are_read, program_in};
use c_definitions::Known;
use c_tree::Def;
use c_types::{Typed, check};
use std::alloc::Global;

/// Takes what threads may share.
fn crosses_threads<T: Send + Sync>(_value: &T) {}

/// A checked text may be sent to a thread and shared by threads.
fn typed_crosses(typed: &Typed) {
    crosses_threads(typed)
}

/// How many names a checked text has and how many definitions, if its tree ends where the text does.
pub fn typed_shown(alloc: Global, typed: &Typed, end: usize) -> Option<String> {
    typed_crosses(typed);
    if typed.program().end != end {
        return None;
    }
    let (names, definitions) = (typed.names(), typed.program().definitions.as_slice().len());
    format!(in alloc; "names: {names}, definitions: {definitions}").ok()
}

/// What is shown of the program that a text is, or its fault of types.
pub fn shown(alloc: Global, text: &str) -> Option<String> {
    let program = program_in(alloc, text)?;
    match check(alloc, program) {
        Ok(typed) => {
            let shown = typed_shown(alloc, &typed, text.len());
            drop(typed);
            shown
        }
        Err(fault) => format!(in alloc; "{fault:?}").ok(),
    }
}

/// Texts with the first fault of each.
static CASES: [&str; 5] = [
    // A sum stands where it begins, and the format of a `printf` where its string begins.
    "\
    int main(void) { int x; free(x + 1); return 0; } => Refused(WrongType, 29)¶\
    int main(void) { return y + 1; } => Refused(UnknownName, 24)¶\
    int main(void) { int x; printf(\"%ld\", x + 1); return 0; } => Refused(BadFormat, 31)",
    // What a text lacks is reported at its end, and a fault of a part hides those of the whole.
    "\
    // none => Refused(NoMain, 7)¶\
    int main(void) { return 1; } int main(void) { return 1; } => Refused(DeclaredTwice, 33)¶\
    int main(void) { return 1; } int main(void) { return x; } => Refused(UnknownName, 53)¶\
    int g; int f(int); int f(void) { return 1; } int main(void) { return 1; } => Refused(WrongType, 7)",
    // A transaction isn't left.
    "\
    int main(void) { dsu_tx { return 1; } } => Refused(LeavesTransaction, 26)¶\
    int main(void) { while (1) dsu_tx { break; } } => Refused(LeavesTransaction, 36)¶\
    int main(void) { dsu_tx { continue; } } => Refused(OutsideLoop, 26)",
    // A block hides what is outside, and is forgotten after its end; a `for` is a block.
    "\
    int main(void) { int x; { thrd_t x; x + 1; } } => Refused(WrongType, 36)¶\
    int main(void) { int x; int x; } => Refused(DeclaredTwice, 28)¶\
    int main(void) { for (int i; i; i + 1) ; i + 1; } => Refused(UnknownName, 41)",
    // Texts without a fault: `x + 1` is an `int`, and a loop in a transaction may be left.
    "\
    int main(void) { int x; printf(\"%d\", x + 1); return 0; } => names: 1, definitions: 1¶\
    int main(void) { dsu_tx { while (1) break; } } => names: 1, definitions: 1¶\
    int main(void) { int x; { { thrd_t x; } x + 1; } } => names: 1, definitions: 1¶\
    int main(void) { for (int i; i; i + 1) ; } => names: 1, definitions: 1¶\
    int main(void) { int i; for (int i; i; i + 1) ; } => names: 1, definitions: 1",
];

#[test]
fn the_first_fault_is_told(rt: HostRuntime) {
    all_are_read(&rt, rt.alloc(), Reading::Types, &CASES);
}

/// Functions at a limit, and with one more of what is repeated past it.
static LIMITS: [&str; 4] = [
    // An operand need of 64: so many arguments, each of which needs 1.
    "\
    int main(void) { int x; printf(\"`64 %d`\", x`63 , x`); } => names: 1, definitions: 1¶\
    int main(void) { int x; printf(\"`65 %d`\", x`64 , x`); } => Refused(OverLimit, 0)",
    // 63 arguments, of which the last needs 2.
    "\
    int main(void) { int x; printf(\"`63 %d`\", x`61 , x`, x + 1); } => names: 1, definitions: 1¶\
    int main(void) { int x; printf(\"`64 %d`\", x`62 , x`, x + 1); } => Refused(OverLimit, 0)",
    // The same in a `for`.
    "\
    int main(void) { int i; for (int i; i; printf(\"`63 %d`\", i`61 , i`, i + 1)) ; } => names: 1, definitions: 1¶\
    int main(void) { int i; for (int i; i; printf(\"`64 %d`\", i`62 , i`, i + 1)) ; } => Refused(OverLimit, 0)",
    // 64 variables: one and that of a `for` beside 62.
    "\
    int main(void) { `62 { int x; } `int i; for (int i; i; i + 1) ; } => names: 1, definitions: 1¶\
    int main(void) { `63 { int x; } `int i; for (int i; i; i + 1) ; } => Refused(OverLimit, 0)",
];

#[test]
fn needs_and_variables_are_counted(rt: HostRuntime) {
    all_are_read(&rt, rt.alloc(), Reading::Types, &LIMITS);
}

/// A text with each kind of definition: `struct t`, `m`, `g`, `a`, `f` and `main`.
static EACH_KIND: &str = "\
    struct t { int v; }; struct t; mtx_t m; int g = 1; int a[2] = { 1 }; int f(void); \
    dsu_transform struct t { v = old.v; } dsu_transform g = 1; int f(void) { return 1; } int main(void) { return 1; } => \
    names: 6, definitions: 10";

#[test]
fn each_kind_of_definition_is_accepted(rt: HostRuntime) {
    are_read(&rt, rt.alloc(), Reading::Types, EACH_KIND);
}

/// Definitions that stand for some names in different ways.
const DEFINITIONS: &str = "struct t; int f(void); struct t { int v; }; mtx_t f; int g; int g;";

/// The place of a definition.
fn place_of(found: Option<&Def>) -> Option<usize> {
    Some(found?.place)
}

/// The places of the definition and of the struct that are found by a name.
fn places_shown(alloc: Global, known: &Known, name: &str) -> Option<String> {
    let definition = place_of(known.definition_of(name));
    let of_struct = place_of(known.struct_of(name));
    format!(in alloc; "{definition:?} {of_struct:?}").ok()
}

/// The same in some definitions.
fn found_in(alloc: Global, definitions: &[Def], name: &str) -> Option<String> {
    let known = Known::of(alloc, definitions).ok()?;
    let shown = places_shown(alloc, &known, name);
    drop(known);
    shown
}

/// The same in these definitions.
pub fn name_shown(alloc: Global, name: &str) -> Option<String> {
    let program = program_in(alloc, DEFINITIONS)?;
    let shown = found_in(alloc, program.definitions.as_slice(), name);
    drop(program);
    shown
}

/// A name, and the places of the definition and of the struct that are found by it.
static FOUND: &str = "t => None Some(23)¶f => Some(44) None¶g => Some(53) None";

#[test]
fn definitions_are_found_by_their_names(rt: HostRuntime) {
    are_read(&rt, rt.alloc(), Reading::Name, FOUND);
}
