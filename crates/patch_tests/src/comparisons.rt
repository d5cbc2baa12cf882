//! The names of a text, and what changes between pairs of small texts.
use crate::texts::read;
use dsu_io::{List, Text};
use patch_compare::{Changes, CompareFault, compare};
use sorted_names::names_in_order;
use std::alloc::{AllocError, Global};
use std::test::Fail;

/// A definition of each kind.
const OLD: &str =
    "struct s { int a; }; struct s *p; int g = 1; int list[2]; mtx_t m; int f(int n) { return n; }
int main(void) { return f(g); }";

/// Adds a word and the names of a list, each after a comma.
fn add_names(text: &mut String, word: &str, names: &List<Text>) -> Result<(), AllocError> {
    text.push_str(word)?;
    for name in names.as_slice() {
        text.push_str(",")?;
        text.push_str(name.as_str())?;
    }
    Ok(())
}

/// Adds the three lists.
fn add_changes(text: &mut String, changes: &Changes) -> Result<(), AllocError> {
    add_names(text, "changed", &changes.changed)?;
    add_names(text, " interface", &changes.interface)?;
    add_names(text, " added", &changes.added)
}

/// Adds what a comparison answered.
fn add_answer(text: &mut String, answer: &Result<Changes, CompareFault>) -> Result<(), AllocError> {
    match answer {
        Ok(changes) => add_changes(text, changes),
        Err(CompareFault::Kind(name)) => {
            text.push_str("kind ")?;
            text.push_str(name.as_str())
        }
        Err(CompareFault::Memory) => text.push_str("memory"),
    }
}

/// What is answered for the older text and a newer one.
fn compared(alloc: Global, new: &str) -> Result<String, Fail> {
    let old = read(alloc, OLD)?;
    let new = read(alloc, new)?;
    let answer = compare(alloc, old.get(), new.get());
    let mut text = String::new(alloc);
    let added = add_answer(&mut text, &answer);
    drop(answer);
    added?;
    Ok(text)
}

#[test]
fn names_are_in_the_order_of_bytes(rt: HostRuntime) -> Result<(), Fail> {
    let text = read(rt.alloc(), OLD)?;
    let names = names_in_order(rt.alloc(), text.get().program().definitions.as_slice())?;
    let names = names.join(rt.alloc(), ",")?;
    assert_eq!(rt; names.as_str(), "f,g,list,m,main,p,struct s");
    Ok(())
}

#[test]
fn a_text_with_itself(rt: HostRuntime) -> Result<(), Fail> {
    let answer = compared(rt.alloc(), OLD)?;
    assert_eq!(rt; answer.as_str(), "changed interface added");
    Ok(())
}

/// Places, an initialiser, and the type of an array's length are no change.
#[test]
fn no_change(rt: HostRuntime) -> Result<(), Fail> {
    let answer = compared(
        rt.alloc(),
        "int g = 2; struct s { int a; };
struct s *p; mtx_t m; int f(int n) { return (n); } int list[2u] = { 1 };
int main(void) { return f(g); }",
    )?;
    assert_eq!(rt; answer.as_str(), "changed interface added");
    Ok(())
}

/// A field more, another type, another length, a parameter's name, and a mutex that is gone.
#[test]
fn a_change_of_each_kind(rt: HostRuntime) -> Result<(), Fail> {
    let answer = compared(
        rt.alloc(),
        "struct s { int a; int b; }; struct s *p; long g = 1; int list[3]; int f(int k) { return k; }
int main(void) { return f((int) g); }",
    )?;
    assert_eq!(rt;
        answer.as_str(),
        "changed,f,g,list,m,main,struct s interface,g,list,m,struct s added"
    );
    Ok(())
}

/// A parameter's type and a body change; a variable becomes an array; names are added, and another struct.
#[test]
fn types_of_functions_and_added_names(rt: HostRuntime) -> Result<(), Fail> {
    let answer = compared(
        rt.alloc(),
        "struct s { int a; }; struct t { int a; }; struct t *p; int zero; int g[1]; int list[2]; mtx_t m;
int f(long n) { return 1; } int b(void) { return 2; }
int main(void) { return f(g[0]); }",
    )?;
    assert_eq!(rt;
        answer.as_str(),
        "changed,f,g,main,p interface,f,g,p added,b,struct t,zero"
    );
    Ok(())
}

/// Two names of another sort: a function that becomes a mutex, and a global that becomes a function.
#[test]
fn the_least_name_of_another_sort(rt: HostRuntime) -> Result<(), Fail> {
    let answer = compared(
        rt.alloc(),
        "mtx_t f; int g(void) { return 1; } int main(void) { return g(); }",
    )?;
    assert_eq!(rt; answer.as_str(), "kind f");
    Ok(())
}
