//! The bodies that a text brings after another. Check-ins and tokens are counted by hand.
use crate::texts::read;
use brought_bodies::{BodyFault, brought, first_bodies};
use c_types::Typed;
use code_store::StoredBody;
use dsu_io::Boxed;
use name_sets::{NameSet, Names};
use std::alloc::Global;
use std::test::Fail;

/// The older text.
const OLD: &str = "struct s { int a; };
struct s *p;
int g;
int f(int n) { g = n; return n; }
int h(void) { return p->a; }
int main(void) { f(1); h(); return 0; }
";

/// The names of all texts.
static NAMES: [&str; 7] = ["p", "main", "struct s", "h", "f", "k", "g"];

/// A body: its function, its number of check-ins and its number of tokens.
struct Row(&'static str, usize, u32);

/// A text that follows the older one, the names whose definitions and whose interfaces change, and the bodies that it brings.
struct Case {
    text: &'static str,
    changed: &'static [&'static str],
    interface: &'static [&'static str],
    bodies: &'static [Row],
}

/// The bodies of the older text.
static FIRST: [Row; 3] = [Row("f", 1, 15), Row("h", 1, 12), Row("main", 3, 19)];

/// The body of a function is another.
static CHANGED: Case = Case {
    text: "struct s { int a; };
struct s *p;
int g;
int f(int n) { g = n + 1; dsu_update(); return n; }
int h(void) { return p->a; }
int main(void) { f(1); h(); return 0; }
",
    changed: &["f"],
    interface: &[],
    bodies: &[Row("f", 2, 21)],
};

/// There is one function more, which `main` calls.
static ADDED: Case = Case {
    text: "struct s { int a; };
struct s *p;
int g;
int k(void) { return 5; }
int f(int n) { g = n; return n; }
int h(void) { return p->a; }
int main(void) { f(1); k(); return 0; }
",
    changed: &["main"],
    interface: &[],
    bodies: &[Row("k", 1, 10), Row("main", 3, 19)],
};

/// The type of a parameter changes: `main` calls the function and stays as it is.
static SIGNATURE: Case = Case {
    text: "struct s { int a; };
struct s *p;
int g;
int f(short n) { g = n; return n; }
int h(void) { return p->a; }
int main(void) { f(1); h(); return 0; }
",
    changed: &["f"],
    interface: &["f"],
    bodies: &[Row("f", 1, 15), Row("main", 3, 19)],
};

/// The layout of a struct changes: `h` reads a field of it. It is the same function with two tokens more.
static LAYOUT: Case = Case {
    text: "struct s { int b; int a; };
struct s *p;
int g;
int f(int n) { g = n; return n; }
int h(void) { return (p->a); }
int main(void) { f(1); h(); return 0; }
",
    changed: &["struct s"],
    interface: &["struct s"],
    bodies: &[Row("h", 1, 14)],
};

/// Only a number that a global begins with is another, which is no change.
static NOTHING: Case = Case {
    text: "struct s { int a; };
struct s *p;
int g = 3;
int f(int n) { g = n; return n; }
int h(void) { return p->a; }
int main(void) { f(1); h(); return 0; }
",
    changed: &[],
    interface: &[],
    bodies: &[],
};

/// The table of the first of all names.
fn table(alloc: Global, many: usize) -> Result<Boxed<Names>, Fail> {
    let mut names = Names::new(alloc);
    for name in NAMES.iter().take(many) {
        let _ = names.add(name);
    }
    let names = Boxed::of(alloc, names)?;
    if names.get().len() != many {
        return Err(Fail::new("a name has no room"));
    }
    Ok(names)
}

/// The set of some names.
fn set_of(names: &Names, list: &[&str]) -> Result<NameSet, Fail> {
    let mut set = NameSet::empty();
    for name in list {
        let Some(id) = names.find(name) else {
            return Err(Fail::new("a name isn't in the table"));
        };
        set.add(id);
    }
    Ok(set)
}

/// How many check-ins a body has.
fn check_ins(body: &StoredBody) -> usize {
    let mut count: usize = 0;
    for point in &body.skeleton.points {
        if point.kind.is_check_in() {
            count = count.saturating_add(1);
        }
    }
    count
}

/// Whether the bodies of a version are as rows have them.
fn are_as(names: &Names, version: u32, rows: &[Row], bodies: &[StoredBody]) -> bool {
    for (row, body) in rows.iter().zip(bodies) {
        if names.find(row.0) != Some(body.function)
            || body.generation != version
            || check_ins(body) != row.1
            || body.tokens != row.2
        {
            return false;
        }
    }
    rows.len() == bodies.len()
}

/// What a text brings as version 7.
fn bodies_between(
    alloc: Global,
    names: &Names,
    old: &Typed,
    new: &Typed,
    case: &Case,
) -> Result<Result<Vec<StoredBody>, BodyFault>, Fail> {
    let changed = set_of(names, case.changed)?;
    let interface = set_of(names, case.interface)?;
    Ok(brought(alloc, 7, names, &changed, &interface, old, new))
}

/// What the text of a case brings after the older text.
fn bodies_of(
    alloc: Global,
    names: &Names,
    case: &Case,
) -> Result<Result<Vec<StoredBody>, BodyFault>, Fail> {
    let old = read(alloc, OLD)?;
    let new = read(alloc, case.text)?;
    bodies_between(alloc, names, old.get(), new.get(), case)
}

/// Whether a text brings the bodies of its case.
fn brings(alloc: Global, case: &Case) -> Result<bool, Fail> {
    let names = table(alloc, NAMES.len())?;
    let Ok(bodies) = bodies_of(alloc, names.get(), case)? else {
        return Err(Fail::new("the bodies aren't given"));
    };
    Ok(are_as(names.get(), 7, case.bodies, &bodies))
}

#[test]
fn a_changed_function(rt: HostRuntime) -> Result<(), Fail> {
    assert!(rt; brings(rt.alloc(), &CHANGED)?);
    Ok(())
}

#[test]
fn an_added_function_and_its_caller(rt: HostRuntime) -> Result<(), Fail> {
    assert!(rt; brings(rt.alloc(), &ADDED)?);
    Ok(())
}

#[test]
fn a_caller_of_another_signature(rt: HostRuntime) -> Result<(), Fail> {
    assert!(rt; brings(rt.alloc(), &SIGNATURE)?);
    Ok(())
}

#[test]
fn a_user_of_another_layout(rt: HostRuntime) -> Result<(), Fail> {
    assert!(rt; brings(rt.alloc(), &LAYOUT)?);
    Ok(())
}

#[test]
fn nothing_that_counts(rt: HostRuntime) -> Result<(), Fail> {
    assert!(rt; brings(rt.alloc(), &NOTHING)?);
    Ok(())
}

#[test]
fn the_first_version(rt: HostRuntime) -> Result<(), Fail> {
    let names = table(rt.alloc(), NAMES.len())?;
    let old = read(rt.alloc(), OLD)?;
    let Ok(bodies) = first_bodies(rt.alloc(), names.get(), old.get()) else {
        return Err(Fail::new("the bodies aren't given"));
    };
    assert!(rt; are_as(names.get(), 1, &FIRST, &bodies));
    Ok(())
}

#[test]
fn a_name_that_is_not_in_the_table(rt: HostRuntime) -> Result<(), Fail> {
    let names = table(rt.alloc(), 6)?;
    let bodies = bodies_of(rt.alloc(), names.get(), &CHANGED)?;
    assert!(rt; matches!(&bodies, Err(BodyFault::Unknown)));
    Ok(())
}
