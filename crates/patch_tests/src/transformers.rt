//! Pairs of texts with the fault of the newer one's transformers.
use crate::texts::read_with_main;
use patch_faults::TransformFault;
use std::alloc::Global;
use std::test::Fail;
use transformer_types::first_fault;

/// What is expected. A fault is where the last part of the newer text begins that reads so.
enum Due {
    Right,
    NotChanged(&'static str),
    OldField(&'static str),
    Wrong(&'static str),
}

/// Two texts without their `main`, the newer one with transformers.
struct Case {
    old: &'static str,
    new: &'static str,
    due: Due,
}

/// Fields of structs that change.
static STRUCTS: [Case; 24] = [
    Case {
        old: "struct s { int a; };",
        new: "struct s { int a; long b; };\ndsu_transform struct s { b = old.a + 1; }",
        due: Due::Right,
    },
    Case {
        old: "struct s { int a; };",
        new: "struct s { int a; };\ndsu_transform struct s { a = 1; }",
        due: Due::NotChanged("dsu_transform"),
    },
    Case {
        old: "",
        new: "struct s { int a; };\ndsu_transform struct s { a = 1; }",
        due: Due::NotChanged("dsu_transform"),
    },
    Case {
        old: "struct s { int a; int b; };",
        new: "struct s { int b; int a; };\ndsu_transform struct s { a = 1; }",
        due: Due::Right,
    },
    Case {
        old: "struct s { int a; };",
        new: "struct s { int a; int b; };\ndsu_transform struct s { b = old.c; }",
        due: Due::OldField("c; }"),
    },
    Case {
        old: "struct s { int a; };",
        new: "struct s { int a; int b; };\ndsu_transform struct s { a = old.b; }",
        due: Due::OldField("b; }"),
    },
    Case {
        old: "struct s { int a; };",
        new: "struct s { struct s *a; };\ndsu_transform struct s { a = old.a; }",
        due: Due::Wrong("old.a"),
    },
    Case {
        old: "struct s { int a; };",
        new: "struct s { int a; int b; };\ndsu_transform struct s { b = old; }",
        due: Due::Wrong("old;"),
    },
    Case {
        old: "struct s { int a; };",
        new: "struct s { int a; int b; };\ndsu_transform struct s { b = (old).a; }",
        due: Due::Right,
    },
    Case {
        old: "struct s { struct s *p; };",
        new: "struct s { struct s *p; int b; };\ndsu_transform struct s { b = old.p; }",
        due: Due::Wrong("old.p"),
    },
    Case {
        old: "struct s { struct s *p; };",
        new: "struct s { struct s *p; int b; };\ndsu_transform struct s { b = old.p == NULL; }",
        due: Due::Right,
    },
    Case {
        old: "struct s { struct s *p; };",
        new: "struct s { struct s *p; int b; };\ndsu_transform struct s { b = old.p == 1; }",
        due: Due::Wrong("old.p"),
    },
    Case {
        old: "struct s { struct s *p; };",
        new: "struct s { struct s *p; int b; };\ndsu_transform struct s { b = 1 + old.p; }",
        due: Due::Wrong("old.p"),
    },
    Case {
        old: "struct s { struct s *p; };",
        new: "struct s { int b; struct s *p; };\ndsu_transform struct s { p = old.p ? old.p : 0; b = !old.p; }",
        due: Due::Right,
    },
    Case {
        old: "struct s { struct s *p; };",
        new: "struct s { int b; struct s *p; };\ndsu_transform struct s { p = 1 ? old.p : 2; }",
        due: Due::Wrong("1 ?"),
    },
    Case {
        old: "struct s { struct s *p; };",
        new: "struct s { int b; struct s *p; };\ndsu_transform struct s { p = 0; b = 'a'; }",
        due: Due::Right,
    },
    Case {
        old: "struct s { struct s *p; };",
        new: "struct s { int b; struct s *p; };\ndsu_transform struct s { p = 1; }",
        due: Due::Wrong("1; }"),
    },
    Case {
        old: "struct t { int a; }; struct s { struct t *p; };",
        new: "struct s { int a; };\ndsu_transform struct s { a = old.p == NULL; }",
        due: Due::Right,
    },
    Case {
        old: "struct t { int a; }; struct s { struct t *p; };",
        new: "struct s { struct s *p; };\ndsu_transform struct s { p = old.p; }",
        due: Due::Wrong("old.p"),
    },
    Case {
        old: "struct s { thrd_t t; };",
        new: "struct s { int a; thrd_t t; };\ndsu_transform struct s { t = old.t; }",
        due: Due::Right,
    },
    Case {
        old: "struct s { thrd_t t; };",
        new: "struct s { int a; thrd_t t; };\ndsu_transform struct s { a = !old.t; }",
        due: Due::Wrong("old.t"),
    },
    Case {
        old: "struct s { int a; };",
        new: "struct s { struct s *p; signed char c; };\ndsu_transform struct s { p = (struct s *) 0; c = (char) (old.a * 2); }",
        due: Due::Right,
    },
    Case {
        old: "struct s { int a; };",
        new: "struct s { struct s *p; };\ndsu_transform struct s { p = (struct s *) old.a; }",
        due: Due::Wrong("old.a"),
    },
    Case {
        old: "struct s { int a; };",
        new: "struct s { int a; int b; };\ndsu_transform struct s { b = (struct s *) NULL; }",
        due: Due::Wrong("(struct s *)"),
    },
];

/// Globals that change.
static GLOBALS: [Case; 13] = [
    Case {
        old: "int g;",
        new: "long g;\ndsu_transform g = old + 1;",
        due: Due::Right,
    },
    Case {
        old: "int g;",
        new: "int g;\ndsu_transform g = old;",
        due: Due::NotChanged("dsu_transform"),
    },
    Case {
        old: "",
        new: "int g;\ndsu_transform g = 1;",
        due: Due::NotChanged("dsu_transform"),
    },
    Case {
        old: "int g(void) { return 1; }",
        new: "int g;\ndsu_transform g = 1;",
        due: Due::NotChanged("dsu_transform"),
    },
    Case {
        old: "int g;",
        new: "int g[2];\ndsu_transform g = 1;",
        due: Due::NotChanged("dsu_transform"),
    },
    Case {
        old: "int g[2];",
        new: "int g;\ndsu_transform g = 1;",
        due: Due::NotChanged("dsu_transform"),
    },
    Case {
        old: "int g;",
        new: "long g;\ndsu_transform g = (old).a;",
        due: Due::Wrong("old).a"),
    },
    Case {
        old: "struct s { int a; }; struct s *g;",
        new: "int g;\ndsu_transform g = old;",
        due: Due::Wrong("old;"),
    },
    Case {
        old: "struct s { int a; }; struct s *g;",
        new: "int g;\ndsu_transform g = old ? 1 : old == 0;",
        due: Due::Right,
    },
    Case {
        old: "int g;",
        new: "struct s { int a; }; struct s *g;\ndsu_transform g = old ? NULL : 0;",
        due: Due::Wrong("old ?"),
    },
    Case {
        old: "int g;",
        new: "struct s { int a; }; struct s *g;\ndsu_transform g = NULL;",
        due: Due::Right,
    },
    Case {
        old: "int g;",
        new: "long g;\ndsu_transform g = -NULL;",
        due: Due::Wrong("NULL"),
    },
    Case {
        old: "int g;",
        new: "thrd_t g;\ndsu_transform g = 0;",
        due: Due::Wrong("0;"),
    },
];

/// Two faults: the first by place.
static PAIRS: [Case; 7] = [
    Case {
        old: "struct s { int a; };",
        new: "struct s { long a; };\ndsu_transform struct s { a = old; }\nint g;\ndsu_transform g = 1;",
        due: Due::Wrong("old; }"),
    },
    Case {
        old: "struct s { int a; };",
        new: "int g;\ndsu_transform g = 1;\nstruct s { long a; };\ndsu_transform struct s { a = old.b; }",
        due: Due::NotChanged("dsu_transform g"),
    },
    Case {
        old: "int g; int h;",
        new: "dsu_transform h = old;\ndsu_transform g = old;\nint g; int h;",
        due: Due::NotChanged("dsu_transform h"),
    },
    Case {
        old: "struct s { int a; };",
        new: "struct s { int b; int c; };\ndsu_transform struct s { b = old.c; c = old; }",
        due: Due::OldField("c; c"),
    },
    Case {
        old: "struct s { int a; };",
        new: "struct s { int b; int c; };\ndsu_transform struct s { c = old; b = old.c; }",
        due: Due::Wrong("old; b"),
    },
    Case {
        old: "struct s { int a; };",
        new: "struct s { int b; };\ndsu_transform struct s { b = old.c + (NULL == old.d); }",
        due: Due::OldField("c +"),
    },
    Case {
        old: "struct s { int a; struct s *p; };",
        new: "struct s { int b; };\ndsu_transform struct s { b = old.a == (old.p == old.d); }",
        due: Due::OldField("d);"),
    },
];

/// The first fault of two texts.
fn fault_of(alloc: Global, case: &Case) -> Result<Option<TransformFault>, Fail> {
    let old = read_with_main(alloc, case.old)?;
    let new = read_with_main(alloc, case.new)?;
    Ok(first_fault(alloc, old.get(), new.get())?)
}

/// The fault that is expected; none also where the newer text has no such part.
fn due_of(case: &Case) -> Option<TransformFault> {
    let text = case.new;
    match case.due {
        Due::Right => None,
        Due::NotChanged(part) => Some(TransformFault::NotChanged(text.rfind(part)?)),
        Due::OldField(part) => Some(TransformFault::OldField(text.rfind(part)?)),
        Due::Wrong(part) => Some(TransformFault::Wrong(text.rfind(part)?)),
    }
}

/// The newer text of the first pair whose fault isn't the expected one.
fn differing(alloc: Global, cases: &[Case]) -> Result<Option<&'static str>, Fail> {
    for case in cases {
        let due = due_of(case);
        if due.is_none() != matches!(case.due, Due::Right) {
            return Err(Fail::new("a case has no place"));
        }
        if fault_of(alloc, case)? != due {
            return Ok(Some(case.new));
        }
    }
    Ok(None)
}

#[test]
fn structs(rt: HostRuntime) -> Result<(), Fail> {
    assert_eq!(rt; differing(rt.alloc(), &STRUCTS)?, None);
    Ok(())
}

#[test]
fn globals(rt: HostRuntime) -> Result<(), Fail> {
    assert_eq!(rt; differing(rt.alloc(), &GLOBALS)?, None);
    Ok(())
}

#[test]
fn two_faults(rt: HostRuntime) -> Result<(), Fail> {
    assert_eq!(rt; differing(rt.alloc(), &PAIRS)?, None);
    Ok(())
}
