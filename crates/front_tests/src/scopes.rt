//! That the tables of `c_scope` are built with ample memory, also at full depth and length, and that
//! its clauses mean what they should, over tables written by hand.

use c_scope::Scopes;
use std::alloc::{AllocError, Global};

/// A call over tables of numbers, which are kept as texts so that each owns memory, and what it answers.
enum Call {
    Enter,
    Leave,
    /// A declaration, and whether it is the first of its name in its table.
    Declare(&'static str, u32, bool),
    Find(&'static str, Option<u32>),
}

static CALLS: [Call; 46] = [
    Call::Find("x", None),
    Call::Declare("x", 1, true),
    Call::Declare("f", 2, true),
    Call::Find("x", Some(1)),
    Call::Declare("x", 3, false),
    Call::Find("x", Some(1)),
    Call::Enter,
    Call::Find("x", Some(1)),
    Call::Declare("x", 4, true),
    Call::Find("x", Some(4)),
    Call::Declare("x", 5, false),
    Call::Find("x", Some(4)),
    Call::Find("f", Some(2)),
    Call::Enter,
    Call::Enter,
    Call::Declare("y", 6, true),
    Call::Find("x", Some(4)),
    Call::Declare("x", 7, true),
    Call::Find("x", Some(7)),
    Call::Find("", None),
    Call::Declare("", 8, true),
    Call::Leave,
    Call::Find("x", Some(4)),
    Call::Find("y", None),
    Call::Find("", None),
    Call::Declare("y", 9, true),
    Call::Find("y", Some(9)),
    Call::Leave,
    Call::Leave,
    Call::Find("x", Some(1)),
    Call::Find("y", None),
    // Names are their bytes.
    Call::Declare("e", 10, true),
    Call::Declare("é", 11, true),
    Call::Declare("e\u{301}", 12, true),
    Call::Declare("E", 13, true),
    Call::Declare("ee", 14, true),
    Call::Declare("e\0", 15, true),
    Call::Declare("", 16, true),
    Call::Find("e", Some(10)),
    Call::Find("é", Some(11)),
    Call::Find("e\u{301}", Some(12)),
    Call::Find("E", Some(13)),
    Call::Find("ee", Some(14)),
    Call::Find("e\0", Some(15)),
    Call::Find("", Some(16)),
    Call::Find("e\u{301}\u{301}", None),
];

/// The number that a text is.
fn number_of(found: Option<&String>) -> Option<u32> {
    found?.as_str().parse::<u32>().ok()
}

/// Makes a call, and says whether it answers as listed.
fn answers(alloc: Global, scopes: &mut Scopes<String>, call: &Call) -> Result<bool, AllocError> {
    match *call {
        Call::Enter => {
            scopes.enter()?;
            Ok(true)
        }
        Call::Leave => {
            let is_nested = scopes.is_nested();
            if is_nested {
                scopes.leave();
            }
            Ok(is_nested)
        }
        Call::Declare(name, number, is_new) => {
            let text = format!(in alloc; "{number}")?;
            Ok(scopes.declare(name, text)? == is_new)
        }
        Call::Find(name, number) => Ok(number_of(scopes.find(name)) == number),
    }
}

/// The first of some calls that answers otherwise than listed, or `None`.
fn first_other_answer(
    alloc: Global,
    scopes: &mut Scopes<String>,
    calls: &[Call],
) -> Result<Option<usize>, AllocError> {
    for (place, call) in calls.iter().enumerate() {
        if !answers(alloc, scopes, call)? {
            return Ok(Some(place));
        }
    }
    Ok(None)
}

#[test]
fn tables_answer_as_listed(rt: HostRuntime) {
    let mut scopes: Scopes<String> = Scopes::new(rt.alloc());
    let other = first_other_answer(rt.alloc(), &mut scopes, &CALLS);
    assert!(rt; other == Ok(None), "{other:?}");
    assert!(rt; !scopes.is_nested());
    drop(scopes);
}

/// Declares a name that ends in a number.
fn declare_numbered(
    alloc: Global,
    scopes: &mut Scopes<u32>,
    number: u32,
    value: u32,
) -> Result<bool, AllocError> {
    match format!(in alloc; "name{number}") {
        Ok(name) => scopes.declare(name.as_str(), value),
        Err(_) => Err(AllocError),
    }
}

/// Declares `name0` and so on in the innermost table. Says whether each answer is the one expected: that
/// the name is new there, or that it isn't. Without a value each stands for its number.
fn declare_many(
    alloc: Global,
    scopes: &mut Scopes<u32>,
    count: u32,
    value: Option<u32>,
    are_new: bool,
) -> Result<bool, AllocError> {
    for number in 0..count {
        if declare_numbered(alloc, scopes, number, value.unwrap_or(number))? != are_new {
            return Ok(false);
        }
    }
    Ok(true)
}

/// Enters a table and declares 256 names in it, twice. Says whether the answers are right, and the names hide those outside.
fn enter_with_names(
    alloc: Global,
    scopes: &mut Scopes<u32>,
    depth: u32,
) -> Result<bool, AllocError> {
    scopes.enter()?;
    let are_first = declare_many(alloc, scopes, 256, Some(depth), true)?;
    let are_second = declare_many(alloc, scopes, 256, Some(depth), false)?;
    Ok(
        are_first
            && are_second
            && stands_for(scopes, "name255", depth)
            && stands_for(scopes, "name65535", 65_535),
    )
}

/// Whether a name stands for a value.
fn stands_for(scopes: &Scopes<u32>, name: &str, value: u32) -> bool {
    scopes.find(name).copied() == Some(value)
}

/// Enters 64 tables with names, one in another, above 65,536 names in the outermost.
fn fill(alloc: Global, scopes: &mut Scopes<u32>) -> Result<bool, AllocError> {
    let mut are_right = declare_many(alloc, scopes, 65_536, None, true)?;
    for depth in 0..64u32 {
        are_right = are_right && enter_with_names(alloc, scopes, depth)?;
    }
    Ok(are_right)
}

/// Leaves 64 tables. Says whether a name stands for its value in each.
fn leave_all(scopes: &mut Scopes<u32>) -> bool {
    for depth in 0..64u32 {
        if !stands_for(scopes, "name7", 63 - depth) || !scopes.is_nested() {
            return false;
        }
        scopes.leave();
    }
    stands_for(scopes, "name7", 7) && !scopes.is_nested()
}

/// The tables of a text that nests as deep, and has as many names, as any.
#[test]
fn a_text_may_be_deep_and_long(rt: HostRuntime) {
    let mut scopes: Scopes<u32> = Scopes::new(rt.alloc());
    let is_filled = fill(rt.alloc(), &mut scopes);
    assert!(rt; is_filled == Ok(true));
    assert!(rt; leave_all(&mut scopes));
    drop(scopes);
}

/// A name that is declared twice in the outermost table and another time in one within it.
static SHADOWED: [Call; 7] = [
    Call::Declare("a", 1, true),
    Call::Declare("a", 2, false),
    Call::Enter,
    Call::Declare("a", 3, true),
    Call::Find("a", Some(3)),
    Call::Leave,
    Call::Find("a", Some(1)),
];

/// Values that own memory go with their tables.
#[test]
fn values_may_own_memory(rt: HostRuntime) {
    let mut scopes: Scopes<String> = Scopes::new(rt.alloc());
    let other = first_other_answer(rt.alloc(), &mut scopes, &SHADOWED);
    assert!(rt; other == Ok(None), "{other:?}");
    drop(scopes);
}
