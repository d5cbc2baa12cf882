//! That both forms of the operations on sets agree with tables of ids, how much a table of texts takes,
//! and which common name is the least.
ghost use Rattle.std.specs.Prelude.{ℕ, ◌<◌, length};
ghost use Rattle.name_sets.specs.IdSet.{Holds};

use name_sets::{MOST_NAMES, NameId, NameSet, Names, NamesFault};
use std::alloc::Global;

/// The ids of a set that has at most three. One that is listed again counts once, and `NO_ID` doesn't count.
pub type Ids = [usize; 3];

pub const NO_ID: usize = MOST_NAMES;

/// No ids.
pub const EMPTY: Ids = [NO_ID, NO_ID, NO_ID];

/// The set of these ids.
pub fn set_of(ids: &Ids) -> NameSet {
    let mut set = NameSet::empty();
    for id in ids {
        if let Some(id) = NameId::new(*id) {
            set.add(id);
        }
    }
    set
}

/// Two sets of ids, whether the first grows by the second, and whether they meet.
static PAIRS: [(Ids, Ids, bool, bool); 9] = [
    (EMPTY, EMPTY, false, false),
    (EMPTY, [0, 0, 0], true, false),
    ([0, 0, 0], EMPTY, false, false),
    ([0, 9, 9], [9, 9, 9], false, true),
    ([63, 63, 63], [64, 64, 64], true, false),
    ([511, 512, 512], [513, 512, 512], true, true),
    ([1, 1983, 1983], [2, 1984, 1984], true, false),
    ([2047, 2047, 2047], [2047, 2047, 2047], false, true),
    ([5, 700, 2046], [6, 701, 2047], true, false),
];

#[test]
fn unions_grow_as_listed(rt: HostRuntime) {
    for (first, second, grows, _) in &PAIRS {
        let before = set_of(first);
        let other = set_of(second);
        let mut both = before;
        let mut both_plain = before;
        let grew = both.union_with(&other);
        let grew_plain = both_plain.union_plain(&other);
        let is_grown = grew == *grows && grew_plain == *grows;
        let is_union = both == both_plain && (both != before) == *grows;
        assert!(rt; is_grown && is_union, "{}", first[0]);
    }
}

/// Whether a set has the ids of two lists alone.
fn has_ids(set: &NameSet, first: &Ids, second: &Ids) -> bool {
    for k in 0..MOST_NAMES {
        let Some(id) = NameId::new(k) else {
            return false;
        };
        if set.holds(id) != (first.contains(&k) || second.contains(&k)) {
            return false;
        }
    }
    true
}

#[test]
fn unions_hold_what_is_listed(rt: HostRuntime) {
    for (first, second, _, _) in &PAIRS {
        let mut both = set_of(first);
        both.union_with(&set_of(second));
        assert!(rt; has_ids(&both, first, second), "{}", first[0]);
    }
}

#[test]
fn sets_meet_as_listed(rt: HostRuntime) {
    for (first, second, _, meets) in &PAIRS {
        let one = set_of(first);
        let other = set_of(second);
        let meet = one.meets(&other) == *meets && one.meets_plain(&other) == *meets;
        assert!(rt; meet, "{}", first[0]);
    }
}

/// Adds some texts.
pub fn add_all(names: &mut Names, texts: &[&str]) -> Result<(), NamesFault> {
    for text in texts {
        names.add(text)?;
    }
    Ok(())
}

/// Adds a text that ends in a number, and answers with its place.
fn add_numbered(
    names: &mut Names,
    alloc: Global,
    prefix: &str,
    number: usize,
) -> Result<usize, NamesFault> {
    match format!(in alloc; "{prefix}{number}") {
        Ok(text) => Ok(names.add(text.as_str())?.index()),
        Err(_) => Err(NamesFault::Memory),
    }
}

/// Adds texts that end in the numbers below `count`, and answers whether each is put at the end of the table.
fn fill(names: &mut Names, alloc: Global, prefix: &str, count: usize) -> Result<bool, NamesFault> {
    for number in 0..count {
        let end = names.len();
        if add_numbered(names, alloc, prefix, number)? != end {
            return Ok(false);
        }
    }
    Ok(true)
}

/// The numbers of texts that are added to a full table, and what is answered.
static ADDED: [(usize, Result<usize, NamesFault>); 3] = [
    (2048, Err(NamesFault::Full)),
    (2047, Ok(2047)),
    (0, Ok(0)),
];

#[test]
fn a_table_takes_2048_texts(rt: HostRuntime) {
    let mut names = Names::new(rt.alloc());
    assert!(rt; fill(&mut names, rt.alloc(), "name", MOST_NAMES).expect(&rt, "room"));
    assert!(rt; names.len() == 2048);
    for (number, index) in &ADDED {
        let added = add_numbered(&mut names, rt.alloc(), "name", *number);
        assert!(rt; added == *index && names.len() == 2048, "at {number}");
    }
}

static FOUND: [(&str, usize); 5] = [
    ("name", NO_ID),
    ("name1", 1),
    ("name10", 10),
    ("name2048", NO_ID),
    ("", NO_ID),
];

#[test]
fn texts_are_found_by_all_their_bytes(rt: HostRuntime) {
    let mut names = Names::new(rt.alloc());
    assert!(rt; fill(&mut names, rt.alloc(), "name", MOST_NAMES).expect(&rt, "room"));
    for (text, index) in &FOUND {
        assert!(rt; names.find(text) == NameId::new(*index), "at {text}");
    }
}

/// The ids of the texts that are in the table.
fn chosen(names: &Names, texts: &[&str]) -> NameSet
    ensures { (id : ℕ) → Holds result id → id < length names.now }
{
    let mut set = NameSet::empty();
    for text in texts {
        if let Some(id) = names.find(text) {
            set.add(id);
        }
    }
    set
}

/// Two sets of names, and the text of the least name in both. The empty text is no name.
static SHARED: [([&str; 3], [&str; 3], &str); 7] = [
    (["", "", ""], ["", "", ""], ""),
    (["pear", "fig", ""], ["apple", "", ""], ""),
    (["pear", "fig", ""], ["fig", "pear", ""], "fig"),
    (["pear", "apple", "app"], ["app", "apple", "pear"], "app"),
    (["é", "zoo", ""], ["é", "zoo", ""], "zoo"),
    (["zoo", "é", "Fig"], ["Fig", "zoo", ""], "Fig"),
    (["zoo", "599", "57"], ["599", "zoo", "58"], "599"),
];

/// Whether the least common name of two sets of names is the one with this text.
fn is_least(names: &Names, first: &[&str], second: &[&str], least: &str) -> bool {
    chosen(names, first).least_common(&chosen(names, second), names) == names.find(least)
}

#[test]
fn the_least_common_name_is_the_least_text(rt: HostRuntime) {
    let mut names = Names::new(rt.alloc());
    let some = ["pear", "apple", "fig", "app", "é", "zoo", "Fig"];
    assert!(rt; add_all(&mut names, &some).is_ok());
    assert!(rt; fill(&mut names, rt.alloc(), "", 600).expect(&rt, "room"));
    for (first, second, least) in &SHARED {
        assert!(rt; is_least(&names, first, second, least), "{least}");
    }
}

/// Whether one text of a table is before another, where both are there and the first is what its id stands for.
fn is_before(names: &Names, first: &str, second: &str) -> Option<bool> {
    let a = names.find(first)?;
    let b = names.find(second)?;
    if names.text(a) == first {
        Some(names.before(a, b))
    } else {
        None
    }
}

#[test]
fn texts_come_in_the_order_of_their_bytes(rt: HostRuntime) {
    let mut names = Names::new(rt.alloc());
    assert!(rt; add_all(&mut names, &["b", "a"]).is_ok());
    assert!(rt; is_before(&names, "a", "b") == Some(true));
    assert!(rt; is_before(&names, "b", "a") == Some(false));
    assert!(rt; is_before(&names, "b", "b") == Some(false));
}

/// Takes what threads may share.
fn crosses_threads<T: Send + Sync>(_value: &T) {}

#[test]
fn threads_may_share_each_type(rt: HostRuntime) {
    let names = Names::new(rt.alloc());
    crosses_threads(&names);
    crosses_threads(&NameSet::empty());
    crosses_threads(&names.find("a"));
    crosses_threads(&NamesFault::Full);
}
