//! Each cause alone for which a text is no patch, and two at once.
use crate::texts::{FIRST, first_of, read};
use c_types::Typed;
use code_store::{MOST_FUNCTION_TOKENS, Store, StoredBody};
use dsu_io::Boxed;
use itoa::Buffer;
use name_sets::{MOST_NAMES, NameId, Names};
use patch_build::{MOST_VERSIONS, Patch, PatchFault, Versions, prepare};
use skeletons::{Point, Skeleton};
use source_model::NotPatch;
use std::alloc::Global;
use std::test::Fail;

/// The tokens that a store has room for.
const MOST_TOKENS: u32 = MOST_FUNCTION_TOKENS as u32;

/// A function with a new name is added, and no more.
const ADDED: &str = "struct s { int a; };
struct s *p;
int g;
int h(void) { return 0; }
int f(int n) { g = n; return n; }
int main(void) { f(1); return 0; }
";

/// A variable becomes a function, and a function with a new name is added.
const OTHER_KIND: &str = "struct s { int a; };
struct s *p;
int g(void) { return 0; }
int h(void) { return 0; }
int f(int n) { return n; }
int main(void) { f(1); return 0; }
";

/// A transformer of a variable whose type doesn't change.
const NO_CHANGE: &str = "struct s { int a; };
struct s *p;
int g;
dsu_transform g = old + 1;
int f(int n) { g = n; return n; }
int main(void) { f(1); return 0; }
";

/// A variable becomes a function, and a transformer fits nothing.
const KIND_AND_TRANSFORM: &str = "struct s { int a; };
dsu_transform struct s { a = old.a; }
struct s *p;
int g(void) { return 0; }
int f(int n) { return n; }
int main(void) { f(1); return 0; }
";

/// What comes of an offer.
#[derive(Clone, Copy, PartialEq, Eq)]
enum Answer {
    Patch,
    Versions,
    Names,
    /// The kind of `g` changes.
    KindOfG,
    /// The kind of another name changes.
    Kind,
    /// The place of the fault.
    Transform(usize),
    StoreFull,
    UndefinedName,
    Memory,
}

/// An offer after the first version: how many versions there are, how many names the table has at least (those of the first
/// version among them), how many tokens the store has, the text, and what comes of it.
type Offer = (u32, usize, u32, &'static str, Answer);

static NO_CAUSE: [Offer; 6] = [
    (1, 0, 30, FIRST, Answer::Patch),
    (1, 0, 30, ADDED, Answer::Patch),
    (MOST_VERSIONS - 1, 0, 30, ADDED, Answer::Patch),
    (1, MOST_NAMES - 1, 30, ADDED, Answer::Patch),
    (1, MOST_NAMES, 30, FIRST, Answer::Patch),
    (1, 0, MOST_TOKENS, FIRST, Answer::Patch),
];

static ALONE: [Offer; 5] = [
    (MOST_VERSIONS, 0, 30, FIRST, Answer::Versions),
    (1, MOST_NAMES, 30, ADDED, Answer::Names),
    (1, 0, 30, OTHER_KIND, Answer::KindOfG),
    (1, 0, 30, NO_CHANGE, Answer::Transform(41)),
    (1, 0, MOST_TOKENS, ADDED, Answer::StoreFull),
];

static TWO: [Offer; 5] = [
    (MOST_VERSIONS, MOST_NAMES, 30, ADDED, Answer::Versions),
    (MOST_VERSIONS, 0, 30, OTHER_KIND, Answer::Versions),
    (1, MOST_NAMES, 30, OTHER_KIND, Answer::Names),
    (1, 0, 30, KIND_AND_TRANSFORM, Answer::KindOfG),
    (1, 0, MOST_TOKENS, NO_CHANGE, Answer::Transform(41)),
];

/// The names of the first version, and others until there are so many.
fn names_with(alloc: Global, first: &Typed, many: usize) -> Result<Boxed<Names>, Fail> {
    let mut names = first_of(alloc, first)?.into_names();
    for n in 0..many {
        if names.len() < many {
            let _ = names.add(Buffer::new().format(n));
        }
    }
    let names = Boxed::of(alloc, names)?;
    if names.get().len() < many {
        return Err(Fail::new("a name has no room"));
    }
    Ok(names)
}

/// A store of one body, which has no points and so many tokens.
fn store_of(alloc: Global, tokens: u32) -> Result<Boxed<Store>, Fail> {
    let function = NameId::new(0).ok_or("an id")?;
    let points: Vec<Point> = Vec::new(alloc);
    let next = Vec::new(alloc);
    let body = StoredBody {
        function,
        generation: 1,
        tokens,
        skeleton: Skeleton { points, next },
    };
    let mut store = Store::new(alloc);
    let added = store.add(body).is_ok();
    let store = Boxed::of(alloc, store)?;
    if !added {
        return Err(Fail::new("the body has no room"));
    }
    Ok(store)
}

fn answer_of(answer: &Result<Patch, PatchFault>) -> Answer {
    match answer {
        Ok(_) => Answer::Patch,
        Err(PatchFault::Memory) => Answer::Memory,
        Err(PatchFault::UndefinedName) => Answer::UndefinedName,
        Err(PatchFault::Not(cause)) => match cause {
            NotPatch::Versions => Answer::Versions,
            NotPatch::Names => Answer::Names,
            NotPatch::Kind(name) if name.as_str() == "g" => Answer::KindOfG,
            NotPatch::Kind(_) => Answer::Kind,
            NotPatch::Transform(place) => Answer::Transform(*place),
            NotPatch::StoreFull => Answer::StoreFull,
        },
    }
}

/// What comes of an offer after the first version.
fn answer_to(alloc: Global, first: &Typed, offer: &Offer) -> Result<Answer, Fail> {
    let (count, names, tokens, text, _) = *offer;
    let new = read(alloc, text)?;
    let names = names_with(alloc, first, names)?;
    let store = store_of(alloc, tokens)?;
    let versions = Versions {
        count,
        names: names.get(),
        store: store.get(),
        last: first,
    };
    let answer = prepare(alloc, versions, new.get());
    let found = answer_of(&answer);
    drop(answer);
    Ok(found)
}

/// Whether each offer gets its answer.
fn are_answered(alloc: Global, offers: &[Offer]) -> Result<bool, Fail> {
    let first = read(alloc, FIRST)?;
    for offer in offers {
        if answer_to(alloc, first.get(), offer)? != offer.4 {
            return Ok(false);
        }
    }
    Ok(true)
}

#[test]
fn no_cause(rt: HostRuntime) -> Result<(), Fail> {
    assert!(rt; are_answered(rt.alloc(), &NO_CAUSE)?);
    Ok(())
}

#[test]
fn each_alone(rt: HostRuntime) -> Result<(), Fail> {
    assert!(rt; are_answered(rt.alloc(), &ALONE)?);
    Ok(())
}

#[test]
fn the_earlier_of_two(rt: HostRuntime) -> Result<(), Fail> {
    assert!(rt; are_answered(rt.alloc(), &TWO)?);
    Ok(())
}
