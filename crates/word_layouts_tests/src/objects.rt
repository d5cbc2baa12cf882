//! Objects over versions.
ghost use Rattle.std.specs.Prelude.{◌<◌, ◌≤◌, length};
ghost use Rattle.versioned_structs.specs.Limits.{most_fields};

use c_front::read_text;
use c_ints::Kind;
use c_types::Typed;
use constant_values::ValueKind;
use dsu_io::Text;
use name_sets::NameId;
use object_store::{MOST_FIELDS, Object};
use std::alloc::{AllocError, Global};
use std::test::Fail;
use type_transformers::transforms;
use word_layouts::{Layout, WordLayouts, prepare};

/// `s` is changed twice, goes, and comes back; `t` is new in the third text, and stays as it is.
static TEXTS: [&str; 5] = [
    "struct s { int a; struct s *p; }; int main(void) { return 0; }",
    "struct s { long a; struct s *p; int c; }; int main(void) { return 0; }
    dsu_transform struct s { a = old.a + 1; c = old.p == NULL ? 5 : 3; }",
    "struct s { struct s *p; long a; int c; long d; }; struct t { long x; }; int main(void) { return 0; }
    dsu_transform struct s { d = old.a * 2 - old.c; }",
    "struct t { long x; }; int main(void) { return 0; }",
    "struct s { int z; struct s *p; }; struct t { long x; }; int main(void) { return 0; }",
];

/// The numbers of the tags.
const S: usize = 0;

const T: usize = 1;

/// The handle of some object.
const HANDLE: u64 = 0x1_0000_0002;

/// The word of the long -5.
const MINUS_FIVE: u64 = 0xffff_ffff_ffff_fffb;

const INT: ValueKind = ValueKind::Number(Kind::I32);

const LONG: ValueKind = ValueKind::Number(Kind::I64);

const REFERENCE: ValueKind = ValueKind::Reference;

fn read(alloc: Global, text: &str) -> Result<Typed, Fail> {
    match read_text(alloc, text.as_bytes()) {
        Ok(typed) => Ok(typed),
        Err(_) => Err(Fail::new("a text has a fault")),
    }
}

fn read_all(alloc: Global) -> Result<Vec<Typed>, Fail> {
    let mut texts = Vec::new(alloc);
    for text in &TEXTS {
        texts.push(read(alloc, *text)?)?;
    }
    Ok(texts)
}

/// The layout of a struct with fields of these kinds.
fn layout(alloc: Global, tag: &str, kinds: &[ValueKind]) -> Result<Option<Layout>, AllocError>
    requires { length kinds.now ≤ most_fields }
{
    Ok(Some(Layout {
        tag: Text::of(alloc, tag)?,
        kinds: Vec::from_slice(alloc, kinds)?,
    }))
}

/// The layout of `s` in the text with a number.
fn layout_of_s(alloc: Global, number: usize) -> Result<Option<Layout>, AllocError> {
    match number {
        0 | 4 => layout(alloc, "s", &[INT, REFERENCE]),
        1 => layout(alloc, "s", &[LONG, REFERENCE, INT]),
        2 => layout(alloc, "s", &[REFERENCE, LONG, INT, LONG]),
        _ => Ok(None),
    }
}

/// The layout of `t` in the text with a number.
fn layout_of_t(alloc: Global, number: usize) -> Result<Option<Layout>, AllocError> {
    if number >= 2 {
        layout(alloc, "t", &[LONG])
    } else {
        Ok(None)
    }
}

/// The layouts of the text with a number.
fn table(alloc: Global, number: usize) -> Result<Vec<Option<Layout>>, AllocError> {
    let mut table = Vec::new(alloc);
    table.push(layout_of_s(alloc, number)?)?;
    table.push(layout_of_t(alloc, number)?)?;
    Ok(table)
}

/// Adds what the text with a number changes, which follows that before it, as the newest version.
fn add(alloc: Global, texts: &[Typed], number: usize, layouts: &mut WordLayouts) -> Result<(), Fail>
    requires { 0 < number }
{
    let (Some(old), Some(new)) = (texts.get(number - 1), texts.get(number)) else {
        return Err(Fail::new("a text isn't there"));
    };
    let Ok(changes) = transforms(alloc, old, new) else {
        return Err(Fail::new("a transformer has a fault"));
    };
    let old = table(alloc, number - 1)?;
    let new = table(alloc, number)?;
    let prepared = prepare(alloc, old.as_slice(), new.as_slice(), changes.as_slice())?;
    layouts.add(prepared)?;
    Ok(())
}

/// The changes of the structs over all texts.
fn layouts(alloc: Global) -> Result<WordLayouts, Fail> {
    let texts = read_all(alloc)?;
    let mut layouts = WordLayouts::new(alloc);
    for number in 1..TEXTS.len() {
        add(alloc, texts.as_slice(), number, &mut layouts)?;
    }
    Ok(layouts)
}

/// An object's words, the first four of which may be others than 0.
fn words(first: [u64; 4]) -> [u64; MOST_FIELDS] {
    let [a, b, c, d] = first;
    [a, b, c, d, 0, 0, 0, 0, 0, 0, 0, 0, 0, 0, 0, 0]
}

/// Whether an object of `s` of a version has these words when it is brought to a later one.
fn becomes(layouts: &WordLayouts, made: u32, old: [u64; 4], version: u32, new: [u64; 4]) -> bool
    requires { made ≤ version }
{
    one_becomes(layouts, S, made, old, version, new)
}

/// Whether an object of the struct with a tag does.
fn one_becomes(
    layouts: &WordLayouts,
    tag: usize,
    made: u32,
    old: [u64; 4],
    version: u32,
    new: [u64; 4],
) -> bool
    requires { made ≤ version }
{
    let Some(tag) = NameId::new(tag) else {
        return false;
    };
    let mut object = Object {
        tag,
        layout: made,
        fields: words(old),
    };
    layouts.bring(&mut object, version);
    object.layout == version && object.fields == words(new)
}

#[test]
fn objects_of_each_version_come_to_the_newest_layout(rt: HostRuntime) -> Result<(), Fail> {
    let layouts = layouts(rt.alloc())?;
    assert!(rt; becomes(&layouts, 0, [7, 0, 0, 0], 1, [8, 0, 5, 0]));
    assert!(rt; becomes(&layouts, 0, [7, HANDLE, 0, 0], 2, [HANDLE, 8, 3, 13]));
    assert!(rt;
        becomes(
            &layouts,
            1,
            [0, HANDLE, 5, 0],
            2,
            [HANDLE, 0, 5, MINUS_FIVE]
        )
    );
    assert!(rt; becomes(&layouts, 2, [HANDLE, 1, 2, 3], 2, [HANDLE, 1, 2, 3]));
    Ok(())
}

#[test]
fn a_struct_that_came_back_has_zeros(rt: HostRuntime) -> Result<(), Fail> {
    let layouts = layouts(rt.alloc())?;
    assert!(rt; becomes(&layouts, 2, [HANDLE, 1, 2, 3], 3, [HANDLE, 1, 2, 3]));
    assert!(rt; becomes(&layouts, 2, [HANDLE, 1, 2, 3], 4, [0, 0, 0, 0]));
    assert!(rt; becomes(&layouts, 0, [7, HANDLE, 0, 0], 4, [0, 0, 0, 0]));
    assert!(rt; becomes(&layouts, 4, [5, HANDLE, 0, 0], 4, [5, HANDLE, 0, 0]));
    Ok(())
}

#[test]
fn a_struct_that_stays_keeps_its_words(rt: HostRuntime) -> Result<(), Fail> {
    let layouts = layouts(rt.alloc())?;
    assert!(rt; one_becomes(&layouts, T, 2, [6, 0, 0, 0], 4, [6, 0, 0, 0]));
    assert!(rt; one_becomes(&layouts, T, 0, [6, 0, 0, 0], 1, [6, 0, 0, 0]));
    assert!(rt; one_becomes(&layouts, T, 0, [6, 0, 0, 0], 4, [0, 0, 0, 0]));
    Ok(())
}
