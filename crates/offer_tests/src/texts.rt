//! Two versions of a small program, and what they define. Trees are boxed, which makes it cheap to prove whatever owns one.
use c_front::read_text;
use c_types::Typed;
use code_store::StoredBody;
use dsu_io::Boxed;
use installed_versions::Installed;
use name_sets::{NameId, Names};
use std::alloc::Global;
use std::test::Fail;

/// The first version.
pub(crate) const FIRST: &str = "struct s { int a; };
struct s *p;
int g;
int f(int n) { g = n; return n; }
int main(void) { f(1); return 0; }
";

/// A field and a function are added, and a body changes.
pub(crate) const SECOND: &str = "struct s { int a; int b; };
struct s *p;
int g;
int h(void) { return p->b; }
int f(int n) { g = n + 1; return n; }
int main(void) { f(1); return 0; }
";

/// The names in the order of their ids: those of the first version in the order of bytes, then the one of the second.
static NAMES: [&str; 6] = ["f", "g", "main", "p", "struct s", "h"];

/// A function with the version that brings its body.
pub(crate) struct Row(pub &'static str, pub u32);

/// The tree of a text that has no fault.
pub(crate) fn read(alloc: Global, text: &str) -> Result<Boxed<Typed>, Fail> {
    match read_text(alloc, text.as_bytes()) {
        Ok(typed) => Ok(Boxed::of(alloc, typed)?),
        Err(_) => Err(Fail::new("the text has a fault")),
    }
}

/// The first version of a text that has one.
pub(crate) fn first_of(alloc: Global, text: &Typed) -> Result<Installed, Fail> {
    match Installed::first(alloc, text) {
        Ok(installed) => Ok(installed),
        Err(_) => Err(Fail::new("the text has no first version")),
    }
}

/// Whether a table has the first so many of the names, and no others.
pub(crate) fn has_names(names: &Names, many: usize) -> bool {
    for (index, name) in NAMES.iter().take(many).enumerate() {
        if names.find(name) != NameId::new(index) {
            return false;
        }
    }
    names.len() == many
}

/// Whether bodies are as rows have them.
pub(crate) fn has_bodies(names: &Names, bodies: &[StoredBody], rows: &[Row]) -> bool {
    for (body, row) in bodies.iter().zip(rows) {
        if names.find(row.0) != Some(body.function) || body.generation != row.1 {
            return false;
        }
    }
    bodies.len() == rows.len()
}
