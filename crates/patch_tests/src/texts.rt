//! Texts that have no fault. Their trees are boxed, which makes it cheap to prove whatever owns one.
use c_front::read_text;
use c_types::Typed;
use dsu_io::Boxed;
use std::alloc::Global;
use std::test::Fail;

/// The tree of a text.
pub(crate) fn read(alloc: Global, text: &str) -> Result<Boxed<Typed>, Fail> {
    match read_text(alloc, text.as_bytes()) {
        Ok(typed) => Ok(Boxed::of(alloc, typed)?),
        Err(_) => Err(Fail::new("a text has a fault")),
    }
}

/// The tree of a text that lacks a `main`, with one at its end.
pub(crate) fn read_with_main(alloc: Global, definitions: &str) -> Result<Boxed<Typed>, Fail> {
    let text = format!(in alloc; "{definitions}\nint main(void) {{ return 0; }}\n")?;
    read(alloc, text.as_str())
}
