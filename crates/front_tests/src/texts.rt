//! Whole texts: a fault of the tokens comes before one of syntax, and that before one of types.
use crate::reading::{Reading, all_are_read, are_read};
use crate::types::typed_shown;
use c_front::{TextFault, read_text};
use c_types::Typed;
use std::alloc::Global;

/// The tree of a text, or its first fault.
pub fn typed_of(alloc: Global, text: &[u8]) -> Result<Typed, TextFault> {
    read_text(alloc, text)
}

/// What is shown of the tree of a text, or its first fault.
pub fn shown(alloc: Global, text: &str) -> Option<String> {
    match typed_of(alloc, text.as_bytes()) {
        Ok(typed) => {
            let shown = typed_shown(alloc, &typed, text.len());
            drop(typed);
            shown
        }
        Err(fault) => format!(in alloc; "{fault:?}").ok(),
    }
}

/// Texts and their first faults.
static FAULTS: [&str; 3] = [
    "\
    int x = 08; => Refused(BadLiteral, 8)¶\
    #define A => Refused(Directive, 0)",
    // A fault of the tokens comes before one of syntax, wherever it stands, and one of syntax before one of types.
    "\
    int 1 /* open => Refused(BadByte, 6)¶\
    int x; int x; int int => Refused(Syntax, 18)¶\
    int main(void) { return 1   => Refused(Syntax, 27)",
    "\
    \x20=> Refused(Kind(NoMain), 0)¶\
    int x;\n // no main\n => Refused(Kind(NoMain), 19)¶\
    int main(void) { return x; } => Refused(Kind(UnknownName), 24)¶\
    int x; int x; int main(void) { return y; } => Refused(Kind(DeclaredTwice), 11)",
];

#[test]
fn the_first_fault_is_answered(rt: HostRuntime) {
    all_are_read(&rt, rt.alloc(), Reading::Text, &FAULTS);
}

/// A text without a fault, whose tree ends where it does.
static RIGHT: &str = "int x = 1; int main(void) { return x; } // end => names: 2, definitions: 2";

#[test]
fn a_right_text_is_read_to_its_end(rt: HostRuntime) {
    are_read(&rt, rt.alloc(), Reading::Text, RIGHT);
}
