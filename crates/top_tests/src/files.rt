//! What the calls of `input_files` answer with ample memory, and where a read fails.
use c_front::FaultKind;
use c_types::TypeKind;
use dsu_io::MemoryFiles;
use dsu_report::{FaultLine, LineWord};
use input_files::{Source, TEXT_LIMIT, journal_of, source_of};
use run_types::Event;
use std::alloc::{AllocError, Global};

const RIGHT: &str = "int x;\nint main(void) { return x; }\n";

/// A text and the line of its first fault.
struct Case {
    text: &'static str,
    line: FaultLine,
}

static CASES: [Case; 7] = [
    Case {
        text: "int a;\n\n  @",
        line: FaultLine::Place(3, 3, FaultKind::BadByte),
    },
    Case {
        text: "int x = 08;",
        line: FaultLine::Place(1, 9, FaultKind::BadLiteral),
    },
    Case {
        text: "int x;\n#define A",
        line: FaultLine::Place(2, 1, FaultKind::Directive),
    },
    Case {
        text: "int main(void) {\n  while (",
        line: FaultLine::Place(2, 10, FaultKind::Syntax),
    },
    Case {
        text: "int main(void) {\n  return x;\n}\n",
        line: FaultLine::Place(2, 10, FaultKind::Kind(TypeKind::UnknownName)),
    },
    Case {
        text: "int x;\n",
        line: FaultLine::Place(2, 1, FaultKind::Kind(TypeKind::NoMain)),
    },
    Case {
        text: "",
        line: FaultLine::Place(1, 1, FaultKind::Kind(TypeKind::NoMain)),
    },
];

/// One file in memory, `x`, of which the reads with these numbers fail.
fn files_of(alloc: Global, text: &[u8], failing: &[u64]) -> Result<MemoryFiles, AllocError> {
    let mut held = Vec::new(alloc);
    held.push((String::from_str(alloc, "x")?, text.to_vec(alloc)?))?;
    Ok(MemoryFiles::of(alloc, held, failing.to_vec(alloc)?))
}

/// Whether a source is `RIGHT` with its tree.
fn is_right(source: &Source) -> bool {
    let program = source.typed.program();
    source.text.as_slice() == RIGHT.as_bytes()
        && program.definitions.as_slice().len() == 2
        && program.end == RIGHT.len()
}

/// Whether the program of a file is `RIGHT`, or the line of its fault. All tests ask here: each place at which a tree is dropped
/// is dear to prove.
fn is_right_in(alloc: Global, files: &mut MemoryFiles, name: &str) -> Result<bool, FaultLine> {
    match source_of(alloc, files, name) {
        Ok(source) => {
            let is_right = is_right(&source);
            drop(source);
            Ok(is_right)
        }
        Err(line) => Err(line),
    }
}

/// The line of the fault of a program's text, where it has one.
fn fault_of(alloc: Global, text: &[u8]) -> Result<Option<FaultLine>, AllocError> {
    let mut files = files_of(alloc, text, &[])?;
    let line = is_right_in(alloc, &mut files, "x").err();
    drop(files);
    Ok(line)
}

#[test]
fn a_right_text_is_read_with_its_tree(rt: HostRuntime) -> Result<(), AllocError> {
    let mut files = files_of(rt.alloc(), RIGHT.as_bytes(), &[])?;
    assert!(rt; is_right_in(rt.alloc(), &mut files, "x") == Ok(true));
    Ok(())
}

#[test]
fn a_missing_file_and_a_failed_read_are_unread(rt: HostRuntime) -> Result<(), AllocError> {
    let mut files = files_of(rt.alloc(), RIGHT.as_bytes(), &[2])?;
    assert!(rt; is_right_in(rt.alloc(), &mut files, "y") == Err(FaultLine::Unread));
    assert!(rt; is_right_in(rt.alloc(), &mut files, "x") == Err(FaultLine::Unread));
    assert!(rt; is_right_in(rt.alloc(), &mut files, "x") == Ok(true));
    Ok(())
}

#[test]
fn a_text_has_at_most_its_limit_of_bytes(rt: HostRuntime) -> Result<(), AllocError> {
    let alloc = rt.alloc();
    let mut text = RIGHT.as_bytes().to_vec(alloc)?;
    text.resize(TEXT_LIMIT, b' ')?;
    assert!(rt; fault_of(alloc, &text)?.is_none());
    text.push(b' ')?;
    assert!(rt; fault_of(alloc, &text)? == Some(FaultLine::TooLong));
    Ok(())
}

#[test]
fn the_first_fault_has_its_line_and_column(rt: HostRuntime) -> Result<(), AllocError> {
    for Case { text, line } in &CASES {
        let found = fault_of(rt.alloc(), text.as_bytes())?;
        assert!(rt; found == Some(*line), "{text}");
    }
    Ok(())
}

/// The events of a journal's file, or the line of its fault.
fn events_in(
    alloc: Global,
    files: &mut MemoryFiles,
    name: &str,
) -> Result<Vec<(u32, Event)>, FaultLine> {
    journal_of(alloc, files, name)
}

/// The same of a text.
fn events_of(alloc: Global, text: &[u8]) -> Result<Vec<(u32, Event)>, FaultLine> {
    let Ok(mut files) = files_of(alloc, text, &[]) else {
        return Err(FaultLine::Memory);
    };
    let events = events_in(alloc, &mut files, "x");
    drop(files);
    events
}

#[test]
fn events_have_the_numbers_of_their_lines(rt: HostRuntime) {
    let text = b"ginseng-journal 1\ns 0\n# a comment\no 1\n";
    let wanted = [(2, Event::Move(0)), (4, Event::Offer(1))];
    let events = events_of(rt.alloc(), text);
    assert!(rt; matches!(&events, Ok(events) if events.as_slice() == wanted.as_slice()));
}

/// Texts that are no journal, and the lines of their faults.
static NO_JOURNALS: [(&str, FaultLine); 3] = [
    ("", FaultLine::Line(1, LineWord::Header)),
    (RIGHT, FaultLine::Line(1, LineWord::Header)),
    (
        "ginseng-journal 1\ns 0\n#\ns 16\n",
        FaultLine::Line(4, LineWord::NoEvent),
    ),
];

#[test]
fn other_texts_have_the_line_of_their_fault(rt: HostRuntime) -> Result<(), AllocError> {
    for (text, line) in &NO_JOURNALS {
        let fault = events_of(rt.alloc(), text.as_bytes()).err();
        assert!(rt; fault == Some(*line), "{text}");
    }
    let mut files = files_of(rt.alloc(), b"", &[])?;
    let missing = events_in(rt.alloc(), &mut files, "y").err();
    assert!(rt; missing == Some(FaultLine::Unread));
    Ok(())
}
