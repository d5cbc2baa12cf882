//! Which lines of a run's report get notes.
use noted_reports::interleave;
use std::alloc::{AllocError, Global};

/// A report, how many notes there are for it, and the text with them.
type Row = (&'static str, usize, &'static str);

const NOTE: &[u8] = b"#   n\n";

static ROWS: [Row; 7] = [
    ("", 2, ""),
    ("# finished 0\n", 1, "# finished 0\n"),
    (
        "ginseng-journal 1\ns 0\n# offer 1 not offered\n# offer 2 withdrawn\n# trap null thread 0\n",
        3,
        "ginseng-journal 1\ns 0\n# offer 1 not offered\n#   n\n# offer 2 withdrawn\n#   n\n# trap null thread 0\n#   n\n",
    ),
    (
        "# offer 1 withdrawn\n# offer 2 withdrawn\n# cut\n",
        2,
        "# offer 1 withdrawn\n#   n\n# offer 2 withdrawn\n#   n\n# cut\n",
    ),
    (
        "# deadlock\n# thread 0 waits for thread 1\n# thread 1 waits for mutex m held by 0\n",
        9,
        "# deadlock\n# thread 0 waits for thread 1\n#   n\n# thread 1 waits for mutex m held by 0\n#   n\n",
    ),
    ("# cut\n", 1, "# cut\n#   n\n"),
    ("\n# cut", 1, "\n# cut"),
];

/// So many notes.
fn notes(alloc: Global, count: usize) -> Result<Vec<Vec<u8>>, AllocError> {
    let mut notes = Vec::new(alloc);
    for _ in 0..count {
        notes.push(NOTE.to_vec(alloc)?)?;
    }
    Ok(notes)
}

/// Whether a report gets its notes as listed.
fn is_as_listed(alloc: Global, row: &Row) -> Result<bool, AllocError> {
    let (report, count, text) = *row;
    let notes = notes(alloc, count)?;
    let noted = interleave(alloc, report.as_bytes(), &notes)?;
    Ok(noted.as_slice() == text.as_bytes())
}

#[test]
fn notes_come_after_the_lines_that_may_have_some(rt: HostRuntime) {
    for row in &ROWS {
        let is_right = is_as_listed(rt.alloc(), row).expect(&rt, "memory");
        assert!(rt; is_right, "{}", row.0);
    }
}
