//! The line of a text with a place, and the caret below its column.
ghost use Rattle.std.specs.Prelude.{◌≤◌, length};

use std::alloc::{AllocError, Global};

/// The line of a text with a place, as it is shown, and the line with the caret below the place.
#[derive(Drop)]
pub struct Excerpt {
    pub line: Vec<u8>,
    pub caret: Vec<u8>,
}

/// The line of a text with a byte, or with its end, and the caret below it. Of a long line a part is shown.
pub fn excerpt_of(alloc: Global, text: &[u8], at: usize) -> Result<Excerpt, AllocError> {
    let part = part_at(text, at);
    let line = line_of(alloc, part)?;
    let caret = caret_of(alloc, part)?;
    Ok(Excerpt { line, caret })
}

/// The part of a line that is shown, and how many of its bytes come before the place.
#[derive(Clone, Copy)]
struct Part<'a> {
    bytes: &'a [u8],
    before: usize,
    /// Whether bytes of the line aren't shown, before the part and after it.
    is_cut_left: bool,
    is_cut_right: bool,
}

/// What is shown for bytes that are left out.
const CUT: &[u8] = b"..";

/// At most so many bytes of the line before the place are shown, and at most so many from it on.
const MOST_BEFORE: usize = 80;

const MOST_AFTER: usize = 60;

/// Where the line of a place begins.
fn line_start(text: &[u8], at: usize) -> usize
    requires { at ≤ length text.now }
    ensures { result ≤ at }
{
    for back in 0..at {
        let after = at - back;
        if text[after - 1] == b'\n' {
            return after;
        }
    }
    0
}

/// Where it ends.
fn line_end(text: &[u8], at: usize) -> usize
    requires { at ≤ length text.now }
    ensures within { result ≤ length text.now }
    ensures after { at ≤ result }
{
    for place in at..text.len() {
        if text[place] == b'\n' {
            return place;
        }
    }
    text.len()
}

/// The part of the line of a place that is shown.
fn part_at(text: &[u8], at: usize) -> Part<'_> {
    let at = at.min(text.len());
    let start = line_start(text, at);
    let end = line_end(text, at);
    let from = start.max(at.saturating_sub(MOST_BEFORE));
    let to = end.min(at.saturating_add(MOST_AFTER));
    Part {
        bytes: &text[from..to],
        before: at - from,
        is_cut_left: from > start,
        is_cut_right: to < end,
    }
}

/// The line of the text as it is shown.
fn line_of(alloc: Global, part: Part<'_>) -> Result<Vec<u8>, AllocError> {
    let mut line = Vec::new(alloc);
    if part.is_cut_left {
        line.extend_from_slice(CUT)?;
    }
    line.extend_from_slice(part.bytes)?;
    if part.is_cut_right {
        line.extend_from_slice(CUT)?;
    }
    Ok(line)
}

/// The line with the caret: a blank for each character before it, and a tab for each tab.
fn caret_of(alloc: Global, part: Part<'_>) -> Result<Vec<u8>, AllocError> {
    let mut line = Vec::new(alloc);
    if part.is_cut_left {
        line.extend_from_slice(b"  ")?;
    }
    for place in 0..part.before.min(part.bytes.len()) {
        add_blank(&mut line, part.bytes[place])?;
    }
    line.push(b'^')?;
    Ok(line)
}

/// Adds what is below a byte. The further bytes of a UTF-8 character take no column.
fn add_blank(line: &mut Vec<u8>, above: u8) -> Result<(), AllocError> {
    if above == b'\t' {
        line.push(b'\t')?;
    } else if above & 0xC0 != 0x80 {
        line.push(b' ')?;
    }
    Ok(())
}
