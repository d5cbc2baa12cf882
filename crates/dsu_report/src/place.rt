//! A byte's place, by line and column.
ghost use Rattle.std.specs.Prelude.{◌≡◌, ◌<◌, ◌≤◌, ◌+◌, ◌-◌, ◌^◌, length};
ghost use Rattle.dsu_report.specs.Places.{line_at, column_at};

/// A place in a text as a reader counts it, from 1. A line ends after its newline, and a column counts
/// bytes.
#[derive(Clone, Copy, Debug, PartialEq, Eq)]
pub struct Place {
    pub line: u32,
    pub column: u32,
}

/// The line and the column of a byte, or of the end of the text. Both fit, as the place does.
pub fn place_of(text: &[u8], at: usize) -> Place
    requires within { at ≤ length text.now }
    requires fits { at < 2 ^ 32 - 1 }
    ensures line { result.line ≡ line_at text.now at }
    ensures column { result.column ≡ column_at text.now at }
{
    let (line, column) = counted(text, at);
    Place {
        line: line as u32,
        column: column as u32,
    }
}

/// The line and the column of a byte. A place past the end is counted as one in the last line.
pub fn line_and_column(text: &[u8], at: usize) -> (usize, u128)
    ensures line { result.0 ≡ line_at text.now at }
    ensures column { result.1 ≡ column_at text.now at }
{
    if at <= text.len() {
        let (line, column) = counted(text, at);
        (line, column as u128)
    } else {
        past_the_end(text, at)
    }
}

/// The line and the column of a place past the end.
fn past_the_end(text: &[u8], at: usize) -> (usize, u128)
    requires { length text.now < at }
    ensures line { result.0 ≡ line_at text.now at }
    ensures column { result.1 ≡ column_at text.now at }
{
    let end = text.len();
    let (line, column) = counted(text, end);
    (line, column as u128 + (at - end) as u128)
}

/// The line and the column of a byte, or of the end of the text, in numbers that hold any.
fn counted(text: &[u8], at: usize) -> (usize, usize)
    requires within { at ≤ length text.now }
    ensures line { result.0 ≡ line_at text.now at }
    ensures column { result.1 ≡ column_at text.now at }
    ensures few_lines { result.0 ≤ at + 1 }
    ensures few_columns { result.1 ≤ at + 1 }
{
    let mut line = 1;
    let mut column = 1;
    for byte in &text[..at] {
        if *byte == b'\n' {
            line += 1;
            column = 1;
        } else {
            column += 1;
        }
    }
    (line, column)
}
