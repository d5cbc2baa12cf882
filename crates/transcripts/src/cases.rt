//! The lines of a file of cases.

use crate::calls::{Seen, see, words_of};
use crate::fault::Fault;
use crate::page::{quote, show};
use crate::replays::{has_journal, show_run};
use crate::stage::Stage;
use dsu_io::Text;
use std::alloc::{AllocError, Global};

/// How the lines of a file's text are indented.
const INDENT: &str = "    ";

/// Adds the transcript of some cases to a page. A fault comes with the number of its line, from 1.
pub(crate) fn transcribe(
    alloc: Global,
    cases: &str,
    page: &mut Vec<u8>,
) -> Result<(), (u32, Fault)> {
    let mut stage = Stage::new(alloc);
    let end = turns(alloc, cases, &mut stage, page);
    drop(stage);
    end
}

/// Copies each line, and does what it says, up to the first that is wrong.
fn turns(
    alloc: Global,
    cases: &str,
    stage: &mut Stage,
    page: &mut Vec<u8>,
) -> Result<(), (u32, Fault)> {
    let mut number = 0u32;
    for line in cases.lines() {
        number = number.saturating_add(1);
        if let Err(fault) = turn(alloc, line, stage, page) {
            return Err((number, fault));
        }
    }
    Ok(())
}

/// Copies a line, and does what it says.
fn turn(alloc: Global, line: &str, stage: &mut Stage, page: &mut Vec<u8>) -> Result<(), Fault> {
    page.extend_from_slice(line.as_bytes())?;
    page.push(b'\n')?;
    match line.strip_prefix(INDENT) {
        Some(text) => stage.add_line(text),
        None => obey(alloc, line, stage, page),
    }
}

/// Does what a line that isn't indented says.
fn obey(alloc: Global, line: &str, stage: &mut Stage, page: &mut Vec<u8>) -> Result<(), Fault> {
    let (word, rest) = cut(line);
    let (name, more) = cut(rest);
    match word {
        "" if rest.is_empty() => Ok(()),
        "//" => Ok(()),
        "#" => {
            stage.clear();
            Ok(())
        }
        "text" => make(alloc, name, more, stage),
        "file" => make(alloc, rest, "", stage),
        "repeat" => repeat(alloc, name, more, stage),
        "pad" => pad(alloc, name, more, stage),
        "fail" => hinder(name, more, stage),
        "room" => hinder(word, rest, stage),
        "$" if name == "ginseng" => {
            call(alloc, more, stage, page)?;
            Ok(())
        }
        _ => Err(Fault::Line),
    }
}

/// The text before the first blank, and what comes after it.
fn cut(text: &str) -> (&str, &str) {
    match text.split_once(' ') {
        Some(parts) => parts,
        None => (text, ""),
    }
}

fn number_of(text: &str) -> Result<usize, Fault> {
    match text.parse::<usize>() {
        Ok(number) => Ok(number),
        Err(_) => Err(Fault::Number),
    }
}

/// Makes a file.
fn make(alloc: Global, name: &str, text: &str, stage: &mut Stage) -> Result<(), Fault> {
    let text = text.as_bytes().to_vec(alloc)?;
    stage.set(alloc, name, text)?;
    Ok(())
}

/// Has something fail in the next call.
fn hinder(what: &str, number: &str, stage: &mut Stage) -> Result<(), Fault> {
    let number = number_of(number)?;
    stage.hinder(what, number)
}

/// Adds copies of a file to another. `rest` has how many, and the name of the file.
fn repeat(alloc: Global, name: &str, rest: &str, stage: &mut Stage) -> Result<(), Fault> {
    let (times, other) = cut(rest);
    let times = number_of(times)?;
    let text = stage.with_copies(alloc, name, times, other)?;
    stage.set(alloc, name, text)?;
    Ok(())
}

/// Adds blanks to a file.
fn pad(alloc: Global, name: &str, bytes: &str, stage: &mut Stage) -> Result<(), Fault> {
    let bytes = number_of(bytes)?;
    let text = stage.padded(alloc, name, bytes)?;
    stage.set(alloc, name, text)?;
    Ok(())
}

/// Makes a call, and adds what it came to.
fn call(
    alloc: Global,
    line: &str,
    stage: &mut Stage,
    page: &mut Vec<u8>,
) -> Result<(), AllocError> {
    let words = words_of(alloc, line)?;
    let seen = see(alloc, &words, stage)?;
    stage.calm();
    let end = show_call(alloc, &words, &seen, stage, page);
    drop(seen);
    end
}

/// Adds what a call came to, and of a run whose journal was printed how its replay went.
fn show_call(
    alloc: Global,
    words: &[Text],
    seen: &Seen,
    stage: &mut Stage,
    page: &mut Vec<u8>,
) -> Result<(), AllocError> {
    quote(b"| ", seen.outcome.out.bytes(), page)?;
    if has_journal(words) && seen.outcome.ending.is_some() {
        show_run(alloc, words, seen, stage, page)
    } else {
        show(alloc, seen, page)
    }
}
