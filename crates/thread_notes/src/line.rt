//! The line of a call.
use crate::calls::{Call, Standing};
use crate::places::Places;
use crate::source::Source;
use dsu_report::place_of;
use itoa::Buffer;
use std::alloc::{AllocError, Global};

/// The line of a call: how it goes on, where that is, in which function and in which version.
pub(crate) fn call_line(
    alloc: Global,
    sources: &[Source<'_>],
    places: &Places,
    call: Call<'_>,
) -> Result<Vec<u8>, AllocError> {
    let mut line = Vec::new(alloc);
    line.extend_from_slice(lead(call.standing))?;
    if call.standing != Standing::Entering {
        add_point(&mut line, sources, places, call)?;
    }
    line.extend_from_slice(call.function.as_bytes())?;
    line.extend_from_slice(b", version ")?;
    add_number(&mut line, call.version)?;
    Ok(line)
}

/// What the line of a call begins with.
fn lead(standing: Standing) -> &'static [u8] {
    match standing {
        Standing::At => b"at ",
        Standing::After => b"after ",
        Standing::Entering => b"entering ",
        Standing::Calling => b"called from ",
    }
}

/// Adds the place of a call's point, if it is known.
fn add_point(
    line: &mut Vec<u8>,
    sources: &[Source<'_>],
    places: &Places,
    call: Call<'_>,
) -> Result<(), AllocError> {
    let Some(source) = sources.get(call.text) else {
        return Ok(());
    };
    match places.at(call.text, call.function, call.point) {
        Some(at) => add_place(line, *source, at),
        None => Ok(()),
    }
}

/// Adds a place of a text, if the text has it.
fn add_place(line: &mut Vec<u8>, source: Source<'_>, at: usize) -> Result<(), AllocError> {
    if at > source.bytes.len() || at >= u32::MAX as usize {
        return Ok(());
    }
    let place = place_of(source.bytes, at);
    line.extend_from_slice(source.file.as_bytes())?;
    line.push(b':')?;
    add_number(line, place.line as usize)?;
    line.push(b':')?;
    add_number(line, place.column as usize)?;
    line.extend_from_slice(b" in ")
}

/// Adds a number.
pub(crate) fn add_number(line: &mut Vec<u8>, number: usize) -> Result<(), AllocError> {
    let mut digits = Buffer::new();
    line.extend_from_slice(digits.format(number).as_bytes())
}
