//! What is done at each place at which a thread stops, as text.
use code_image::{Act, CodeFunction, CodeImage, StopPlace};
use std::alloc::Global;
use std::test::Fail;
use word_data::SharedStop;

/// A line for each function, with the number of its text, and one for each of its stops: the place, what is done with its number, and where it goes on.
pub(crate) fn acts_of(alloc: Global, image: &CodeImage) -> Result<String, Fail> {
    let mut shown = String::new(alloc);
    for function in image.functions.as_slice() {
        let name = image.word(function.name);
        let text = function.text;
        write!(shown, "{name} {text}\n")?;
        add_stops(&mut shown, function)?;
    }
    Ok(shown)
}

fn add_stops(shown: &mut String, function: &CodeFunction) -> Result<(), Fail> {
    for (place, done) in function.stops.iter().enumerate() {
        if let Some(stop) = *done {
            add_stop(shown, place, stop)?;
        }
    }
    Ok(())
}

fn add_stop(shown: &mut String, place: usize, stop: StopPlace) -> Result<(), Fail> {
    let (name, number) = named(stop.act);
    let after = stop.after;
    write!(shown, "{place} {name} {number} -> {after}\n")?;
    Ok(())
}

/// The name of an act, and its number; 0 where it has none, and for a call the number of its function and of its arguments in one.
fn named(act: Act) -> (&'static str, usize) {
    match act {
        Act::Shared(shared) => shared_named(shared),
        Act::Spawn(n) => ("spawn", n as usize),
        Act::Join => ("join", 0),
        Act::Call(n, count) => (
            "call",
            (n as usize).saturating_mul(100).saturating_add(count),
        ),
        Act::Return => ("return", 0),
        Act::Begin => ("begin", 0),
        Act::End => ("end", 0),
        Act::Pass => ("pass", 0),
    }
}

fn shared_named(shared: SharedStop) -> (&'static str, usize) {
    match shared {
        SharedStop::ReadGlobal(n) => ("read_global", n as usize),
        SharedStop::WriteGlobal(n) => ("write_global", n as usize),
        SharedStop::ReadElement(n) => ("read_element", n as usize),
        SharedStop::WriteElement(n) => ("write_element", n as usize),
        SharedStop::ReadField(n) => ("read_field", n as usize),
        SharedStop::WriteField(n) => ("write_field", n as usize),
        SharedStop::New(tag) => ("new", tag.index()),
        SharedStop::Free => ("free", 0),
        SharedStop::Print(_, count) => ("print", count),
        SharedStop::InitMutex(n) => ("init", n as usize),
        SharedStop::Lock(n) => ("lock", n as usize),
        SharedStop::Unlock(n) => ("unlock", n as usize),
    }
}
