//! Threads in functions that changed: a call that has begun goes on in the body that it began with.
use c_types::Typed;
use dsu_io::Text;
use name_sets::{NameSet, Names};
use offer_drafts::{Draft, Frame, Thread};
use patch_build::MOST_VERSIONS;
use patch_compare::compare;
use std::alloc::{AllocError, Global};

/// Says which threads are still in functions that changed.
pub(crate) fn say_still(draft: &mut Draft, old: &Typed, new: &Typed, threads: &[Thread<'_>]) {
    match changed_names(draft.alloc(), old, new) {
        Ok(changed) => say_threads(draft, &changed, threads),
        Err(_) => draft.cut(),
    }
}

/// The names that a text changes.
fn changed_names(alloc: Global, old: &Typed, new: &Typed) -> Result<Names, AllocError> {
    match compare(alloc, old, new) {
        Ok(changes) => table_of(alloc, changes.changed.as_slice()),
        Err(_) => Err(AllocError),
    }
}

/// A table of names.
fn table_of(alloc: Global, names: &[Text]) -> Result<Names, AllocError> {
    let mut table = Names::new(alloc);
    for name in names {
        let Ok(_) = table.add(name.as_str()) else {
            return Err(AllocError);
        };
    }
    Ok(table)
}

/// Says in which of the functions threads are.
fn say_threads(draft: &mut Draft, changed: &Names, threads: &[Thread<'_>]) {
    for thread in threads {
        say_thread(draft, changed, thread);
    }
}

/// For each version no function.
fn none_said(alloc: Global) -> Result<Vec<NameSet>, AllocError> {
    vec![in alloc; NameSet::empty(); MOST_VERSIONS as usize + 1]
}

/// Says in which of the functions a thread is, each of each version once.
fn say_thread(draft: &mut Draft, changed: &Names, thread: &Thread<'_>) {
    match none_said(draft.alloc()) {
        Ok(said) => {
            let mut said = said;
            say_frames(draft, &mut said, changed, thread);
        }
        Err(_) => draft.cut(),
    }
}

/// The same, but for functions that were said.
fn say_frames(draft: &mut Draft, said: &mut [NameSet], changed: &Names, thread: &Thread<'_>) {
    for frame in &thread.frames {
        if is_new(said, changed, frame) {
            say_frame(draft, thread.slot, frame);
        }
    }
}

/// Whether a frame is in one of the functions and wasn't said yet; it is said from now on.
fn is_new(said: &mut [NameSet], changed: &Names, frame: &Frame<'_>) -> bool {
    let Some(function) = changed.find(frame.function) else {
        return false;
    };
    let version = frame.version as usize;
    if version >= said.len() || said[version].holds(function) {
        return false;
    }
    said[version].add(function);
    true
}

/// Says that a thread is still in a function.
fn say_frame(draft: &mut Draft, slot: u8, frame: &Frame<'_>) {
    draft.say("thread ");
    draft.number(usize::from(slot));
    draft.say(" is still in ");
    draft.say(frame.function);
    draft.say(" of version ");
    draft.number(frame.version as usize);
    draft.end();
}
