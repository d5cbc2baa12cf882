//! Stores of objects against a table of what was created in them.
use name_sets::NameId;
use object_store::{Handle, MOST_FIELDS, Objects};
use std::alloc::{AllocError, Global};

/// How many objects the table has at most.
const PLACES: usize = 8;

/// What was created last at each place, and the word of all its fields, 0 where it was ended since.
#[derive(Drop)]
struct Table {
    handles: [Handle; PLACES],
    words: [u64; PLACES],
}

impl Table {
    fn new() -> Table {
        Table {
            handles: [Handle::new(0); PLACES],
            words: [0; PLACES],
        }
    }

    fn living(&self) -> usize {
        self.words.iter().filter(|word| **word != 0).count()
    }
}

/// Creates an object whose fields all have a word. `None` where as many live as may, or were ever created.
fn created(objects: &mut Objects, tag: usize, word: u64) -> Option<Handle> {
    if objects.created() == u32::MAX {
        return None;
    }
    let tag = NameId::new(tag)?;
    objects.create(tag, 1, [word; MOST_FIELDS])
}

/// Whether a handle leads nowhere, and can't be ended.
fn is_stale(objects: &mut Objects, handle: Handle) -> bool {
    objects.get(handle).is_none() && objects.get_mut(handle).is_none() && !objects.end(handle)
}

/// Whether the object of a handle is of this struct, with one word in all fields.
fn is_there(objects: &Objects, handle: Handle, tag: usize, word: u64) -> bool {
    match objects.get(handle) {
        Some(object) => {
            object.tag.index() == tag && object.layout == 1 && object.fields == [word; MOST_FIELDS]
        }
        None => false,
    }
}

/// Whether the object of a handle can be changed, is then as it was changed, and is ended once.
fn is_changed_and_ended(objects: &mut Objects, handle: Handle, tag: usize) -> bool {
    let Some(object) = objects.get_mut(handle) else {
        return false;
    };
    object.fields = [9; MOST_FIELDS];
    is_there(objects, handle, tag, 9) && objects.end(handle) && is_stale(objects, handle)
}

/// Creates an object at a place, or ends the one that is there. False where the store does otherwise than the table.
fn step(
    objects: &mut Objects,
    table: &mut Table,
    capacity: usize,
    place: usize,
    word: u64,
) -> bool {
    if place >= PLACES {
        return false;
    }
    let handle = table.handles[place];
    if table.words[place] != 0 {
        let is_as_created = is_there(objects, handle, place, table.words[place]);
        table.words[place] = 0;
        return is_as_created && is_changed_and_ended(objects, handle, place);
    }
    let is_full = table.living() == capacity;
    let was_stale = is_stale(objects, handle);
    match created(objects, place, word) {
        None => is_full && was_stale,
        Some(new) => {
            table.handles[place] = new;
            table.words[place] = word;
            !is_full && was_stale && new != handle
        }
    }
}

/// Whether so many steps of a pseudo-random walk go as the table says.
fn goes_as_listed(alloc: Global, capacity: u32, steps: u32) -> Result<bool, AllocError> {
    let mut objects = Objects::with_capacity(alloc, capacity)?;
    let mut table = Table::new();
    let mut number: u64 = 1;
    let mut is_as_listed = true;
    for _ in 0..steps {
        number = number
            .wrapping_mul(6364136223846793005)
            .wrapping_add(1442695040888963407);
        let place = (number >> 61) as usize;
        let is_step = step(
            &mut objects,
            &mut table,
            capacity as usize,
            place,
            number | 1,
        );
        is_as_listed = is_as_listed && is_step;
    }
    Ok(is_as_listed)
}

#[test]
fn a_million_steps_go_as_listed(rt: HostRuntime) {
    assert!(rt; goes_as_listed(rt.alloc(), 5, 1_000_000).expect(&rt, "memory"));
}

#[test]
fn steps_go_as_listed_in_a_store_of_one(rt: HostRuntime) {
    assert!(rt; goes_as_listed(rt.alloc(), 1, 10_000).expect(&rt, "memory"));
}

#[test]
fn nothing_is_created_in_a_store_of_none(rt: HostRuntime) {
    assert!(rt; goes_as_listed(rt.alloc(), 0, 10_000).expect(&rt, "memory"));
}

/// How many of so many creations give an object.
fn created_of(objects: &mut Objects, attempts: u32) -> u32 {
    let mut made = 0;
    for _ in 0..attempts {
        if created(objects, 0, 3).is_some() {
            made = objects.created();
        }
    }
    made
}

#[test]
fn a_store_takes_as_many_as_it_has_room_for(rt: HostRuntime) {
    let mut objects = Objects::with_capacity(rt.alloc(), 65_536).expect(&rt, "memory");
    assert!(rt; created_of(&mut objects, 65_600) == 65_536);
}

#[test]
fn handles_that_were_never_given_lead_nowhere(rt: HostRuntime) {
    let mut objects = Objects::with_capacity(rt.alloc(), 3).expect(&rt, "memory");
    let first = created(&mut objects, 2, 4).expect(&rt, "room");
    for change in [first.word(), 1, 2, 1 << 31, 1 << 32, 1 << 63, u64::MAX] {
        let word = first.word() ^ change;
        assert!(rt; is_stale(&mut objects, Handle::new(word)), "{}", word);
    }
    assert!(rt; is_there(&objects, first, 2, 4));
}
