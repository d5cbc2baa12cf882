//! The objects that live.
ghost use Rattle.std.specs.Prelude.{◌≡◌, ◌<◌, Some, IfOk, IsTrue, option_copied};
ghost use Rattle.std.specs.Option.{option_copied_mut};
ghost use Rattle.std.specs.Borrow.{sem};
ghost use Rattle.std.specs.FinMap as map;
ghost use Rattle.object_store.specs.Handles.{creation_limit};
ghost use Rattle.object_store.specs.Stores.{Creates, without_object};

use crate::handle::Handle;
use crate::object::{MOST_FIELDS, Object};
use name_sets::NameId;
use slab::Slab;
use std::alloc::{AllocError, Global};
use std::marker::Model;

/// A live object in its slot.
#[derive(Clone, Copy)]
struct Row {
    /// The number of its creation, counted from 1.
    creation: u32,
    object: Object,
}

/// The objects that live, each under its handle. Contracts see them as a map, with the number that may live at once and
/// the number of those that were created so far.
#[derive(Drop)]
pub struct Objects {
    rows: Slab<Row>,
    capacity: u32,
    created: u32,
}

impl Model for Objects {
    ghost use Rattle.object_store.specs.Stores.{Store, store_code};

    ghost Value = { Store };

    ghost coded = { store_code };

    ghost use Rattle.object_store.specs.Rows.{live_of, IsKept};

    ghost view = { λ o. record { capacity = o.capacity; created = o.created; live = live_of o.rows } };

    ghost invariant = { λ o. IsKept o.rows o.capacity };
}

impl Objects {
    ghost use Rattle.object_store.specs.Lends.{lends_object, lends_live};

    /// No objects, with room for so many. It takes all the memory that they ever need, and touches none of it. The error
    /// also comes where the allocator gave more room than handles have slots for.
    pub fn with_capacity(alloc: Global, count: u32) -> Result<Objects, AllocError>
        ensures { IfOk result (λ o. o ≡ record { capacity = count; created = 0; live = map.empty }) }
    {
        let rows = Slab::with_capacity(alloc, count as usize)?;
        if rows.capacity() > u32::MAX as usize {
            return Err(AllocError);
        }
        Ok(Objects {
            rows,
            capacity: count,
            created: 0,
        })
    }

    /// How many objects were created so far, those that were ended among them.
    pub fn created(&self) -> u32
        ensures { result ≡ self.now.created }
    {
        self.created
    }

    /// Creates an object of a struct with these fields of a layout, and gives its handle; `None` where as many live as
    /// may. It takes no memory, and the same time however many live.
    pub fn create(&mut self, tag: NameId, layout: u32, fields: [u64; MOST_FIELDS]) -> Option<Handle>
        requires { self.old.created < creation_limit }
        ensures { Creates self.old (record { tag = tag; layout = layout; fields = fields }) result self.new }
    {
        if self.rows.len() == self.capacity as usize {
            return None;
        }
        let creation = self.created + 1;
        let object = Object {
            tag,
            layout,
            fields,
        };
        let slot = self.rows.insert_reserved(Row { creation, object });
        self.created = creation;
        Some(Handle::of(creation, slot as u32))
    }

    /// The object of a handle; `None` where none lives under it.
    pub fn get(&self, handle: Handle) -> Option<&Object>
        ensures { option_copied result ≡ map.get self.now.live handle }
    {
        match self.rows.get(handle.slot()) {
            Some(row) if row.creation == handle.creation() => Some(&row.object),
            _ => None,
        }
    }

    /// The object of a handle, for changes; `None` where none lives under it.
    pub fn get_mut(&mut self, handle: Handle) -> Option<&mut Object>
        ensures* writes_back { sem 𝓛 (lends_object self.entry handle result) }
        ensures value { option_copied_mut result ≡ map.get self.old.live handle }
    {
        if self.get(handle).is_none() {
            return None;
        }
        Some(self.object_mut(handle))
    }

    // The object of a handle under which one lives.
    fn object_mut(&mut self, handle: Handle) -> &mut Object
        requires { IsTrue (map.contains_key self.old.live handle) }
        ensures* writes_back { sem 𝓛 (lends_live self.entry handle result) }
        ensures value { map.get self.old.live handle ≡ Some result.now }
    {
        let row = &mut self.rows[handle.slot()];
        &mut row.object
    }

    /// Ends the object of a handle; false where none lives under it.
    pub fn end(&mut self, handle: Handle) -> bool
        ensures answer { result ≡ map.contains_key self.old.live handle }
        ensures ended { self.new ≡ without_object self.old handle }
    {
        if self.get(handle).is_none() {
            return false;
        }
        self.rows.remove(handle.slot());
        true
    }
}
