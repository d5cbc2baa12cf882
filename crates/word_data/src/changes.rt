//! What an install changes, and an object that is brought to a newer layout.
ghost use Rattle.std.specs.Prelude.{◌≡◌, ◌+◌, ◌<◌, ◌^◌, IsFalse, IsTrue, None, length, option_copied, slice_set};
ghost use Rattle.std.specs.FinMap.{contains_key, get};
ghost use Rattle.object_store.specs.Stores.{with_object};
ghost use Rattle.code_runs.specs.CodeData.{row, with_row};
ghost use Rattle.code_runs.specs.SharedStops.{with_holders, with_objects};

use crate::mutexes::mutex;
use crate::shared::WordData;
use object_store::{Handle, Object, Objects};

/// Puts another object in place of that of a handle. The answer is whether one lives under it.
fn replace(objects: &mut Objects, handle: Handle, object: Object) -> bool
    ensures there { result ≡ contains_key objects.old.live handle }
    ensures changed { IsTrue result → objects.new ≡ with_object objects.old handle object }
    ensures same { IsFalse result → objects.new ≡ objects.old }
{
    match objects.get_mut(handle) {
        Some(own) => {
            *own = object;
            true
        }
        None => false,
    }
}

impl WordData {
    /// How many texts were installed after the first, which is the number of the version in force, counted from 0.
    pub fn version(&self) -> u32
        ensures { result ≡ self.now.version }
    {
        self.version
    }

    /// How many mutexes have a number.
    pub fn mutex_count(&self) -> usize
        ensures { result ≡ length self.now.holders }
    {
        self.mutexes
    }

    /// The words of the global or the array with a number; none where there is none with the number.
    pub fn row(&self, n: u32) -> &[u64]
        ensures { result.now ≡ row self.now n }
    {
        match self.cells.get(n as usize) {
            Some(row) => row.as_slice(),
            None => &[],
        }
    }

    /// The object of a handle; `None` where none lives under it.
    pub fn object(&self, handle: Handle) -> Option<&Object>
        ensures { option_copied result ≡ get self.now.objects.live handle }
    {
        self.objects.get(handle)
    }

    /// Puts another object in place of that of a handle. The answer is whether one lives under it; else nothing changes.
    pub fn set_object(&mut self, handle: Handle, object: Object) -> bool
        ensures there { result ≡ contains_key self.old.objects.live handle }
        ensures changed { IsTrue result → self.new ≡ with_objects self.old (with_object self.old.objects handle object) }
        ensures same { IsFalse result → self.new ≡ self.old }
    {
        replace(&mut self.objects, handle, object)
    }

    /// Gives the global or the array with a number other words, if there is one. It takes no memory.
    pub fn set_row(&mut self, n: u32, words: Vec<u64>)
        ensures { self.new ≡ with_row self.old n words.items }
    {
        let n = n as usize;
        if n < self.cells.len() {
            self.cells[n] = words;
        }
    }

    /// Nobody holds the mutex with a number any more, if there is one.
    pub fn let_go(&mut self, n: u32)
        ensures { self.new ≡ with_holders self.old (slice_set self.old.holders n None) }
    {
        if let Some(name) = mutex(self.mutexes, n) {
            self.locks.forget(name);
        }
    }

    /// Counts one more text that was installed.
    pub fn next_version(&mut self)
        requires { self.old.version + 1 < 2 ^ 32 }
        ensures { self.new ≡ record self.old { version = self.old.version + 1 } }
    {
        self.version += 1;
    }
}
