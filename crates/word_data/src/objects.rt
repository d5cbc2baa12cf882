//! Objects.
ghost use Rattle.std.specs.Prelude.{◌≡◌, ◌+◌, ◌<◌, ◌≤◌, [], ◌∷◌, IfOk, IsFalse, OnErr, Option, Some, length, slice_index_or, slice_set, ℕ};
ghost use Rattle.std.specs.FinMap.{contains_key, get};
ghost use Rattle.object_store.specs.declared.object.Object.{Object};
ghost use Rattle.object_store.specs.Handles.{creation_limit};
ghost use Rattle.object_store.specs.Stores.{Creates, Store, with_object};
ghost use Rattle.thread_state.specs.Frames.{IsSameOutside};
ghost use Rattle.code_runs.specs.CodeData.{new_object};
ghost use Rattle.code_runs.specs.SharedStops.{One, Two, goes, handle_word, on_object, release, with_objects};
ghost use Rattle.word_data.specs.Stacks.{stack_of};
ghost use Rattle.word_data.specs.Performing.{LeavesOne, Made};

use crate::shared::WordData;
use crate::stack::{leave, word_under};
use crate::stop::{Did, Stack};
use name_sets::NameId;
use object_store::{Handle, MOST_FIELDS, Object, Objects};
use run_types::TrapKind;
use std::alloc::AllocError;

/// The word of a field, by its place; 0 where there is no such field.
fn field(object: &Object, place: u32) -> u64
    ensures { result ≡ slice_index_or object.now.fields place 0 }
{
    object.fields.get(place as usize).copied().unwrap_or(0)
}

/// Changes the field at a place, if there is one.
fn set_field(object: &mut Object, place: u32, word: u64)
    ensures { object.new ≡ record object.old { fields = slice_set object.old.fields place word } }
{
    let place = place as usize;
    if place < MOST_FIELDS {
        object.fields[place] = word;
    }
}

/// Changes a field of the object of a handle. The answer is whether one lives under it.
fn set_field_of(objects: &mut Objects, handle: Handle, place: u32, word: u64) -> bool
    ensures there { result ≡ contains_key objects.old.live handle }
    ensures changed { (o : Object) → get objects.old.live handle ≡ Some o
        → objects.new ≡ with_object objects.old handle (record o { fields = slice_set o.fields place word }) }
    ensures same { IsFalse result → objects.new ≡ objects.old }
    ensures created { objects.new.created ≡ objects.old.created }
{
    match objects.get_mut(handle) {
        Some(object) => {
            set_field(object, place, word);
            true
        }
        None => false,
    }
}

impl WordData {
    /// Puts the word of a field in place of its object's handle, which is the newest word.
    pub(crate) fn read_field(&self, n: u32, words: &mut [u64], stack: Stack) -> Did
        requires taken { 1 ≤ stack.height }
        requires space { stack.low + stack.height < length words.old }
        ensures made { let d = self.now in Made d words.new stack [] result
            (λ x. One (stack_of words.old stack) (λ h under. x ≡ on_object d h (λ o. goes d (slice_index_or o.fields n 0 ∷ under)))) }
        ensures elsewhere { IsSameOutside stack.low (stack.low + stack.height + 1) words.old words.new }
        ensures keeps { LeavesOne 1 stack result words.old words.new }
    {
        let handle = word_under(words, stack, 0);
        if handle == 0 {
            return Did::Trap(TrapKind::Null);
        }
        match self.objects.get(Handle::new(handle)) {
            Some(object) => leave(words, stack, 1, field(object, n)),
            None => Did::Trap(TrapKind::Stale),
        }
    }

    /// Changes a field to the newest word, which stays; its object's handle under that goes.
    pub(crate) fn write_field(&mut self, n: u32, words: &mut [u64], stack: Stack) -> Did
        requires taken { 2 ≤ stack.height }
        requires space { stack.low + stack.height < length words.old }
        ensures made { let d = self.old in Made self.new words.new stack [] result
            (λ x. Two (stack_of words.old stack) (λ w h under. x ≡ on_object d h (λ o.
            goes (with_objects d (with_object d.objects h (record o { fields = slice_set o.fields n w }))) (w ∷ under)))) }
        ensures elsewhere { IsSameOutside stack.low (stack.low + stack.height + 1) words.old words.new }
        ensures keeps { LeavesOne 2 stack result words.old words.new }
        ensures created { self.new.objects.created ≡ self.old.objects.created }
        ensures version { self.new.version ≡ self.old.version }
    {
        let word = word_under(words, stack, 0);
        let handle = word_under(words, stack, 1);
        if handle == 0 {
            return Did::Trap(TrapKind::Null);
        }
        if set_field_of(&mut self.objects, Handle::new(handle), n, word) {
            leave(words, stack, 2, word)
        } else {
            Did::Trap(TrapKind::Stale)
        }
    }

    /// Creates an object of the struct of a tag, with all fields 0 and the layout of the version in force, and puts its handle on the
    /// stack; null where as many live as may. An error where the last handle was given.
    pub(crate) fn allocate(
        &mut self,
        tag: NameId,
        words: &mut [u64],
        stack: Stack,
    ) -> Result<Did, AllocError>
        requires { stack.low + stack.height < length words.old }
        ensures made { let d = self.old in IfOk result (λ did. Made self.new words.new stack [] did
            (λ x. (handle : Option ℕ) × ((after : Store) × (Creates d.objects (new_object tag d.version) handle after
            × (x ≡ goes (with_objects d after) (handle_word handle ∷ stack_of words.old stack)))))) }
        ensures elsewhere { IsSameOutside stack.low (stack.low + stack.height + 1) words.old words.new }
        ensures keeps { IfOk result (λ did. LeavesOne 0 stack did words.old words.new) }
        ensures created { self.new.objects.created ≤ 1 + self.old.objects.created }
        ensures version { self.new.version ≡ self.old.version }
        ensures fault { OnErr result ((self.new ≡ self.old) × (words.new ≡ words.old)) }
        ensures cause { OnErr result (self.old.objects.created ≡ creation_limit) }
    {
        if self.objects.created() == u32::MAX {
            return Err(AllocError);
        }
        let word = match self.objects.create(tag, self.version, [0; MOST_FIELDS]) {
            Some(handle) => handle.word(),
            None => 0,
        };
        Ok(leave(words, stack, 0, word))
    }

    /// Ends the object of a handle, which is the newest word; of null it ends none.
    pub(crate) fn release(&mut self, words: &mut [u64], stack: Stack) -> Did
        requires taken { 1 ≤ stack.height }
        requires space { stack.low + stack.height < length words.old }
        ensures made { Made self.new words.new stack [] result
            (λ x. One (stack_of words.old stack) (λ h under. x ≡ release self.old h under)) }
        ensures elsewhere { IsSameOutside stack.low (stack.low + stack.height + 1) words.old words.new }
        ensures keeps { LeavesOne 1 stack result words.old words.new }
        ensures created { self.new.objects.created ≡ self.old.objects.created }
        ensures version { self.new.version ≡ self.old.version }
    {
        let handle = word_under(words, stack, 0);
        if handle != 0 && !self.objects.end(Handle::new(handle)) {
            return Did::Trap(TrapKind::Stale);
        }
        leave(words, stack, 1, 0)
    }
}
