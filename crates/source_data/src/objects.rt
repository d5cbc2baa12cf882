//! Objects.
ghost use Rattle.std.specs.Prelude.{◌≡◌, ◌∷◌, [], ◌++◌, ◌<◌, ℕ, true, List, Option, length, unwrap_or, slice_index_or, slice_set, IfOk, OnOk, OnErr, MatchResult};
ghost use Rattle.c_tree.specs.BareExpr.{Bytes};
ghost use Rattle.c_tree.specs.BareDef.{BareDef};
ghost use Rattle.c_semantics.specs.Evaluation.{in_scope, with_value};
ghost use Rattle.c_semantics.specs.Stops.{ReadField, WriteField, New, Free};
ghost use Rattle.c_semantics.specs.Transformers.{zero_fields};
ghost use Rattle.c_semantics.specs.Values.{Value as SeenValue, Reference, int_of};
ghost use Rattle.source_model.specs.Worlds.{World, Object as SeenObject};
ghost use Rattle.source_model.specs.Moves.{Standing, goes_on, traps, on_object, release as released};
ghost use Rattle.source_data.specs.declared.store.Object.{Object};
ghost use Rattle.source_programs.specs.Definitions.{bindings_of};
ghost use Rattle.resolved_tree.specs.Nodes.{Table, word};
ghost use Rattle.source_programs.specs.Programs.{ArePrograms, current_of, table_of};
ghost use Rattle.source_data.specs.Stores.{Kept, Performs, object_of, objects_of, fields_of};
ghost use Rattle.resolved_tree.specs.Trees.{table};
ghost use Rattle.local_evaluation.specs.Values.{seen, seen_object};

use crate::cells::take_under;
use crate::shared_stops::Did;
use crate::store::{Field, Object, Objects, Store};
use c_ints::Int;
use local_evaluation::{ObjectId, Value};
use resolved_tree::{Trees, Word, later};
use run_types::TrapKind;
use source_programs::{Binding, Programs};
use std::alloc::{AllocError, Global};

/// What a handle leads to: the number of an object that lives, or the trap of the null handle or of an ended object.
fn reach(objects: &[Object], handle: Option<ObjectId>) -> Result<usize, TrapKind>
    ensures within { IfOk result (λ n. n < length objects.now) }
    ensures live { IfOk result (λ n. (d : Object) → (slice_index_or objects.now n d).live ≡ true) }
    ensures reached { (t : Table) (s : Standing) (f : ℕ → SeenObject → Option World) → s.world.objects ≡ objects_of t objects.now
        → MatchResult result
        (λ n. (d : Object) → on_object s (seen_object handle) f ≡ f n (object_of t (slice_index_or objects.now n d)))
        (λ kind. on_object s (seen_object handle) f ≡ traps s kind) }
{
    let Some(ObjectId(number)) = handle else {
        return Err(TrapKind::Null);
    };
    match objects.get(number) {
        Some(object) if object.live => Ok(number),
        _ => Err(TrapKind::Stale),
    }
}

/// The value of a field; the `int` 0 where the object has no such field.
fn field(trees: &Trees, fields: &[Field], name: Word) -> Value
    ensures { seen result ≡ unwrap_or (in_scope (fields_of (table trees.now) fields.now) (word (table trees.now) name)) (int_of 0) }
{
    for field in fields {
        if trees.same(name, field.name) {
            return field.value;
        }
    }
    Value::Number(Int::I32(0))
}

/// Changes the value of a field, if there is one.
fn set_field(trees: &Trees, fields: &mut [Field], name: Word, value: Value)
    ensures { fields_of (table trees.now) fields.new
        ≡ with_value (word (table trees.now) name) (seen value) (fields_of (table trees.now) fields.old) }
{
    for place in 0..fields.len() {
        if trees.same(name, fields[place].name) {
            fields[place].value = value;
            return;
        }
    }
}

/// Changes the value of a field of an object, if it has such a field.
fn set_field_of(trees: &Trees, objects: &mut Objects, number: usize, name: Word, value: Value)
    requires { number < length objects.old.all.items }
    ensures { let t = table trees.now in (d : Object) → let o = slice_index_or objects.old.all.items number d in
        objects_of t objects.new.all.items ≡ slice_set (objects_of t objects.old.all.items) number
        (record (object_of t o) { fields = with_value (word t name) (seen value) (fields_of t o.fields.items) }) }
{
    set_field(trees, &mut objects.all[number].fields, name, value);
}

/// Reads a field; the handle is the newest value.
pub fn read_field(
    trees: &Trees,
    store: &Store,
    values: &mut [Value],
    name: Word,
) -> Result<Did, AllocError>
    ensures made { (text : List BareDef) (slot : ℕ) (tag : Bytes) → IfOk result (λ did. Performs (table trees.now) text slot (ReadField tag (word (table trees.now) name)) store.now values.old did store.now values.new) }
    ensures kept { IfOk result (λ did. Kept did store.now values.old store.now values.new) }
{
    let [.., newest] = values else {
        return Ok(Did::Nothing);
    };
    let Value::Reference(handle) = *newest else {
        return Ok(Did::Nothing);
    };
    match reach(store.objects.all.as_slice(), handle) {
        Ok(number) => {
            *newest = field(trees, store.objects.all[number].fields.as_slice(), name);
            Ok(Did::On)
        }
        Err(kind) => Ok(Did::Trap(kind)),
    }
}

/// Writes a field; the value, which is the newest, stays, and the handle under it goes.
pub fn write_field(
    trees: &Trees,
    store: &mut Store,
    values: &mut Vec<Value>,
    name: Word,
) -> Result<Did, AllocError>
    ensures made { (text : List BareDef) (slot : ℕ) (tag : Bytes) → IfOk result (λ did. Performs (table trees.now) text slot (WriteField tag (word (table trees.now) name)) store.old values.old.items did store.new values.new.items) }
    ensures kept { IfOk result (λ did. Kept did store.old values.old.items store.new values.new.items) }
{
    let [.., under, value] = *values.as_slice() else {
        return Ok(Did::Nothing);
    };
    let Value::Reference(handle) = under else {
        return Ok(Did::Nothing);
    };
    match reach(store.objects.all.as_slice(), handle) {
        Ok(number) => {
            set_field_of(trees, &mut store.objects, number, name, value);
            take_under(values);
            Ok(Did::On)
        }
        Err(kind) => Ok(Did::Trap(kind)),
    }
}

/// The fields of a new object, each zero or null.
pub fn fresh(alloc: Global, members: &[Binding]) -> Result<Vec<Field>, AllocError>
    ensures { IfOk result (λ fields. (t : Table) → fields_of t fields.items ≡ zero_fields (bindings_of t members.now)) }
{
    let mut fields = Vec::with_capacity(alloc, members.len())?;
    for member in members {
        fields.push(Field {
            name: member.name,
            value: Value::zero_of(member.declared),
        })?;
    }
    Ok(fields)
}

/// Adds an object, which lives.
fn add(objects: &mut Objects, tag: Word, fields: Vec<Field>) -> Result<(), AllocError>
    ensures { OnOk result (objects.new.all.items ≡ objects.old.all.items ++ record { tag = tag; fields = fields; live = true } ∷ []) }
{
    let live = later(objects.live)?;
    objects.all.push(Object {
        tag,
        fields,
        live: true,
    })?;
    objects.live = live;
    Ok(())
}

/// Makes an object, or gives null where as many live as may.
pub fn allocate(
    program: &Programs,
    store: &mut Store,
    values: &mut Vec<Value>,
    tag: Word,
) -> Result<Did, AllocError>
    ensures made { let t = table_of program.now in (slot : ℕ) → ArePrograms program.now → IfOk result (λ did. Performs t (current_of program.now) slot (New (word t tag)) store.old values.old.items did store.new values.new.items) }
    ensures kept { IfOk result (λ did. Kept did store.old values.old.items store.new values.new.items) }
{
    if store.objects.live == store.capacity {
        values.push(Value::Reference(None))?;
        return Ok(Did::On);
    }
    let fields = fresh(*store.objects.all.allocator(), program.members(tag))?;
    let number = store.objects.all.len();
    add(&mut store.objects, tag, fields)?;
    values.push(Value::Reference(Some(ObjectId(number))))?;
    Ok(Did::On)
}

/// Ends the object of a handle; of the null handle it does nothing.
fn end(objects: &mut Objects, handle: Option<ObjectId>) -> Result<(), TrapKind>
    ensures ended { (t : Table) (s : Standing) (rest : List SeenValue) → s.world.objects ≡ objects_of t objects.old.all.items
        → MatchResult result
        (λ _. released s (Reference (seen_object handle) ∷ rest) ≡ goes_on s (record s.world { objects = objects_of t objects.new.all.items }) (int_of 0 ∷ rest))
        (λ kind. released s (Reference (seen_object handle) ∷ rest) ≡ traps s kind) }
    ensures same { OnErr result (objects.new ≡ objects.old) }
{
    let Some(_) = handle else {
        return Ok(());
    };
    match reach(objects.all.as_slice(), handle) {
        Ok(number) => {
            objects.all[number].live = false;
            objects.live -= 1;
            Ok(())
        }
        Err(kind) => Err(kind),
    }
}

/// Ends the object of the newest value, which becomes the `int` 0.
pub fn release(store: &mut Store, values: &mut [Value]) -> Result<Did, AllocError>
    ensures made { (t : Table) (text : List BareDef) (slot : ℕ) (tag : Bytes) → IfOk result (λ did. Performs t text slot (Free tag) store.old values.old did store.new values.new) }
    ensures kept { IfOk result (λ did. Kept did store.old values.old store.new values.new) }
{
    let [.., newest] = values else {
        return Ok(Did::Nothing);
    };
    let Value::Reference(handle) = *newest else {
        return Ok(Did::Nothing);
    };
    match end(&mut store.objects, handle) {
        Ok(()) => {
            *newest = Value::Number(Int::I32(0));
            Ok(Did::On)
        }
        Err(kind) => Ok(Did::Trap(kind)),
    }
}
