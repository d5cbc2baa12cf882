//! The data of a run where a newer text is installed.
//!
//! [`prepare`] takes the memory and makes what is new, and changes nothing; [`NewData::put_into`] then puts it in the place of
//! the old data, and can't fail. So an install is made whole or not at all.
ghost use Rattle.std.specs.Prelude.{◌≡◌, ◌&&◌, List, IfOk, IsFalse, IsTrue, OnOk, None, Some, filter, map, not};
ghost use Rattle.std.specs.Option.{is_some, option_map};
ghost use Rattle.c_tree.specs.BareExpr.{Bytes};
ghost use Rattle.c_tree.specs.BareDef.{BareDef};
ghost use Rattle.c_definitions.specs.Index.{table_of as key_table};
ghost use Rattle.c_semantics.specs.Changes.{agree, same_interface};
ghost use Rattle.c_semantics.specs.Names.{struct_name};
ghost use Rattle.c_semantics.specs.Texts.{definition};
ghost use Rattle.c_semantics.specs.Transformers.{transformed, zero_fields};
ghost use Rattle.source_model.specs.Worlds.{World};
ghost use Rattle.source_model.specs.Installs.{brought, installed, is_mutex};
ghost use Rattle.version_laws.specs.Fitting.{Fits};
ghost use Rattle.versioned_structs.specs.Transforms.{layout_in, new_values, variables, IsTransformOf};
ghost use Rattle.resolved_tree.specs.Nodes.{Table, word};
ghost use Rattle.local_evaluation.specs.Values.{seen};
ghost use Rattle.source_programs.specs.Definitions.{bindings_of};
ghost use Rattle.source_programs.specs.Programs.{ArePrograms, current_of, table_of as words_of, text_at};
ghost use Rattle.source_install.specs.declared.changes.Data.TheVariants.{Struct as OfStruct};
ghost use Rattle.source_install.specs.FoundChanges.{keys};
ghost use Rattle.source_data.specs.Stores.{fields_of, holders_of, object_of, objects_of, with_store};
ghost use Rattle.source_install.specs.NewData.{Follows, IsInstall, IsNewData, fields_or, news_with, with_data_of, with_fields, with_new};

use crate::changes::{Data, table_of, transform};
use crate::globals::new_globals;
use c_scope::Scopes;
use local_evaluation::Value;
use resolved_tree::Word;
use source_data::{Field, Held, Object, Objects, Store, fresh};
use source_programs::{Binding, Globals, Name, Programs};
use std::alloc::{AllocError, Global};
use type_transformers::Change;
use versioned_structs::{FieldChange, Transform};

/// Other fields of the object with a number.
#[derive(Drop)]
pub struct NewFields {
    pub number: usize,
    pub fields: Vec<Field>,
}

/// The data of a run after an install, as far as it is new.
#[derive(Drop)]
pub struct NewData {
    pub globals: Globals,
    /// Those of the objects that change.
    pub objects: Vec<NewFields>,
    pub holders: Vec<Held>,
}

/// Takes the memory for an install of a text, and makes the new data. Nothing of what is shared changes.
pub fn prepare(
    alloc: Global,
    program: &Programs,
    store: &Store,
    number: usize,
    changes: &[Change],
) -> Result<NewData, AllocError>
    ensures { (w : World) → IsInstall program.now number changes.now store.now w
        → IfOk result (IsNewData (words_of program.now) (text_at program.now number) w store.now) }
{
    let globals = new_globals(alloc, program, store, number, changes)?;
    let objects = new_objects(alloc, program, store, number, changes)?;
    let holders = new_holders(alloc, program, number, store.holders.as_slice())?;
    Ok(NewData {
        globals,
        objects,
        holders,
    })
}

impl NewData {
    /// Puts the new data in the place of the old; takes no memory.
    pub fn put_into(self, store: &mut Store)
        ensures { (t : Table) (q : List BareDef) (w other : World) → IsNewData t q w store.old self
            → with_store t store.new other ≡ with_data_of (installed q w) other }
    {
        let NewData {
            globals,
            objects,
            holders,
        } = self;
        store.globals = globals;
        store.holders = holders;
        put_fields(&mut store.objects, objects);
    }
}

/// The objects that change, with their new fields.
fn new_objects(
    alloc: Global,
    program: &Programs,
    store: &Store,
    number: usize,
    changes: &[Change],
) -> Result<Vec<NewFields>, AllocError>
    ensures { (w : World) → IsInstall program.now number changes.now store.now w
        → IfOk result (λ news. objects_of (words_of program.now) (with_new news.items store.now.objects.all.items)
        ≡ (installed (text_at program.now number) w).objects) }
{
    let table = table_of(alloc, Data::Struct, changes)?;
    let mut news = Vec::new(alloc);
    let objects = store.objects.all.as_slice();
    for place in 0..objects.len() {
        let fields = new_fields(alloc, program, number, &table, changes, &objects[place])?;
        add_new(&mut news, place, fields)?;
    }
    Ok(news)
}

/// Adds the new fields of an object, if it has some.
fn add_new(
    news: &mut Vec<NewFields>,
    number: usize,
    fields: Option<Vec<Field>>,
) -> Result<(), AllocError>
    ensures { OnOk result (news.new.items ≡ news_with news.old.items number fields) }
{
    if let Some(fields) = fields {
        news.push(NewFields { number, fields })?;
    }
    Ok(())
}

/// The new fields of an object, if it changes.
fn new_fields(
    alloc: Global,
    program: &Programs,
    number: usize,
    table: &Scopes<usize>,
    changes: &[Change],
    object: &Object,
) -> Result<Option<Vec<Field>>, AllocError>
    requires { table.now ≡ key_table (keys OfStruct changes.now) }
    ensures { (w : World) → Follows program.now number changes.now w → Fits w.text (object_of (words_of program.now) object.now)
        → IfOk result (λ fields. object_of (words_of program.now) (fields_or object.now fields)
        ≡ brought w.text (text_at program.now number) (object_of (words_of program.now) object.now)) }
{
    let members = program.members_in(number, object.tag);
    let tag = program.trees().text(object.tag);
    match transform(table, changes, tag) {
        Some(transform) => {
            let new = transformed_fields(alloc, transform, object.fields.as_slice(), members)?;
            Ok(Some(new))
        }
        None => zero_fields_if(alloc, is_new(program, number, object.tag), members),
    }
}

/// The fields of an object whose struct is new, each zero.
fn zero_fields_if(
    alloc: Global,
    is_new: bool,
    members: &[Binding],
) -> Result<Option<Vec<Field>>, AllocError>
    ensures new { IsTrue is_new → IfOk result (λ fields. (t : Table) → option_map (λ f. fields_of t f.items) fields
        ≡ Some (zero_fields (bindings_of t members.now))) }
    ensures same { IsFalse is_new → IfOk result (λ fields. fields ≡ None) }
{
    if is_new {
        Ok(Some(fresh(alloc, members)?))
    } else {
        Ok(None)
    }
}

/// Whether the text with a number, counted from 0, defines the struct with a tag, and not with the fields that it has in the version
/// in force.
pub fn is_new(program: &Programs, number: usize, tag: Word) -> bool
    ensures { ArePrograms program.now → let name = struct_name (word (words_of program.now) tag) in
        result ≡ (is_some (definition (text_at program.now number) name)
        && not (agree same_interface (definition (current_of program.now) name) (definition (text_at program.now number) name))) }
{
    let name = Name::Struct(tag);
    program.defines(number, name) && !program.agrees(number, name)
}

/// The fields of an object of a struct that changes, by its new layout.
fn transformed_fields(
    alloc: Global,
    transform: &Transform,
    fields: &[Field],
    new: &[Binding],
) -> Result<Vec<Field>, AllocError>
    ensures { (t : Table) (p q : List BareDef) (tag : Bytes) → IsTransformOf p q tag transform.now → bindings_of t new.now ≡ layout_in q tag
        → map (λ f. f.name) (fields_of t fields.now) ≡ map (λ b. b.name) (layout_in p tag)
        → IfOk result (λ made. fields_of t made.items ≡ transformed p q tag (fields_of t fields.now)) }
{
    let old = values_of(alloc, fields)?;
    let values = values_by(alloc, transform.as_slice(), old.as_slice())?;
    fields_of(alloc, new, values.as_slice())
}

/// The values of fields.
fn values_of(alloc: Global, fields: &[Field]) -> Result<Vec<Value>, AllocError>
    ensures { IfOk result (λ values. values.items ≡ map (λ f. f.value) fields.now) }
{
    let mut values = Vec::with_capacity(alloc, fields.len())?;
    for field in fields {
        values.push(field.value)?;
    }
    Ok(values)
}

/// The values of the fields of a new layout, from those of the old one.
fn values_by(
    alloc: Global,
    changes: &[FieldChange],
    old: &[Value],
) -> Result<Vec<Value>, AllocError>
    ensures { IfOk result (λ values. map seen values.items ≡ new_values changes.now (map seen old.now)) }
{
    let mut values = Vec::with_capacity(alloc, changes.len())?;
    for change in changes {
        values.push(change.value(old))?;
    }
    Ok(values)
}

/// Fields with the names of a layout and some values, item by item.
fn fields_of(alloc: Global, members: &[Binding], values: &[Value]) -> Result<Vec<Field>, AllocError>
    ensures { IfOk result (λ fields. (t : Table) → fields_of t fields.items ≡ variables (bindings_of t members.now) (map seen values.now)) }
{
    let mut fields = Vec::with_capacity(alloc, members.len())?;
    for place in 0..members.len() {
        let Some(value) = values.get(place) else {
            return Ok(fields);
        };
        fields.push(Field {
            name: members[place].name,
            value: *value,
        })?;
    }
    Ok(fields)
}

/// The mutexes that are held and are in a text.
fn new_holders(
    alloc: Global,
    program: &Programs,
    number: usize,
    holders: &[Held],
) -> Result<Vec<Held>, AllocError>
    ensures { ArePrograms program.now → IfOk result (λ kept. holders_of (words_of program.now) kept.items
        ≡ filter (λ h. is_mutex (definition (text_at program.now number) h.mutex)) (holders_of (words_of program.now) holders.now)) }
{
    let mut kept = Vec::new(alloc);
    for held in holders {
        if program.has_mutex(number, held.mutex) {
            kept.push(*held)?;
        }
    }
    Ok(kept)
}

/// Gives objects their new fields.
fn put_fields(objects: &mut Objects, news: Vec<NewFields>)
    ensures { objects.new.all.items ≡ with_new news.items objects.old.all.items }
{
    for new in news {
        set_fields(objects, new);
    }
}

/// Gives an object its new fields, if there is such an object.
fn set_fields(objects: &mut Objects, new: NewFields)
    ensures { objects.new.all.items ≡ with_fields new.number new.fields objects.old.all.items }
{
    if new.number < objects.all.len() {
        objects.all[new.number].fields = new.fields;
    }
}
