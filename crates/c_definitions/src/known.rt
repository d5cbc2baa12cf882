ghost use Rattle.std.specs.Prelude.{◌≡◌, ◌+◌, false, [], ◌∷◌, ◌++◌, IfOk, OnOk, take, option_copied, option_and_then, option_map, codes};
ghost use Rattle.std.specs.List.{find, list_any, slice_get};
ghost use Rattle.std.specs.Option.{option_map_or};
ghost use Rattle.std.specs.Str.{bytes_eq};
ghost use Rattle.c_scope.specs.Tables.{innermost};
ghost use Rattle.c_tree.specs.BareExpr.{Bytes};
ghost use Rattle.c_definitions.specs.Lookup.{member};
ghost use Rattle.c_definitions.specs.Index.{earlier, is_key, key_of, keys, member_keys, member_tables, with_name, own_members, place_of, stands_before, table_of};
ghost use Rattle.c_definitions.specs.Lookup.{declared_as, definition_of, is_known, is_tag, members_of, struct_of};

use crate::key::{Key, key_of};
use crate::lookup::members_in;
use c_scope::Scopes;
use c_tree::{Binding, CType, Def, DefKind};
use dsu_io::{List, Text};
use std::alloc::{AllocError, Global};
use std::marker::Model;

/// The definitions of a text, with tables of their names. Contracts see the list of the definitions. The tables are built
/// once, in time linear in the text; then each definition is found by one look into a table, however long the text is.
#[derive(Drop)]
pub struct Known<'a> {
    definitions: &'a [Def],
    tables: Tables,
    /// For each definition the members that it declares.
    members: Vec<Scopes<usize>>,
}

/// The first place of each name that definitions are found by.
#[derive(Drop)]
struct Tables {
    names: Scopes<usize>,
    tags: Tags,
    transformed: Transformed,
}

/// Of the tags of structs.
#[derive(Drop)]
struct Tags {
    /// Those with members.
    defined: Scopes<usize>,
    /// Those with members or without.
    declared: Scopes<usize>,
}

/// Of what transformers transform.
#[derive(Drop)]
struct Transformed {
    structs: Scopes<usize>,
    globals: Scopes<usize>,
}

impl<'a> Model for Known<'a> {
    ghost use Rattle.std.specs.Prelude.{List as ListOf};
    ghost use Rattle.c_tree.specs.declared.def.Def.{Def};
    ghost use Rattle.std.specs.Coded.{codes};
    ghost use Rattle.c_tree.specs.contracts.def.Def as def;
    ghost use Rattle.c_definitions.specs.Index.{IsIndex};

    ghost Value = { ListOf Def };

    ghost coded = { Prim.hlevel (codes, def.the_row.coded) };

    ghost view = { λ k. k.definitions.now };

    ghost invariant = { λ k. IsIndex k.definitions.now k.tables.names k.tables.tags.defined k.tables.tags.declared k.tables.transformed.structs k.tables.transformed.globals k.members.items };
}

/// Gives a name, if there is one, its place in the table, unless the table has it.
fn add_name(table: &mut Scopes<usize>, name: Option<&Text>, place: usize) -> Result<(), AllocError>
    ensures { OnOk result (table.new ≡ with_name (option_copied name.entry) place table.old) }
{
    if let Some(name) = name {
        table.declare(name.as_str(), place)?;
    }
    Ok(())
}

/// Of what definitions are found by, the first place of each.
fn table_of(alloc: Global, by: Key, definitions: &[Def]) -> Result<Scopes<usize>, AllocError>
    ensures { IfOk result (λ table. table ≡ table_of (keys by definitions.now)) }
{
    let mut table = Scopes::new(alloc);
    for place in 0..definitions.len() {
        add_name(&mut table, key_of(by, &definitions[place].kind), place)?;
    }
    Ok(table)
}

/// The tables of the tags of structs.
fn tags_of(alloc: Global, definitions: &[Def]) -> Result<Tags, AllocError>
    ensures defined { IfOk result (λ tags. tags.defined ≡ table_of (keys Key.Struct definitions.now)) }
    ensures declared { IfOk result (λ tags. tags.declared ≡ table_of (keys Key.Tag definitions.now)) }
{
    Ok(Tags {
        defined: table_of(alloc, Key::Struct, definitions)?,
        declared: table_of(alloc, Key::Tag, definitions)?,
    })
}

/// The tables of what transformers transform.
fn transformers_of(alloc: Global, definitions: &[Def]) -> Result<Transformed, AllocError>
    ensures structs { IfOk result (λ them. them.structs ≡ table_of (keys Key.StructTransformer definitions.now)) }
    ensures globals { IfOk result (λ them. them.globals ≡ table_of (keys Key.GlobalTransformer definitions.now)) }
{
    Ok(Transformed {
        structs: table_of(alloc, Key::StructTransformer, definitions)?,
        globals: table_of(alloc, Key::GlobalTransformer, definitions)?,
    })
}

/// The tables of all names that definitions are found by.
fn tables_of(alloc: Global, definitions: &[Def]) -> Result<Tables, AllocError>
    ensures names { IfOk result (λ tables. tables.names ≡ table_of (keys Key.Name definitions.now)) }
    ensures defined { IfOk result (λ tables. tables.tags.defined ≡ table_of (keys Key.Struct definitions.now)) }
    ensures declared { IfOk result (λ tables. tables.tags.declared ≡ table_of (keys Key.Tag definitions.now)) }
    ensures structs { IfOk result (λ tables. tables.transformed.structs ≡ table_of (keys Key.StructTransformer definitions.now)) }
    ensures globals { IfOk result (λ tables. tables.transformed.globals ≡ table_of (keys Key.GlobalTransformer definitions.now)) }
{
    Ok(Tables {
        names: table_of(alloc, Key::Name, definitions)?,
        tags: tags_of(alloc, definitions)?,
        transformed: transformers_of(alloc, definitions)?,
    })
}

/// Of the names of members, the first place of each.
fn member_table(alloc: Global, members: &[Binding]) -> Result<Scopes<usize>, AllocError>
    ensures { IfOk result (λ table. table ≡ table_of (member_keys members.now)) }
{
    let mut table = Scopes::new(alloc);
    for place in 0..members.len() {
        add_name(&mut table, Some(&members[place].name.text), place)?;
    }
    Ok(table)
}

/// For each definition the table of its members.
fn member_tables(alloc: Global, definitions: &[Def]) -> Result<Vec<Scopes<usize>>, AllocError>
    ensures { IfOk result (λ tables. tables.items ≡ member_tables definitions.now) }
{
    let mut tables = Vec::new(alloc);
    for definition in definitions {
        tables.push(member_table(alloc, own_members(&definition.kind))?)?;
    }
    Ok(tables)
}

/// The members of a struct's definition; of another none.
fn own_members(kind: &DefKind) -> &[Binding]
    ensures { result.now ≡ own_members kind.now }
{
    match members_in(kind) {
        Some(members) => members.as_slice(),
        None => &[],
    }
}

impl<'a> Known<'a> {
    /// Builds the tables of a text's definitions, in time linear in the text. It fails only when out of memory.
    pub fn of(alloc: Global, definitions: &'a [Def]) -> Result<Known<'a>, AllocError>
        ensures { IfOk result (λ known. known ≡ definitions.now) }
    {
        let members = member_tables(alloc, definitions)?;
        Ok(Known {
            definitions,
            tables: tables_of(alloc, definitions)?,
            members,
        })
    }

    /// The definitions themselves.
    pub fn definitions(&self) -> &'a [Def]
        ensures { result.now ≡ self.now }
    {
        self.definitions
    }

    /// The first place of each name that definitions are found by.
    fn table(&self, by: Key) -> &Scopes<usize>
        ensures { result.now ≡ table_of (keys by self.now) }
    {
        match by {
            Key::Name => &self.tables.names,
            Key::Struct => &self.tables.tags.defined,
            Key::Tag => &self.tables.tags.declared,
            Key::StructTransformer => &self.tables.transformed.structs,
            Key::GlobalTransformer => &self.tables.transformed.globals,
        }
    }

    /// The first place of a definition that is found by a name.
    #[tactic(auto, using(crate::proofs::Index::look_up_table))]
    fn place_of(&self, by: Key, name: &str) -> Option<usize>
        ensures { result ≡ place_of name.now (keys by self.now) }
    {
        self.table(by).find(name).copied()
    }

    /// The definition at a place.
    fn at(&self, place: Option<usize>) -> Option<&'a Def>
        ensures { option_copied result ≡ option_and_then (slice_get self.now) place }
    {
        match place {
            Some(place) => self.definitions().get(place),
            None => None,
        }
    }

    /// The first definition that is found by a name.
    fn find_by(&self, by: Key, name: &str) -> Option<&'a Def>
        ensures { option_copied result ≡ find (λ d. is_key name.now (key_of by d.kind)) self.now }
    {
        self.at(self.place_of(by, name))
    }

    /// Whether a definition before a place is found by a name.
    pub fn is_found_before(&self, by: Key, name: &str, place: usize) -> bool
        ensures { result ≡ list_any (is_key name.now) (keys by (take place self.now)) }
    {
        stands_before(self.place_of(by, name), place)
    }

    /// The first definition that declares a name: a function, a global, an array or a mutex; a struct's tag and a
    /// prototype declare none. One look into a table.
    #[tactic(auto, using(crate::proofs::Index::named_found))]
    pub fn definition_of(&self, name: &str) -> Option<&'a Def>
        ensures { option_copied result ≡ definition_of self.now name.now }
    {
        self.find_by(Key::Name, name)
    }

    /// Whether a tag is declared.
    #[tactic(auto, using(crate::proofs::Index::tag_found))]
    pub fn is_tag(&self, tag: &str) -> bool
        ensures { result ≡ is_tag self.now tag.now }
    {
        self.place_of(Key::Tag, tag).is_some()
    }

    /// Whether a type's tag is declared; an integer type and `thrd_t` have none.
    pub fn is_known(&self, declared: &CType) -> bool
        ensures { result ≡ is_known self.now declared.now }
    {
        match declared {
            CType::Handle(tag) => self.is_tag(tag.text.as_str()),
            CType::Integer(_) => true,
            CType::Thread => true,
        }
    }

    /// The first definition of a tag's struct; `struct T;` is none. One look into a table.
    #[tactic(auto, using(crate::proofs::Index::struct_found))]
    pub fn struct_of(&self, tag: &str) -> Option<&'a Def>
        ensures { option_copied result ≡ struct_of self.now tag.now }
    {
        self.find_by(Key::Struct, tag)
    }

    /// The first place of a tag's struct, where there is a tag.
    fn place_of_struct(&self, tag: Option<&str>) -> Option<usize>
        ensures { result ≡ option_and_then (λ tag. place_of tag (keys Key.Struct self.now)) (option_copied tag.entry) }
    {
        match tag {
            Some(tag) => self.place_of(Key::Struct, tag),
            None => None,
        }
    }

    /// The first definition of a full name: that of a struct with members is `struct` with its tag after a blank, and that of
    /// a function, a global, an array or a mutex is its own. One look into each of two tables.
    pub fn declared(&self, name: &str) -> Option<&'a Def>
        ensures { option_copied result ≡ declared_as self.now name.now }
    {
        let tagged = self.place_of_struct(tag_in(name));
        self.at(earlier(self.place_of(Key::Name, name), tagged))
    }

    /// The members of a tag's struct, where it is defined.
    pub fn members_of(&self, tag: &str) -> Option<&'a List<Binding>>
        ensures { option_copied result ≡ members_of self.now tag.now }
    {
        let def = self.struct_of(tag)?;
        members_in(&def.kind)
    }

    /// The type of a member of the definition at a place.
    fn member_at(&self, place: Option<usize>, name: &str) -> Option<&'a CType>
        ensures { option_copied result ≡ option_and_then (λ d. member (own_members d.kind) name.now) (option_and_then (slice_get self.now) place) }
    {
        let number = number_in(self.members.as_slice(), place, name);
        type_in(self.at(place), number)
    }

    /// The type of a member of a tag's struct.
    pub fn member(&self, tag: &str, name: &str) -> Option<&'a CType>
        ensures { option_copied result ≡ option_and_then (λ members. member members name.now) (members_of self.now tag.now) }
    {
        self.member_at(self.place_of(Key::Struct, tag), name)
    }
}

/// The tag in the full name of a struct; another name has none.
fn tag_in(name: &str) -> Option<&str>
    ensures { (tag : Bytes) → bytes_eq name.now (codes "struct " ++ tag)
        ≡ option_map_or (λ own. bytes_eq own tag) (option_copied result) false }
{
    name.strip_prefix("struct ")
}

/// The earlier of two places, where there are any.
fn earlier(first: Option<usize>, second: Option<usize>) -> Option<usize>
    ensures { result ≡ earlier first second }
{
    match (first, second) {
        (Some(first), Some(second)) => Some(first.min(second)),
        (Some(first), None) => Some(first),
        (None, second) => second,
    }
}

/// Whether the first is a place, and before the other.
fn stands_before(first: Option<usize>, place: usize) -> bool
    ensures { result ≡ stands_before first place }
{
    match first {
        Some(first) => first < place,
        None => false,
    }
}

/// What the table at a place has for a name.
fn number_in(tables: &[Scopes<usize>], place: Option<usize>, name: &str) -> Option<usize>
    ensures { result ≡ option_and_then (λ table. innermost table name.now) (option_and_then (slice_get tables.now) place) }
{
    tables.get(place?)?.find(name).copied()
}

/// The type of the member of a number.
fn type_at(members: &[Binding], number: Option<usize>) -> Option<&CType>
    ensures { option_copied result ≡ option_map (λ b. b.declared) (option_and_then (slice_get members.now) number) }
{
    let binding = members.get(number?)?;
    Some(&binding.declared)
}

/// The type of the member of a number of a definition.
fn type_in(definition: Option<&Def>, number: Option<usize>) -> Option<&CType>
    ensures { option_copied result ≡ option_and_then (λ d. option_map (λ b. b.declared) (option_and_then (slice_get (own_members d.kind)) number)) (option_copied definition.entry) }
{
    match definition {
        Some(definition) => type_at(own_members(&definition.kind), number),
        None => None,
    }
}
