//! A newer text, in which definitions and transformers are found by their names.
ghost use Rattle.std.specs.Prelude.{◌≡◌, ◌≤◌, map, find, length, option_map, option_and_then, option_copied, IfOk, IfSome, OnOk};
ghost use Rattle.std.specs.List.{slice_get};
ghost use Rattle.c_tree.specs.Bare.{bare_def, bare_expr, bare_field_value};
ghost use Rattle.c_definitions.specs.Index.{is_key, place_of, table_of, with_name};
ghost use Rattle.c_semantics.specs.Texts.{definition};
ghost use Rattle.c_semantics.specs.Transformers.{given_fields, given_value};
ghost use Rattle.versioned_structs.specs.Limits.{most_fields};
ghost use Rattle.type_transformers.specs.Newer.{target_name, keys, values_in, expr_in, members_in};

use c_definitions::Known;
use c_scope::Scopes;
use c_tree::{Def, DefKind, Expr, FieldValue};
use c_types::Typed;
use dsu_io::Text;
use std::alloc::{AllocError, Global};
use std::marker::Model;

/// What is transformed.
#[derive(Clone, Copy)]
pub(crate) enum Target {
    Struct,
    Global,
}

/// A newer text, with tables of its names and transformers. Contracts see the list of its definitions.
#[derive(Drop)]
pub(crate) struct Newer<'a> {
    definitions: &'a [Def],
    known: Known<'a>,
    /// The first place of a transformer of each tag.
    structs: Scopes<usize>,
    /// The first place of a transformer of each global.
    globals: Scopes<usize>,
}

impl<'a> Model for Newer<'a> {
    ghost use Rattle.std.specs.Prelude.{◌≡◌, List as ListOf};
    ghost use Rattle.c_tree.specs.declared.def.Def.{Def};
    ghost use Rattle.std.specs.Coded.{codes};
    ghost use Rattle.c_tree.specs.contracts.def.Def as def;
    ghost use Rattle.c_definitions.specs.Index.{table_of};
    ghost use Rattle.type_transformers.specs.declared.newer.Target.TheVariants.{Struct, Global};
    ghost use Rattle.type_transformers.specs.Newer.{keys, HasSmallStructs};

    ghost Value = { ListOf Def };

    ghost coded = { Prim.hlevel (codes, def.the_row.coded) };

    ghost view = { λ n. n.definitions.now };

    ghost invariant = { λ n. (n.known ≡ n.definitions.now)
        × (n.structs ≡ table_of (keys Struct n.definitions.now))
        × (n.globals ≡ table_of (keys Global n.definitions.now))
        × HasSmallStructs n.definitions.now };
}

/// Gives a name, if there is one, its place in the table, unless the table has it.
fn add_name(table: &mut Scopes<usize>, name: Option<&Text>, place: usize) -> Result<(), AllocError>
    ensures { OnOk result (table.new ≡ with_name (option_copied name.entry) place table.old) }
{
    if let Some(name) = name {
        table.declare(name.as_str(), place)?;
    }
    Ok(())
}

/// The name of what a transformer transforms.
fn target_name(target: Target, kind: &DefKind) -> Option<&Text>
    ensures { option_copied result ≡ target_name target kind.now }
{
    match (target, kind) {
        (Target::Struct, DefKind::TransformStruct(transform)) => Some(&transform.name.text),
        (Target::Global, DefKind::TransformGlobal(name, _)) => Some(&name.text),
        _ => None,
    }
}

/// The first place of each name that is transformed.
fn table_of(alloc: Global, target: Target, definitions: &[Def]) -> Result<Scopes<usize>, AllocError>
    ensures { IfOk result (λ table. table ≡ table_of (keys target definitions.now)) }
{
    let mut table = Scopes::new(alloc);
    for place in 0..definitions.len() {
        add_name(
            &mut table,
            target_name(target, &definitions[place].kind),
            place,
        )?;
    }
    Ok(table)
}

impl<'a> Newer<'a> {
    /// Builds the tables, in time linear in the text.
    pub(crate) fn of(alloc: Global, text: &'a Typed) -> Result<Newer<'a>, AllocError>
        ensures { IfOk result (λ newer. newer ≡ text.now.definitions) }
    {
        let definitions = text.program().definitions.as_slice();
        let known = Known::of(alloc, definitions)?;
        let structs = table_of(alloc, Target::Struct, definitions)?;
        let globals = table_of(alloc, Target::Global, definitions)?;
        Ok(Newer {
            definitions,
            known,
            structs,
            globals,
        })
    }

    /// The definition of a full name, which for a struct is `struct` and its tag after a blank.
    pub(crate) fn definition(&self, name: &str) -> Option<&'a Def>
        ensures found { option_map (λ d. bare_def d.now) result ≡ definition (map bare_def self.now) name.now }
        ensures small { IfSome result (λ d. length (members_in d.now.kind) ≤ most_fields) }
    {
        self.known.declared(name)
    }

    /// The first transformer of a name.
    fn transformer(&self, target: Target, name: &str) -> Option<&'a Def>
        ensures { option_copied result ≡ find (λ d. is_key name.now (target_name target d.kind)) self.now }
    {
        self.at(self.place_of(target, name))
    }

    /// The place of the first transformer of a name.
    #[tactic(auto, using(c_definitions::proofs::Index::look_up_table))]
    fn place_of(&self, target: Target, name: &str) -> Option<usize>
        ensures { result ≡ place_of name.now (keys target self.now) }
    {
        self.table(target).find(name).copied()
    }

    /// The definition at a place.
    fn at(&self, place: Option<usize>) -> Option<&'a Def>
        ensures { option_copied result ≡ option_and_then (slice_get self.now) place }
    {
        match place {
            Some(place) => self.definitions.get(place),
            None => None,
        }
    }

    fn table(&self, target: Target) -> &Scopes<usize>
        ensures { result.now ≡ table_of (keys target self.now) }
    {
        match target {
            Target::Struct => &self.structs,
            Target::Global => &self.globals,
        }
    }

    /// What the transformer of a tag's struct gives; nothing without a transformer.
    pub(crate) fn fields_given(&self, tag: &str) -> &'a [FieldValue]
        ensures { map bare_field_value result.now ≡ given_fields (map bare_def self.now) tag.now }
    {
        match self.transformer(Target::Struct, tag) {
            Some(definition) => values_in(&definition.kind),
            None => &[],
        }
    }

    /// The expression of a global's transformer.
    pub(crate) fn value_given(&self, name: &str) -> Option<&'a Expr>
        ensures { option_map bare_expr (option_copied result) ≡ given_value (map bare_def self.now) name.now }
    {
        match self.transformer(Target::Global, name) {
            Some(definition) => expr_in(&definition.kind),
            None => None,
        }
    }
}

fn values_in(kind: &DefKind) -> &[FieldValue]
    ensures { result.now ≡ values_in kind.now }
{
    match kind {
        DefKind::TransformStruct(transform) => transform.values.as_slice(),
        _ => &[],
    }
}

fn expr_in(kind: &DefKind) -> Option<&Expr>
    ensures { option_copied result ≡ expr_in kind.now }
{
    match kind {
        DefKind::TransformGlobal(_, value) => Some(value),
        _ => None,
    }
}
