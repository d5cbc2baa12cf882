//! A text that is ready to run.
ghost use Rattle.std.specs.Prelude.{◌≡◌, All, IfOk, OnOk, Some, bytes_eq, if◌then◌else◌, map, option_copied, option_map, slice_get};
ghost use Rattle.std.specs.List.{position};
ghost use Rattle.c_tree.specs.Bare.{bare_def};
ghost use Rattle.c_tree.specs.BareExpr.{Bytes};
ghost use Rattle.c_semantics.specs.Names.{struct_name};
ghost use Rattle.c_semantics.specs.Texts.{definition};
ghost use Rattle.name_resolution.specs.Found.{Grows};
ghost use Rattle.resolved_tree.specs.Nodes.{Table, word};
ghost use Rattle.resolved_tree.specs.Trees.{table};
ghost use Rattle.source_programs.specs.Definitions.{kept};
ghost use Rattle.source_programs.specs.Places.{place_in};
ghost use Rattle.source_programs.specs.Programs.{IsReady, name_of, text_of};

use crate::definition::{Definition, Name};
use crate::places::Places;
use crate::resolved::definitions_of;
use c_tree::Def;
use c_types::Typed;
use resolved_tree::Trees;
use std::alloc::{AllocError, Global};

/// A text, with what it defines by name.
#[derive(Drop)]
pub(crate) struct Ready {
    pub text: Typed,
    pub definitions: Vec<Definition>,
    /// Where the first definition of a name is, and where that of the struct with a tag is.
    pub names: Places,
    pub tags: Places,
}

impl Ready {
    /// What is defined as a name.
    pub(crate) fn find(&self, trees: &Trees, name: Name) -> Option<&Definition>
        ensures { IsReady (table trees.now) self.now → option_copied result
            ≡ kept (table trees.now) self.now.definitions.items (name_of (table trees.now) name) }
    {
        match self.place_of(trees, name) {
            Some(place) => self.at(place),
            None => None,
        }
    }

    /// The tree of what is defined as a name.
    pub(crate) fn tree(&self, trees: &Trees, name: Name) -> Option<&Def>
        ensures { IsReady (table trees.now) self.now → option_map bare_def (option_copied result)
            ≡ definition (text_of self.now) (name_of (table trees.now) name) }
    {
        match self.find(trees, name) {
            Some(definition) => self.tree_at(definition.place),
            None => None,
        }
    }

    /// The tree of what is defined as a name that has no word.
    pub(crate) fn tree_named(&self, name: &str) -> Option<&Def>
        ensures { (t : Table) → IsReady t self.now → option_map bare_def (option_copied result) ≡ definition (text_of self.now) name.now }
    {
        match self.named(name) {
            Some(definition) => self.tree_at(definition.place),
            None => None,
        }
    }

    /// What is defined as a name that has no word.
    fn named(&self, name: &str) -> Option<&Definition>
        ensures { (t : Table) → IsReady t self.now → option_copied result ≡ kept t self.now.definitions.items name.now }
    {
        match self.names.find(name) {
            Some(place) => self.at(place),
            None => None,
        }
    }

    /// The place of what is defined as a name.
    fn place_of(&self, trees: &Trees, name: Name) -> Option<usize>
        ensures { IsReady (table trees.now) self.now → result
            ≡ position (λ d. bytes_eq (name_of (table trees.now) name) (word (table trees.now) d.name)) self.now.definitions.items }
    {
        match name {
            Name::Plain(name) => self.names.find(trees.text(name)),
            Name::Struct(tag) => self.tags.find(trees.text(tag)),
        }
    }

    /// The definition at a place.
    fn at(&self, place: usize) -> Option<&Definition>
        ensures { option_copied result ≡ slice_get self.now.definitions.items place }
    {
        self.definitions.get(place)
    }

    /// The tree at a place among the text's definitions.
    fn tree_at(&self, place: usize) -> Option<&Def>
        ensures { option_map bare_def (option_copied result) ≡ slice_get (text_of self.now) place }
    {
        self.text.program().definitions.as_slice().get(place)
    }
}

/// Makes texts ready, in order.
pub(crate) fn all_ready(
    alloc: Global,
    trees: &mut Trees,
    texts: Vec<Typed>,
) -> Result<Vec<Ready>, AllocError>
    ensures ready { IfOk result (λ all. (u : Table) → Grows (table trees.new) u → All (IsReady u) all.items) }
    ensures texts { IfOk result (λ all. map (λ r. r.text) all.items ≡ texts.items) }
    ensures grows { Grows (table trees.old) (table trees.new) }
{
    let mut all = Vec::with_capacity(alloc, texts.len())?;
    for text in texts {
        let ready = ready_of(alloc, trees, text)?;
        all.push(ready)?;
    }
    Ok(all)
}

/// Makes a text ready; the trees of its functions are added to the table.
fn ready_of(alloc: Global, trees: &mut Trees, text: Typed) -> Result<Ready, AllocError>
    ensures ready { IfOk result (λ ready. (u : Table) → Grows (table trees.new) u → IsReady u ready) }
    ensures text { IfOk result (λ ready. ready.text ≡ text) }
    ensures grows { Grows (table trees.old) (table trees.new) }
{
    let definitions = definitions_of(alloc, trees, text.program().definitions.as_slice())?;
    let (names, tags) = places_of(alloc, trees, definitions.as_slice())?;
    Ok(Ready {
        text,
        definitions,
        names,
        tags,
    })
}

/// Where the first definition of each name is, and where that of the struct with each tag is.
fn places_of(
    alloc: Global,
    trees: &Trees,
    definitions: &[Definition],
) -> Result<(Places, Places), AllocError>
    ensures names { IfOk result (λ both. (name : Bytes) → place_in both.0 name
        ≡ position (λ d. bytes_eq name (word (table trees.now) d.name)) definitions.now) }
    ensures tags { IfOk result (λ both. (tag : Bytes) → place_in both.1 tag
        ≡ position (λ d. bytes_eq (struct_name tag) (word (table trees.now) d.name)) definitions.now) }
{
    let names = places_of_names(alloc, trees, definitions)?;
    let tags = places_of_tags(alloc, trees, definitions)?;
    Ok((names, tags))
}

/// Where the first definition of each name is.
fn places_of_names(
    alloc: Global,
    trees: &Trees,
    definitions: &[Definition],
) -> Result<Places, AllocError>
    ensures { IfOk result (λ places. (name : Bytes) → place_in places name
        ≡ position (λ d. bytes_eq name (word (table trees.now) d.name)) definitions.now) }
{
    let mut places = Places::new(alloc);
    let mut left = definitions.len();
    while left > 0 {
        left -= 1;
        places.put(trees.text(definitions[left].name), left)?;
    }
    Ok(places)
}

/// Where the first definition of the struct with each tag is.
fn places_of_tags(
    alloc: Global,
    trees: &Trees,
    definitions: &[Definition],
) -> Result<Places, AllocError>
    ensures { IfOk result (λ places. (tag : Bytes) → place_in places tag
        ≡ position (λ d. bytes_eq (struct_name tag) (word (table trees.now) d.name)) definitions.now) }
{
    let mut places = Places::new(alloc);
    let mut left = definitions.len();
    while left > 0 {
        left -= 1;
        put_tag(&mut places, trees.text(definitions[left].name), left)?;
    }
    Ok(places)
}

/// Gives the tag of a struct's name a place; another name has no tag.
fn put_tag(places: &mut Places, name: &str, place: usize) -> Result<(), AllocError>
    ensures { OnOk result ((tag : Bytes) → place_in places.new tag
        ≡ (if bytes_eq (struct_name tag) name.now then Some place else place_in places.old tag)) }
{
    match name.strip_prefix("struct ") {
        Some(tag) => places.put(tag, place),
        None => Ok(()),
    }
}
