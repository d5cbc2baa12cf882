//! The texts of a run.
ghost use Rattle.std.specs.Prelude.{◌≡◌, ◌<◌, ◌∷◌, [], ◌++◌, All, IfOk, OnOk, OnErr, codes, filter_map, length, map, option_copied, option_map, slice_get};
ghost use Rattle.std.specs.Option.{is_some, option_map_or};
ghost use Rattle.c_tree.specs.Bare.{bare_def};
ghost use Rattle.c_semantics.specs.Changes.{agree, same_interface};
ghost use Rattle.c_semantics.specs.Names.{struct_name};
ghost use Rattle.c_semantics.specs.Resolution.{resolved_body};
ghost use Rattle.c_semantics.specs.Texts.{definition, members_of as texts_members_of, parameters_of as texts_parameters_of, result_type};
ghost use Rattle.c_semantics.specs.Threads.{bind, body_pieces};
ghost use Rattle.source_model.specs.Installs.{is_mutex};
ghost use Rattle.source_model.specs.Worlds.{cells_at_first};
ghost use Rattle.version_laws.specs.Histories.{text_in as version_text};
ghost use Rattle.resolved_tree.specs.Nodes.{Table, word};
ghost use Rattle.resolved_tree.specs.Trees.{table};
ghost use Rattle.local_evaluation.specs.Pieces.{pending};
ghost use Rattle.local_evaluation.specs.Values.{seen};
ghost use Rattle.local_evaluation.specs.Work.{scopes_of};
ghost use Rattle.source_programs.specs.Definitions.{IsDefinition, bindings_of, members_of};
ghost use Rattle.source_programs.specs.Globals.{globals_of};
ghost use Rattle.source_programs.specs.Programs.{ArePrograms, IsReady, ReadyIf, current_of, name_of, table_of, text_at, text_if, trees_of, versions_of};

use crate::definition::{Binding, Definition, Name};
use crate::frame::{bind, put_body};
use crate::globals::{Globals, first_globals};
use crate::ready::{Ready, all_ready};
use crate::versions::Versions;
use c_ints::Kind;
use c_tree::{Def, DefKind};
use c_types::Typed;
use local_evaluation::{Value, Work};
use name_resolution::word;
use patch_compare::same_interface;
use resolved_tree::{Trees, ValueType, Word};
use std::alloc::{AllocError, Global};

/// The texts of a run, of which the first is that of its start, with the trees of their functions in one table, and the numbers
/// of those that were installed, in the order of the versions.
#[derive(Drop)]
pub struct Programs {
    texts: Vec<Ready>,
    trees: Trees,
    installed: Versions,
    /// The name `main`.
    main: Word,
}

impl Programs {
    /// Makes texts ready to run; the first of them is the first version.
    pub fn load(alloc: Global, texts: Vec<Typed>) -> Result<Programs, AllocError>
        requires { 0 < length texts.items }
        ensures texts { IfOk result (λ p. trees_of p ≡ texts.items) }
        ensures sound { IfOk result ArePrograms }
        ensures first { IfOk result (λ p. versions_of p ≡ text_at p 0 ∷ []) }
    {
        let mut trees = Trees::new(alloc);
        let (texts, main) = texts_and_main(alloc, &mut trees, texts)?;
        let installed = Versions::first(alloc)?;
        Ok(Programs {
            texts,
            trees,
            installed,
            main,
        })
    }

    /// The trees of the functions.
    pub fn trees(&self) -> &Trees
        ensures { table result.now ≡ table_of self.now }
    {
        &self.trees
    }

    /// The name `main`.
    pub fn main(&self) -> Word
        ensures { ArePrograms self.now → word (table_of self.now) result ≡ codes "main" }
    {
        self.main
    }

    /// The current version; the first is 1.
    pub fn version(&self) -> usize
        ensures { result ≡ length (versions_of self.now) }
    {
        self.installed.len()
    }

    /// The text with a number.
    pub fn text(&self, number: usize) -> Option<&Typed>
        ensures { option_copied result ≡ slice_get (trees_of self.now) number }
    {
        match self.texts.get(number) {
            Some(ready) => Some(&ready.text),
            None => None,
        }
    }

    /// A text is the next version.
    pub fn follow(&mut self, number: usize) -> Result<(), AllocError>
        requires { number < length (trees_of self.old) }
        ensures same { (trees_of self.new ≡ trees_of self.old) × (table_of self.new ≡ table_of self.old) }
        ensures sound { ArePrograms self.old → ArePrograms self.new }
        ensures follows { OnOk result (versions_of self.new ≡ versions_of self.old ++ text_at self.old number ∷ []) }
        ensures fault { OnErr result (self.new ≡ self.old) }
    {
        self.installed.push(number)
    }

    /// Whether a use of a name on behalf of a version is right: the name is defined, and has that version's interface.
    pub fn is_right(&self, version: usize, name: Name) -> bool
        ensures right { ArePrograms self.now → result ≡ agree same_interface
            (definition (version_text (versions_of self.now) version) (name_of (table_of self.now) name))
            (definition (current_of self.now) (name_of (table_of self.now) name)) }
    {
        if version == self.version() {
            self.find_in(self.in_force(), name).is_some()
        } else {
            self.keeps_interface(version, name)
        }
    }

    /// Whether a text defines a name.
    pub fn defines(&self, number: usize, name: Name) -> bool
        ensures { ArePrograms self.now → result ≡ is_some (definition (text_at self.now number) (name_of (table_of self.now) name)) }
    {
        self.find_in(self.numbered(number), name).is_some()
    }

    /// Whether a text and the version in force both define a name, with one interface.
    pub fn agrees(&self, number: usize, name: Name) -> bool
        ensures { ArePrograms self.now → result ≡ agree same_interface
            (definition (current_of self.now) (name_of (table_of self.now) name))
            (definition (text_at self.now number) (name_of (table_of self.now) name)) }
    {
        let then = self.tree_in(self.in_force(), name);
        let now = self.tree_in(self.numbered(number), name);
        have_one_interface(then, now)
    }

    /// What the version in force defines as a name.
    pub fn tree(&self, name: &str) -> Option<&Def>
        ensures { ArePrograms self.now → option_map bare_def (option_copied result) ≡ definition (current_of self.now) name.now }
    {
        match self.in_force() {
            Some(ready) => ready.tree_named(name),
            None => None,
        }
    }

    /// Whether a text defines a mutex of that name.
    pub fn has_mutex(&self, number: usize, name: Word) -> bool
        ensures { ArePrograms self.now → result ≡ is_mutex (definition (text_at self.now number) (word (table_of self.now) name)) }
    {
        match self.tree_in(self.numbered(number), Name::Plain(name)) {
            Some(definition) => matches!(definition.kind, DefKind::Mutex(_)),
            None => false,
        }
    }

    /// The fields that a text gives the struct with a tag.
    pub fn members_in(&self, number: usize, tag: Word) -> &[Binding]
        ensures { ArePrograms self.now → bindings_of (table_of self.now) result.now
            ≡ texts_members_of (definition (text_at self.now number) (struct_name (word (table_of self.now) tag))) }
    {
        members_of(self.find_in(self.numbered(number), Name::Struct(tag)))
    }

    /// The fields of the struct with a tag, in the version in force.
    pub fn members(&self, tag: Word) -> &[Binding]
        ensures { ArePrograms self.now → bindings_of (table_of self.now) result.now
            ≡ texts_members_of (definition (current_of self.now) (struct_name (word (table_of self.now) tag))) }
    {
        members_of(self.find_in(self.in_force(), Name::Struct(tag)))
    }

    /// The globals and arrays of a text, with their first values; none where there is no text of that number.
    pub fn globals_in(&self, alloc: Global, number: usize) -> Result<Globals, AllocError>
        ensures { IfOk result (λ globals. globals_of globals.list.items ≡ filter_map cells_at_first (text_at self.now number)) }
    {
        first_globals(alloc, definitions_of(self.numbered(number)))
    }

    /// Puts what a function of the version in force has to evaluate, and its variables, before other work; a name without a
    /// definition has nothing but its return.
    pub fn begin(
        &self,
        work: &mut Work,
        function: Word,
        arguments: &[Value],
    ) -> Result<(), AllocError>
        ensures pieces { ArePrograms self.now → OnOk result (pending (table_of self.now) work.new.pieces.items
            ≡ body_pieces (resolved_body (definition (current_of self.now)) (definition (current_of self.now) (word (table_of self.now) function)))
            (result_type (definition (current_of self.now) (word (table_of self.now) function))) ++ pending (table_of self.now) work.old.pieces.items) }
        ensures scopes { ArePrograms self.now → OnOk result (scopes_of (table_of self.now) work.new.scopes.items
            ≡ bind (texts_parameters_of (definition (current_of self.now) (word (table_of self.now) function))) (map seen arguments.now)
            ∷ scopes_of (table_of self.now) work.old.scopes.items) }
        ensures values { OnOk result (work.new.values.items ≡ work.old.values.items) }
    {
        match self.find_in(self.in_force(), Name::Plain(function)) {
            Some(definition) => {
                bind(
                    &mut work.scopes,
                    definition.parameters.as_slice(),
                    arguments,
                )?;
                put_body(
                    &self.trees,
                    &mut work.pieces,
                    definition.body,
                    definition.result,
                )
            }
            None => {
                bind(&mut work.scopes, &[], arguments)?;
                put_body(
                    &self.trees,
                    &mut work.pieces,
                    self.trees.nowhere(),
                    ValueType::Integer(Kind::I32),
                )
            }
        }
    }

    /// The text with a number, ready to run.
    fn numbered(&self, number: usize) -> Option<&Ready>
        ensures text { text_if (option_copied result) ≡ text_at self.now number }
        ensures ready { ArePrograms self.now → ReadyIf (table_of self.now) (option_copied result) }
    {
        self.texts.get(number)
    }

    /// The number of the text of a version.
    fn number_of(&self, version: usize) -> Option<usize>
        ensures { option_map_or (text_at self.now) result [] ≡ version_text (versions_of self.now) version }
    {
        if version == 0 {
            None
        } else {
            self.installed.get(version - 1)
        }
    }

    /// The text of a version, ready to run.
    fn of_version(&self, version: usize) -> Option<&Ready>
        ensures text { text_if (option_copied result) ≡ version_text (versions_of self.now) version }
        ensures ready { ArePrograms self.now → ReadyIf (table_of self.now) (option_copied result) }
    {
        match self.number_of(version) {
            Some(number) => self.numbered(number),
            None => None,
        }
    }

    /// The text in force, ready to run.
    fn in_force(&self) -> Option<&Ready>
        ensures text { text_if (option_copied result) ≡ current_of self.now }
        ensures ready { ArePrograms self.now → ReadyIf (table_of self.now) (option_copied result) }
    {
        self.of_version(self.version())
    }

    /// What a text that may be there defines as a name.
    fn find_in<'a>(&self, text: Option<&'a Ready>, name: Name) -> Option<&'a Definition>
        ensures { ReadyIf (table_of self.now) (option_copied text.entry) → IsDefinition (table_of self.now)
            (definition (text_if (option_copied text.entry))) (option_copied result)
            (definition (text_if (option_copied text.entry)) (name_of (table_of self.now) name)) }
    {
        match text {
            Some(ready) => ready.find(&self.trees, name),
            None => None,
        }
    }

    /// The tree of what a text that may be there defines as a name.
    fn tree_in<'a>(&self, text: Option<&'a Ready>, name: Name) -> Option<&'a Def>
        ensures { ReadyIf (table_of self.now) (option_copied text.entry) → option_map bare_def (option_copied result)
            ≡ definition (text_if (option_copied text.entry)) (name_of (table_of self.now) name) }
    {
        match text {
            Some(ready) => ready.tree(&self.trees, name),
            None => None,
        }
    }

    /// Whether a name has the interface that it has in a version's text.
    fn keeps_interface(&self, version: usize, name: Name) -> bool
        ensures { ArePrograms self.now → result ≡ agree same_interface
            (definition (version_text (versions_of self.now) version) (name_of (table_of self.now) name))
            (definition (current_of self.now) (name_of (table_of self.now) name)) }
    {
        let then = self.tree_in(self.of_version(version), name);
        let now = self.tree_in(self.in_force(), name);
        have_one_interface(then, now)
    }
}

/// Whether two definitions are there, with the same interface.
fn have_one_interface(then: Option<&Def>, now: Option<&Def>) -> bool
    ensures { result ≡ agree same_interface (option_map bare_def (option_copied then.entry)) (option_map bare_def (option_copied now.entry)) }
{
    match (then, now) {
        (Some(then), Some(now)) => same_interface(&then.kind, &now.kind),
        _ => false,
    }
}

/// The fields of a definition; none where there is none.
fn members_of(definition: Option<&Definition>) -> &[Binding]
    ensures { (t : Table) → bindings_of t result.now ≡ members_of t (option_copied definition.entry) }
{
    match definition {
        Some(definition) => definition.members.as_slice(),
        None => &[],
    }
}

/// The definitions of a text; none where there is none.
fn definitions_of(text: Option<&Ready>) -> &[Def]
    ensures { map bare_def result.now ≡ text_if (option_copied text.entry) }
{
    match text {
        Some(ready) => ready.text.program().definitions.as_slice(),
        None => &[],
    }
}

/// Texts, ready to run, and the name `main`.
fn texts_and_main(
    alloc: Global,
    trees: &mut Trees,
    texts: Vec<Typed>,
) -> Result<(Vec<Ready>, Word), AllocError>
    ensures ready { IfOk result (λ made. All (IsReady (table trees.new)) made.0.items) }
    ensures texts { IfOk result (λ made. map (λ r. r.text) made.0.items ≡ texts.items) }
    ensures main { IfOk result (λ made. word (table trees.new) made.1 ≡ codes "main") }
{
    let ready = all_ready(alloc, trees, texts)?;
    let main = word(trees, "main")?;
    Ok((ready, main))
}
