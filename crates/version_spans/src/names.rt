//! Sets of names, in which a struct is found by its tag.
ghost use Rattle.std.specs.Prelude.{◌≡◌, ◌||◌, [], OnErr, OnOk, bytes_eq, false, option_copied};
ghost use Rattle.std.specs.Option.{option_map_or};
ghost use Rattle.std.specs.List.{list_any};
ghost use Rattle.c_tree.specs.BareExpr.{Bytes};
ghost use Rattle.name_sets.specs.NameLists.{is_among};
ghost use Rattle.c_semantics.specs.Names.{struct_name};
ghost use Rattle.version_spans.specs.declared.names.NameForm.{NameForm as Form};
ghost use Rattle.version_spans.specs.Kept.{name_of, texts_in, with_name};

use crate::texts::TextSet;
use std::alloc::{AllocError, Global};

/// How a name is given.
#[derive(Clone, Copy)]
pub enum NameForm {
    /// By its text.
    Plain,
    /// By the tag of a struct, whose name is `struct` with the tag after a blank.
    Struct,
}

/// Names, of which some are given by their texts, and others by the tags of structs.
#[derive(Drop)]
pub(crate) struct NameSet {
    plain: TextSet,
    tags: TextSet,
}

impl NameSet {
    /// No names. It takes no memory yet.
    pub(crate) fn new(alloc: Global) -> NameSet
        ensures { (result.plain ≡ []) × (result.tags ≡ []) }
    {
        NameSet {
            plain: TextSet::new(alloc),
            tags: TextSet::new(alloc),
        }
    }

    /// Whether a name is in the set in its form.
    pub(crate) fn has(&self, form: NameForm, text: &str) -> bool
        ensures { result ≡ is_among (texts_in self.now form) text.now }
    {
        match form {
            NameForm::Plain => self.plain.has(text),
            NameForm::Struct => self.tags.has(text),
        }
    }

    /// Puts a name in, if it isn't there in this form. Lack of memory changes nothing.
    pub(crate) fn put(&mut self, form: NameForm, text: &str) -> Result<(), AllocError>
        ensures name { OnOk result (self.new ≡ with_name self.old form text.now) }
        ensures fault { OnErr result (self.new ≡ self.old) }
    {
        match form {
            NameForm::Plain => self.plain.put(text),
            NameForm::Struct => self.tags.put(text),
        }
    }

    /// Puts a name in, in each of its forms.
    pub(crate) fn put_in_forms(&mut self, name: &str) -> Result<(), AllocError>
        ensures { OnOk result ((form : Form) (text : Bytes)
            → is_among (texts_in self.new form) text ≡ (bytes_eq (name_of form text) name.now || is_among (texts_in self.old form) text)) }
    {
        self.plain.put(name)?;
        put_tag(&mut self.tags, name)
    }

    /// Takes all names out, and gives their memory back.
    pub(crate) fn clear(&mut self)
        ensures { (self.new.plain ≡ []) × (self.new.tags ≡ []) }
    {
        self.plain.clear();
        self.tags.clear();
    }

    /// Whether some name of the set is in another in the same form.
    pub(crate) fn meets(&self, other: &NameSet) -> bool
        ensures { result ≡ (list_any (is_among other.now.plain) self.now.plain || list_any (is_among other.now.tags) self.now.tags) }
    {
        self.plain.meets(&other.plain) || self.tags.meets(&other.tags)
    }
}

/// Puts in the tag of a struct's name; another name has none.
fn put_tag(tags: &mut TextSet, name: &str) -> Result<(), AllocError>
    ensures { OnOk result ((tag : Bytes) → is_among tags.new tag ≡ (bytes_eq (struct_name tag) name.now || is_among tags.old tag)) }
{
    match tag_in(name) {
        Some(tag) => tags.put(tag),
        None => Ok(()),
    }
}

/// The tag in the full name of a struct; another name has none.
fn tag_in(name: &str) -> Option<&str>
    ensures { (tag : Bytes) → bytes_eq (struct_name tag) name.now ≡ option_map_or (bytes_eq tag) (option_copied result) false }
{
    name.strip_prefix("struct ")
}
