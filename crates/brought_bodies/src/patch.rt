//! Which functions get a new body.
ghost use Rattle.std.specs.Prelude.{◌≡◌, ℕ, ◌||◌, not, false, List, map, length, slice_get, Some, IfOk, IfSome, IsErrOf, option_map};
ghost use Rattle.std.specs.Bool.{OnTrue};
ghost use Rattle.std.specs.List.{list_any};
ghost use Rattle.c_tree.specs.Bare.{bare_def, bare_function};
ghost use Rattle.c_tree.specs.BareDef.{BareDef};
ghost use Rattle.c_semantics.specs.Texts.{names};
ghost use Rattle.c_semantics.specs.Skeletons.{direct_uses};
ghost use Rattle.c_semantics.specs.SourceTexts.{Text};
ghost use Rattle.c_semantics.specs.Store.{body_of, tokens_of};
ghost use Rattle.name_sets.specs.IdSet.{Holds};
ghost use Rattle.name_sets.specs.NameLists.{is_among};
ghost use Rattle.name_resolution.specs.Known.{known_of};
ghost use Rattle.skeletons.specs.Meaning.{meant};
ghost use Rattle.skeleton_gen.specs.Naming.{AllKnown};
ghost use Rattle.code_store.specs.Stored.{meant_body};
ghost use Rattle.brought_bodies.specs.Sets.{IsSetOf};
ghost use Rattle.brought_bodies.specs.Patches.{HasSets, IsBodyOf};
ghost use Rattle.brought_bodies.specs.Unknown.{IsUnknownIn};

use crate::fault::BodyFault;
use crate::skeleton::skeleton_in;
use crate::uses::{is_empty, uses_any};
use c_definitions::Known;
use c_tree::Function;
use code_store::StoredBody;
use name_sets::{NameId, NameSet, Names};
use skeletons::Skeleton;
use std::alloc::Global;

/// A text that follows another.
#[derive(Drop)]
pub(crate) struct Patch<'a> {
    /// The version that the text becomes.
    pub version: u32,
    pub names: &'a Names,
    /// The names whose definitions change.
    pub changed: &'a NameSet,
    /// The names whose interfaces change.
    pub interface: &'a NameSet,
    /// The definitions of the older text.
    pub old: &'a Known<'a>,
    /// Those of the text itself.
    pub new: &'a Known<'a>,
}

/// Whether a text defines a name.
fn is_defined(known: &Known, name: &str) -> bool
    ensures { result ≡ is_among (names (map bare_def known.now)) name.now }
{
    known.declared(name).is_some()
}

impl<'a> Patch<'a> {
    /// Whether a function is added or changed.
    fn is_own(&self, name: &str, id: NameId) -> bool
        ensures { (changed : List (List ℕ)) → IsSetOf self.now.names.now self.now.changed.now changed
            → slice_get self.now.names.now id ≡ Some name.now
            → result ≡ (not (is_among (names (map bare_def self.now.old.now)) name.now)
            || is_among changed name.now) }
    {
        !is_defined(self.old, name) || self.changed.holds(id)
    }

    /// Whether a function that may be added or changed gets no new body, whatever it uses.
    fn has_no_reason(&self, is_own: bool) -> bool
        ensures own { OnTrue result (is_own ≡ false) }
        ensures interface { OnTrue result ((id : ℕ) → ¬ Holds self.now.interface.now id) }
    {
        !is_own && is_empty(self.interface)
    }

    /// Whether a function that may be added or changed gets a new body, by its skeleton.
    fn has_reason(&self, is_own: bool, skeleton: &Skeleton) -> bool
        ensures { (interface : List (List ℕ)) → IsSetOf self.now.names.now self.now.interface.now interface
            → AllKnown (length self.now.names.now) skeleton.now.points.items
            → result ≡ (is_own || list_any (is_among interface) (direct_uses (meant self.now.names.now skeleton.now))) }
    {
        is_own || uses_any(skeleton, self.interface)
    }

    /// The new body of a function of the text, if it gets one.
    pub(crate) fn new_body(
        &self,
        alloc: Global,
        function: &Function,
    ) -> Result<Option<StoredBody>, BodyFault>
        ensures body { (q : Text) → q.definitions ≡ map bare_def self.now.new.now → HasSets self.now
            → tokens_of q function.now.name.text ≡ function.now.tokens
            → IfOk result (λ body. option_map (meant_body self.now.names.now) body
            ≡ body_of self.now.version (map bare_def self.now.old.now) q (bare_function function.now)) }
        ensures known { IfOk result (λ body.
            IfSome body (IsBodyOf self.now.names.now self.now.version function.now.name.text)) }
        ensures unknown { IsErrOf result BodyFault.Unknown
            → IsUnknownIn self.now.names.now (known_of self.now.new.now) (bare_function function.now) }
    {
        let name = function.name.text.as_str();
        let Some(id) = self.names.find(name) else {
            return Err(BodyFault::Unknown);
        };
        let is_own = self.is_own(name, id);
        if self.has_no_reason(is_own) {
            return Ok(None);
        }
        let skeleton = skeleton_in(alloc, self.new, self.names, function)?;
        if !self.has_reason(is_own, &skeleton) {
            return Ok(None);
        }
        Ok(Some(StoredBody {
            function: id,
            generation: self.version,
            tokens: function.tokens,
            skeleton,
        }))
    }
}
