//! The bodies of a function in a store.
ghost use Rattle.std.specs.Prelude.{◌≡◌, ℕ, ◌<◌, ◌↔◌, List, IsTrue, length, option_copied};
ghost use Rattle.std.specs.Option.{option_map};
ghost use Rattle.name_sets.specs.Texts.{text_of};
ghost use Rattle.c_tree.specs.BareExpr.{Bytes};
ghost use Rattle.c_semantics.specs.Store.{Body};
ghost use Rattle.c_semantics.specs.Store as meant;
ghost use Rattle.effects.specs.Sites.{Site, IsEntry};
ghost use Rattle.code_store.specs.Stored.{meant_body, IsStoreOf};

use code_store::StoredBody;
use name_sets::NameId;

/// The generation of the body of a function in force in a version, which is the greatest up to it; 0 if the function has no
/// body by then.
pub(crate) fn generation_by(bodies: &[StoredBody], function: NameId, version: u32) -> u32
    ensures { (names : List Bytes) (all : List Body) → IsStoreOf names all bodies.now
        → function < length names
        → result ≡ meant.generation_by (text_of names function) version all }
{
    let mut generation: u32 = 0;
    for body in bodies {
        if body.function.index() == function.index() && body.generation <= version {
            generation = generation.max(body.generation);
        }
    }
    generation
}

/// The body of a function of a generation, if there is one.
pub(crate) fn body_in(
    bodies: &[StoredBody],
    function: NameId,
    generation: u32,
) -> Option<&StoredBody>
    ensures { (names : List Bytes) (all : List Body) → IsStoreOf names all bodies.now
        → function < length names
        → option_map (meant_body names) (option_copied result)
        ≡ meant.body_in all (text_of names function) generation }
{
    for body in bodies {
        if body.function.index() == function.index() && body.generation == generation {
            return Some(body);
        }
    }
    None
}

/// Whether a body of a function has an entry.
pub(crate) fn has_entry(bodies: &[StoredBody], function: NameId) -> bool
    ensures { (names : List Bytes) (all : List Body) → IsStoreOf names all bodies.now
        → function < length names
        → IsTrue result ↔ ((e : Site) × IsEntry all e (text_of names function)) }
{
    for body in bodies {
        if body.function.index() == function.index() && body.skeleton.points.first().is_some() {
            return true;
        }
    }
    false
}
