//! The object that a stop uses, brought to the layout of the text in force.
ghost use Rattle.std.specs.Prelude.{◌≡◌, ◌+◌, ◌<◌, ◌≤◌, List, Some, length, ℕ};
ghost use Rattle.c_tree.specs.BareExpr.{Bytes};
ghost use Rattle.c_tree.specs.BareDef.{BareDef};
ghost use Rattle.c_semantics.specs.Stops as seen_stop;
ghost use Rattle.version_laws.specs.Histories.{last_text};
ghost use Rattle.resolved_tree.specs.Nodes.{Table};
ghost use Rattle.code_runs.specs.CodeData.{Names};
ghost use Rattle.code_runs.specs.Layouts.{Freshens, used_object};
ghost use Rattle.word_data.specs.Resolved.{Resolves, takes};
ghost use Rattle.word_data.specs.Stacks.{stack_of};
ghost use Rattle.word_layouts.specs.WordChanges.{StandFor};
ghost use Rattle.word_installs.specs.Freshened.{HasLayouts, NumbersStructs, used_handle};

use object_store::Handle;
use word_data::{SharedStop, Stack, WordData};
use word_layouts::WordLayouts;

/// Brings the object whose field a stop uses to the layout of the text in force; other stops use none, and nothing changes. Its handle
/// is on the stack, which is a part of `words`. It takes no memory. Where the object has the layout already it is looked up, and two
/// numbers are compared; else it takes the time of [`WordLayouts::bring`].
#[inline(always)]
pub fn freshen(
    shared: &mut WordData,
    layouts: &WordLayouts,
    stop: SharedStop,
    words: &[u64],
    stack: Stack,
)
    requires taken { takes stop ≤ stack.height }
    requires space { stack.low + stack.height ≤ length words.now }
    ensures freshens { (t : Table) (names : Names) (texts : List (List BareDef)) (text : List BareDef) (seen : seen_stop.Stop)
        → Resolves t names text seen stop → StandFor texts names.tags layouts.now.versions.items
        → shared.old.version + 1 ≡ length texts → HasLayouts shared.old → NumbersStructs names (last_text texts)
        → Freshens texts names seen (stack_of words.now stack) shared.old shared.new }
    ensures version { shared.new.version ≡ shared.old.version }
    ensures created { shared.new.objects.created ≡ shared.old.objects.created }
{
    if let Some(handle) = used_handle(stop, words, stack) {
        bring(shared, layouts, Handle::new(handle));
    }
}

/// The handle of the object whose field a stop uses.
#[inline(always)]
fn used_handle(stop: SharedStop, words: &[u64], stack: Stack) -> Option<u64>
    requires taken { takes stop ≤ stack.height }
    requires space { stack.low + stack.height ≤ length words.now }
    ensures { result ≡ used_handle stop (stack_of words.now stack) }
{
    match stop {
        SharedStop::ReadField(_) => Some(words[stack.low + stack.height - 1]),
        SharedStop::WriteField(_) => Some(words[stack.low + stack.height - 2]),
        _ => None,
    }
}

/// Brings the object of a handle to the layout of the text in force, if one lives under it.
fn bring(shared: &mut WordData, layouts: &WordLayouts, handle: Handle)
    ensures freshens { (names : Names) (texts : List (List BareDef)) (seen : seen_stop.Stop) (words : List ℕ) (tag : Bytes)
        → used_object seen words ≡ Some (tag, handle) → StandFor texts names.tags layouts.now.versions.items
        → shared.old.version + 1 ≡ length texts → HasLayouts shared.old → NumbersStructs names (last_text texts)
        → Freshens texts names seen words shared.old shared.new }
    ensures version { shared.new.version ≡ shared.old.version }
    ensures created { shared.new.objects.created ≡ shared.old.objects.created }
{
    let version = shared.version();
    let Some(own) = shared.object(handle) else {
        return;
    };
    if own.layout >= version {
        return;
    }
    let mut object = *own;
    layouts.bring(&mut object, version);
    shared.set_object(handle, object);
}
