//! Reads and writes of places whose parts are the newest words.
ghost use Rattle.std.specs.Prelude.{◌≡◌, IfOk, OnOk};
ghost use Rattle.resolved_tree.specs.Nodes.{Table, place_of};
ghost use Rattle.c_semantics.specs.Evaluation.{has_part as has_part_of};
ghost use Rattle.typed_trees.specs.ExpressionTypes.{place_type};
ghost use Rattle.bytecode.specs.Seen.{instruction_of};
ghost use Rattle.tree_code.specs.Code.{kind_of_type, getting, setting, setting_only, copying as copying_of, tucking as tucking_of, swapping as swapping_of};
ghost use Rattle.expr_gen.specs.Endings.{writing};
ghost use Rattle.expr_gen.specs.Scope.{trees_of, look_of, scope_of, Adds, code_if};

use crate::context::Context;
use crate::emit::put;
use crate::known::{field_kind, global_kind};
use crate::variables::{slot, variable_kind};
use bytecode::{Instr, ValueKind};
use local_evaluation::Stop;
use resolved_tree::Place;
use std::alloc::AllocError;

/// The kind of what is in a place.
pub(crate) fn place_kind(context: &Context, place: Place) -> Result<ValueKind, AllocError>
    ensures { IfOk result (λ kind. kind ≡ kind_of_type
        (place_type (look_of context.now) (scope_of context.now) (place_of (trees_of context.now) place))) }
{
    match place {
        Place::Local(name) => Ok(variable_kind(context.trees, context.variables, name)),
        Place::Global(name) | Place::Element(name, _) => {
            Ok(global_kind(context.known, context.trees.text(name)))
        }
        Place::Field(tag, _, name) => field_kind(context, tag, name),
    }
}

/// The read of a place.
pub(crate) fn get(context: &Context, place: Place, n: u32) -> Result<Instr, AllocError>
    ensures { let t = trees_of context.now in
        IfOk result (λ i. instruction_of t i ≡ getting (scope_of context.now) (place_of t place) n) }
{
    match place {
        Place::Local(name) => {
            let number = slot(context, name)?;
            Ok(Instr::Load(number))
        }
        Place::Global(name) => Ok(Instr::Halt(Stop::ReadGlobal(name), n)),
        Place::Element(name, _) => Ok(Instr::Halt(Stop::ReadElement(name), n)),
        Place::Field(tag, _, name) => Ok(Instr::Halt(Stop::ReadField(tag, name), n)),
    }
}

/// The write of a place, which takes the newest word.
fn write(context: &Context, place: Place, n: u32) -> Result<Instr, AllocError>
    ensures { let t = trees_of context.now in
        IfOk result (λ i. instruction_of t i ≡ writing (scope_of context.now) (place_of t place) n) }
{
    match place {
        Place::Local(name) => {
            let number = slot(context, name)?;
            Ok(Instr::Store(number))
        }
        Place::Global(name) => Ok(Instr::Halt(Stop::WriteGlobal(name), n)),
        Place::Element(name, _) => Ok(Instr::Halt(Stop::WriteElement(name), n)),
        Place::Field(tag, _, name) => Ok(Instr::Halt(Stop::WriteField(tag, name), n)),
    }
}

/// Adds the write of a place, after which the word stays. A stop leaves it there by itself.
pub(crate) fn set(
    context: &Context,
    code: &mut Vec<Instr>,
    place: Place,
    n: u32,
) -> Result<(), AllocError>
    ensures { let t = trees_of context.now in OnOk result
        (Adds t code.old.items code.new.items (setting (scope_of context.now) (place_of t place) n)) }
{
    let write = write(context, place, n)?;
    match place {
        Place::Local(_) => put(code, &[Instr::Copy, write]),
        Place::Global(_) | Place::Element(_, _) | Place::Field(_, _, _) => put(code, &[write]),
    }
}

/// Adds the write of a place, after which the word is dropped.
pub(crate) fn set_only(
    context: &Context,
    code: &mut Vec<Instr>,
    place: Place,
    n: u32,
) -> Result<(), AllocError>
    ensures { let t = trees_of context.now in OnOk result
        (Adds t code.old.items code.new.items (setting_only (scope_of context.now) (place_of t place) n)) }
{
    let write = write(context, place, n)?;
    match place {
        Place::Local(_) => put(code, &[write]),
        Place::Global(_) | Place::Element(_, _) | Place::Field(_, _, _) => {
            put(code, &[write, Instr::Drop])
        }
    }
}

/// Whether a place has a part, an index or a handle.
fn has_part(place: Place) -> bool
    ensures { (t : Table) → result ≡ has_part_of (place_of t place) }
{
    match place {
        Place::Local(_) | Place::Global(_) => false,
        Place::Element(_, _) | Place::Field(_, _, _) => true,
    }
}

/// A copy of a place's part, where it has one.
pub(crate) fn copying(place: Place) -> Option<Instr>
    ensures { (t : Table) → code_if t result ≡ copying_of (place_of t place) }
{
    if has_part(place) {
        Some(Instr::Copy)
    } else {
        None
    }
}

/// A copy of the newest word under the place's part.
pub(crate) fn tucking(place: Place) -> Instr
    ensures { (t : Table) → instruction_of t result ≡ tucking_of (place_of t place) }
{
    if has_part(place) {
        Instr::CopyUnder
    } else {
        Instr::Copy
    }
}

/// What brings the word under a place's part up, where it has one.
pub(crate) fn swapping(place: Place) -> Option<Instr>
    ensures { (t : Table) → code_if t result ≡ swapping_of (place_of t place) }
{
    if has_part(place) {
        Some(Instr::Swap)
    } else {
        None
    }
}
