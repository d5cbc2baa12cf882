ghost use Rattle.std.specs.Prelude.{◌≡◌, option_copied};
ghost use Rattle.patch_faults.specs.TransformFaults.{first};
ghost use Rattle.patch_faults.specs.TransformTypes.{AnObject};
ghost use Rattle.transformer_types.specs.Alone.{field_faults_alone, given_faults, value_faults_alone};
ghost use Rattle.transformer_types.specs.Views.{old_seen};

use crate::found::Old;
use crate::infer::infer;
use crate::layout::member;
use c_tree::{Binding, CType, Expr, FieldValue};
use patch_faults::TransformFault;

/// What is wrong with a value for a field or a global of a type.
pub(crate) fn value_fault(old: Old, to: &CType, value: &Expr) -> Option<TransformFault>
    ensures { result ≡ first (value_faults_alone (old_seen old.entry) to.now value.now) }
{
    let part = infer(old, value);
    match part.required(part.found.converts(to)) {
        Some(fault) => Some(fault.reported()),
        None => None,
    }
}

/// What is wrong with a value for a field that has a type, or that the new layout doesn't have.
fn given_fault(old: Old, to: Option<&CType>, value: &Expr) -> Option<TransformFault>
    ensures { result ≡ first (given_faults (old_seen old.entry) (option_copied to.entry) value.now) }
{
    value_fault(old, to?, value)
}

/// What is wrong with `f = e;` in the transformer of a struct with these fields in the older and in the newer text.
pub(crate) fn field_fault(
    old: &[Binding],
    new: &[Binding],
    given: &FieldValue,
) -> Option<TransformFault>
    ensures { result ≡ first (field_faults_alone old.now new.now given.now) }
{
    let to = member(new, given.field.text.as_str());
    given_fault(Old::Object(old), to, &given.value)
}
