//! What the three lists of a newer text promise, each as the contract of a call that does nothing.

ghost use Rattle.patch_compare.specs.Laws.{ListsAreOrdered, SameChangesNothing};

use source_model::equal_bodies_are_equal;

/// Each of the three lists is in the order of bytes, with no name twice.
pub fn lists_are_ordered()
    ensures { ListsAreOrdered }
{}

/// A text that is compared with itself changes nothing.
pub fn same_text_changes_nothing()
    ensures { SameChangesNothing }
{
    equal_bodies_are_equal();
}
