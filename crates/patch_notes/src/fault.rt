//! The fault of a transformer.
use c_types::Typed;
use fault_notes::excerpt_of;
use offer_drafts::Draft;
use patch_faults::TransformFault;
use transformer_types::first_fault;
use type_notes::wrong_transformer;

/// What is wrong, where no type is.
fn message_of(fault: &TransformFault) -> &'static str {
    match fault {
        TransformFault::NotChanged(_) => {
            "this transforms neither a struct of both texts whose layout changes nor a variable of both texts whose type changes"
        }
        TransformFault::OldField(_) => "the struct has no such field in the text in force",
        TransformFault::Wrong(_) | TransformFault::Memory => {
            "the transformer doesn't fit the text in force"
        }
    }
}

/// Says which types met at a place.
fn say_types(draft: &mut Draft, old: &Typed, new: &Typed, at: usize) {
    match wrong_transformer(draft.alloc(), old.program(), new.program(), at) {
        Ok(message) => draft.show(message.as_slice()),
        Err(_) => draft.cut(),
    }
}

/// Says what is wrong with a transformer of the newer text.
fn say_message(draft: &mut Draft, old: &Typed, new: &Typed) {
    match first_fault(draft.alloc(), old, new) {
        Ok(Some(TransformFault::Wrong(at))) => say_types(draft, old, new, at),
        Ok(Some(fault)) => draft.say(message_of(&fault)),
        Ok(None) => draft.say(message_of(&TransformFault::Memory)),
        Err(_) => draft.cut(),
    }
}

/// Says the line of a text with a place, and a caret below the place.
fn say_excerpt(draft: &mut Draft, bytes: &[u8], at: usize) {
    match excerpt_of(draft.alloc(), bytes, at) {
        Ok(excerpt) => {
            draft.show(&excerpt.line);
            draft.end();
            draft.show(&excerpt.caret);
            draft.end();
        }
        Err(_) => draft.cut(),
    }
}

/// Says where a transformer doesn't fit, and why. `bytes` are those of the newer text.
pub(crate) fn say_fault(draft: &mut Draft, old: &Typed, new: &Typed, bytes: &[u8], at: usize) {
    say_excerpt(draft, bytes, at);
    say_message(draft, old, new);
    draft.end();
}
