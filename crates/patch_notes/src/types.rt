//! Types as texts write them.
use c_tree::CType;
use offer_drafts::Draft;
use type_notes::integer_words;

/// Says a type.
pub(crate) fn say_type(draft: &mut Draft, declared: &CType) {
    match declared {
        CType::Integer(kind) => draft.say(integer_words(*kind)),
        CType::Handle(tag) => {
            draft.say("struct ");
            draft.say(tag.text.as_str());
            draft.say(" *");
        }
        CType::Thread => draft.say("thrd_t"),
    }
}

/// Whether a value of one type may be assigned to a place of the other, which is another type.
pub(crate) fn converts(old: &CType, new: &CType) -> bool {
    matches!(old, CType::Integer(_)) && matches!(new, CType::Integer(_))
}
