//! What the versioned definitions of a run are, by the texts that it installs.
//!
//! It is definitions with their laws, above the source machine. A table of versioned definitions is that of some texts
//! where it has as many versions, and each version says of each name what its text says: exactly so, but for initialisers,
//! since an entry whose definition stays isn't replaced. So what the source machine asks of a version can be asked of its
//! text. An object fits by its text too: a new one has the fields of its struct, and an install brings each to its new layout.
//!
//! Read `Histories`, `Fitting` and `HistoryLaws` of `specs/`; the calls of `laws` carry the laws.
#![tactic(auto)]

mod laws;

pub use laws::{
    definitions_enter_alike, first_table_is_a_history, next_table_is_a_history, objects_always_fit,
    text_is_the_last, uses_are_right_by_texts,
};
