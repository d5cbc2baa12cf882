//! What the frames of a run have of the bodies that are stored for its texts.
//!
//! It is laws, above those of versions and of types. A text is accepted where it was read from bytes and types. How a function
//! is resolved depends on the names at its points alone; so a function that brings no new body is resolved as before, and the
//! last body that was brought by a version is that of the function in that version's text, and of each frame that entered it
//! there. Besides, accepted functions leave transactions at their ends and call what is a function, and control goes on from
//! each point of their skeletons, to points that as many transactions enclose as a thread is in after it.
//!
//! Read `AcceptedTexts`, then `ByUses`, `Unchanged`, `InForce`, `FramesOfTexts`, `Ends`, `CalledFunctions` and `Shapes` of
//! `specs/`; the calls of `laws` carry the laws. Of `proofs/`, `ResolvedSame` goes by the trees without places, over what
//! `TypedExpressions` and `TypedStatements` say of trees that type (`Sound`), and `Stores` by versions, over lists of bodies
//! (`BodyLists`) and texts that define each function once (`OnlyOnce`).
#![tactic(auto)]

mod laws;

pub use laws::{
    accepted_functions_call_functions, accepted_functions_leave_at_ends, bodies_begin_and_end,
    bodies_in_force_are_those_of_texts, bodies_resolve_by_their_uses, each_point_goes_on,
    frames_have_bodies_in_force, later_texts_leave_bodies, old_bodies_stay,
    texts_of_programs_are_accepted, transactions_enclose_where_control_goes,
};
