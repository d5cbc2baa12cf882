//! The source machine: what a run of a text is, with its threads and the installs of newer texts.
//!
//! It is definitions, for the contracts of whatever runs texts. What one thread does by itself is defined in
//! `c_semantics`. Here are `Versions` (definitions by name and version), `Worlds`, `Uses` (misuse and records), `Printing`,
//! `Moves`, `Waits` (what a thread waits for), `Installs`, `Runs` and `Spans` (which versions a record shares); then, for
//! check-ins and offers, `Answers`, `Patches` (which texts are no patch), `Guards` (what is kept beside the world, and the
//! decision on an offer), `Journals` (when an event can happen), `Schedules` (which offer is due; the solo schedule) and
//! `Endings` (how and when a run ends). `Laws`, `EvaluationLaws`, `FrameLaws`, `ChangeLaws`, `JournalLaws` and `ScheduleLaws` state what
//! shows that they mean what is meant, and the calls of `laws` carry them. In `proofs/` small texts are run by the
//! definitions.
//!
//! Read in this order: `patch` (why a text is no patch), `answer` (what is answered to an offer), `laws`.
#![tactic(auto)]

mod answer;
mod laws;
mod patch;

pub use answer::OfferAnswer;
pub use laws::{
    current_version_is_greatest, entries_stay_apart, equal_bodies_are_equal,
    frames_come_through_their_bodies, install_keeps_frames, interface_set_lies_in_changed_set,
    journal_is_a_run, local_evaluation_ends, marked_world_stands, marked_world_takes_no_patch,
    moves_in_two_parts, offers_are_closed_once, open_offers_can_be_decided, other_threads_stay,
    output_grows, pieces_in_order, records_share_a_version, seats_fit_their_slots,
    solo_schedule_goes_to_the_end, solo_schedule_is_prompt, versions_are_counted, waiters_stand,
};
pub use patch::NotPatch;
