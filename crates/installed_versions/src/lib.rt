//! The versions of a run so far, as far as a decision on the next text needs them: how many there are, their
//! names, and the bodies that they brought. Its contract ([`IsInstalled`](../specs/Installed.antt)) says that
//! they are those of some texts, in the order of the installs; [`Installed::versions`] shows them to a decision,
//! and [`Installed::install`] adds what a patch brings. An install that can't be finished elsewhere is taken
//! back. The rows over their bodies, once they were computed, are kept until the next install.
//!
//! A text has a first version, unless it uses a name that it doesn't define, its bodies are more than a store has room for, or
//! memory runs out; the fault says which (`specs/Firsts.antt`). Of an accepted text it is memory.
//!
//! Read in this order: `fault` (why a text has no first version), `installed`, `laws`.
#![tactic(auto)]

mod fault;
mod installed;
mod laws;

pub use fault::FirstFault;
pub use installed::{Installed, Replaced};
pub use laws::accepted_programs_start;
