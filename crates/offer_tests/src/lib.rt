//! Tests of offers of newer texts: what makes a text no patch, what patches bring, what an install adds, and how an offer to a
//! running transaction is decided.
//!
//! - `texts`: two versions of a small program, and what they define
//! - `causes` and `versions`: `patch_build`
//! - `installs`: `installed_versions`
//! - `decisions`: `offer_decision`
//! - `copies`: `version_copies` and `offer_preparations`
#![tactic(auto)]

#[cfg(test)]
mod causes;
#[cfg(test)]
mod copies;
#[cfg(test)]
mod decisions;
#[cfg(test)]
mod installs;
#[cfg(test)]
mod texts;
#[cfg(test)]
mod versions;
