//! The preparation of an offer beside the run: by another thread, while the run's threads go on.
//!
//! A [`Preparation`] owns all that preparing needs: copies of the names and of the bodies of the versions so far, the rows over
//! these bodies if they are kept, and the run's texts, which it shares with the run. [`Preparation::prepare`] does the work and
//! keeps what it made. When the offer is decided, [`Preparation::fitting`] compares the copies with the versions that there are
//! then, and gives what was made where they are the same. What it gives holds of these versions (`specs/Preparations.antt`), so
//! the offer can be decided on it. Where it gives nothing, the offer is prepared anew.
//!
//! Nothing is said of the time between: versions that are the same are as good as those that were copied.
#![tactic(auto)]

mod preparation;

pub use preparation::Preparation;
