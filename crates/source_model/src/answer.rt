use crate::NotPatch;
use con_freeness::Refusal;

/// What is answered to an offer. Each id in it stands for its text in the names of all versions of the run.
#[derive(Debug, Drop)]
pub enum OfferAnswer {
    /// It was installed as the version of this number; the text with which a run starts is version 1.
    Installed(u32),
    /// The row in force of some thread didn't admit it, and nothing changed.
    Refused(Refusal),
    /// It was no patch for the version in force, and nothing changed.
    NotPatch(NotPatch),
    /// It was closed with nothing changed. A run does so only when out of memory, and a replay where its journal says so.
    Withdrawn,
    /// It was never opened, or was still open when the run ended.
    NotOffered,
}
