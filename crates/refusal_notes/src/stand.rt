//! What is known where an offer is refused.
use offer_drafts::SourceText;
use patch_build::Versions;

/// The versions before a decision, and the text that was offered.
#[derive(Clone, Copy)]
pub struct Stand<'a> {
    /// The versions so far.
    pub versions: Versions<'a>,
    /// The text of each of them, the first one first.
    pub texts: &'a [SourceText<'a>],
    /// The text that was offered.
    pub offered: SourceText<'a>,
}
