use name_sets::NameId;

/// The effect by which a thread's row doesn't admit a patch, with the names that show it. Of several names of one
/// effect it has the one whose text is the least by bytes.
#[derive(Clone, Copy, Debug, PartialEq, Eq)]
pub enum Effect {
    /// The concrete effect has this name, and the patch changes its interface: active code may still use what it
    /// names in the old shape.
    Concrete(NameId),
    /// The prior effect has the first name and the future effect the second, and the patch changes both: what the
    /// transaction uses while it is open might belong to no one version.
    Both(NameId, NameId),
    /// The thread is pinned: an earlier patch was admitted since what its transaction may still use stays as it
    /// was. Its future effect has this name, and the patch changes it.
    Pinned(NameId),
}

/// Why a patch is refused: the row of one thread doesn't admit it.
#[derive(Clone, Copy, Debug, PartialEq, Eq)]
pub struct Refusal {
    /// The least slot whose row in force doesn't admit the patch, counted from 0.
    pub slot: u8,
    /// Why that row doesn't: `Concrete` where that holds, else `Pinned` of a thread that is pinned, else `Both`.
    pub effect: Effect,
}

/// Whether the rows in force admit a patch.
#[derive(Clone, Copy, Debug, PartialEq, Eq)]
pub enum Verdict {
    /// Each of them does.
    Admitted,
    /// One doesn't.
    Refused(Refusal),
}
