use dsu_io::Text;

/// Why a text that is offered is no patch. The causes are asked in this order, and the first one is reported.
#[derive(Debug, Drop)]
pub enum NotPatch {
    /// There are as many versions as there may be.
    Versions,
    /// The names of all versions and of the text are more than there may be.
    Names,
    /// The least name that is a function, a global or a mutex in one text and another of these in the other.
    Kind(Text),
    /// A transformer doesn't fit; the place is that of the first such fault, a byte counted from 0.
    Transform(usize),
    /// The check-ins or the function tokens of all bodies would be more than there may be.
    StoreFull,
}
