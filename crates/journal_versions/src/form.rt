//! The first line of a journal.
ghost use Rattle.std.specs.Prelude.{◌≡◌, ◌<◌};
ghost use Rattle.journal_versions.specs.Journals.{form_of, has_counts, slots_of};

/// What the first line of a journal says of its lines.
#[derive(Clone, Copy)]
pub(crate) enum Form {
    /// Version 1, of a run with 16 slots.
    One,
    /// Version 2, of a run with 16 slots.
    Two16,
    /// Version 2, of a run with 32 slots.
    Two32,
}

impl Form {
    /// The form that a first line says.
    pub(crate) fn of(line: &[u8]) -> Option<Form>
        ensures { result ≡ form_of line.now }
    {
        if line == b"ginseng-journal 1".as_slice() {
            return Some(Form::One);
        }
        if line == b"ginseng-journal 2 16".as_slice() {
            return Some(Form::Two16);
        }
        if line == b"ginseng-journal 2 32".as_slice() {
            return Some(Form::Two32);
        }
        None
    }

    /// How many slots the run has.
    pub(crate) fn slots(self) -> u8
        ensures value { result ≡ slots_of self }
        ensures some { 0 < result }
    {
        match self {
            Form::One | Form::Two16 => 16,
            Form::Two32 => 32,
        }
    }

    /// Whether a line may be several moves.
    pub(crate) fn has_counts(self) -> bool
        ensures { result ≡ has_counts self }
    {
        match self {
            Form::One => false,
            Form::Two16 | Form::Two32 => true,
        }
    }
}
