//! The comparison of an output with kept bytes.
ghost use Rattle.std.specs.Prelude.{◌≡◌};
ghost use Rattle.run_crosscheck.specs.Comparisons.{comparison_of, first_difference};

/// How kept bytes compare with an output.
#[derive(Clone, Copy, Debug, PartialEq, Eq)]
pub enum Comparison {
    /// They are the same.
    Agrees,
    /// This is the first place at which they differ, counted from 0; where one is a prefix of the other, the shorter length.
    DiffersAt(usize),
}

/// Compares an output with kept bytes.
pub fn compare(output: &[u8], bytes: &[u8]) -> Comparison
    ensures { result ≡ comparison_of (first_difference output.now bytes.now) }
{
    let shorter = output.len().min(bytes.len());
    for place in 0..shorter {
        if output[place] != bytes[place] {
            return Comparison::DiffersAt(place);
        }
    }
    if output.len() == bytes.len() {
        Comparison::Agrees
    } else {
        Comparison::DiffersAt(shorter)
    }
}
