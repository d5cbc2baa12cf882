ghost use Rattle.std.specs.Prelude.{◌≡◌, option_to_list};
ghost use Rattle.c_format.specs.Formats.{read, taken};

use c_ints::Kind;

/// How far a conversion of a format was read.
#[derive(Clone, Copy)]
pub enum Reading {
    /// None has begun.
    Text,
    /// `%`
    Percent,
    /// `%l`
    Long,
    /// What is none.
    Bad,
}

impl Reading {
    /// What a further byte makes of it.
    pub fn read(self, byte: u8) -> Reading
        ensures { result ≡ read self byte }
    {
        match self {
            Reading::Text if byte == b'%' => Reading::Percent,
            Reading::Text => Reading::Text,
            Reading::Percent if byte == b'd' || byte == b'u' || byte == b'%' => Reading::Text,
            Reading::Percent if byte == b'l' => Reading::Long,
            Reading::Percent => Reading::Bad,
            Reading::Long if byte == b'd' || byte == b'u' => Reading::Text,
            Reading::Long => Reading::Bad,
            Reading::Bad => Reading::Bad,
        }
    }

    /// The kind that a conversion takes, where the byte ends one that takes something.
    pub fn taken(self, byte: u8) -> Option<Kind>
        ensures { option_to_list result ≡ taken self byte }
    {
        match self {
            Reading::Percent if byte == b'd' => Some(Kind::I32),
            Reading::Percent if byte == b'u' => Some(Kind::U32),
            Reading::Long if byte == b'd' => Some(Kind::I64),
            Reading::Long if byte == b'u' => Some(Kind::U64),
            _ => None,
        }
    }
}
