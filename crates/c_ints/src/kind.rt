ghost use Rattle.std.specs.Prelude.{IsTrue, pos, ◌<◌, ◌^◌, ◌≡◌, ◌↔◌};
ghost use Rattle.c_ints.specs.Kind.{greatest, holds, is_signed, least, promoted, width};

/// An integer type of C. The widths are those of the usual 64-bit model: `char` has 8 bits and is
/// signed, `short` 16, `int` 32, `long` 64.
#[derive(Clone, Copy, Debug, PartialEq, Eq)]
pub enum Kind {
    /// `signed char` and `char`
    I8,
    /// `unsigned char`
    U8,
    /// `short`
    I16,
    /// `unsigned short`
    U16,
    /// `int`
    I32,
    /// `unsigned int`
    U32,
    /// `long`
    I64,
    /// `unsigned long`
    U64,
}

impl Kind {
    /// How many bits a number of the kind has.
    pub fn width(self) -> u32
        ensures { result ≡ width self }
    {
        match self {
            Kind::I8 | Kind::U8 => 8,
            Kind::I16 | Kind::U16 => 16,
            Kind::I32 | Kind::U32 => 32,
            Kind::I64 | Kind::U64 => 64,
        }
    }

    /// Whether the kind has negative numbers.
    pub fn is_signed(self) -> bool
        ensures { result ≡ is_signed self }
    {
        match self {
            Kind::I8 | Kind::I16 | Kind::I32 | Kind::I64 => true,
            Kind::U8 | Kind::U16 | Kind::U32 | Kind::U64 => false,
        }
    }

    /// Two to the power of the width.
    pub(crate) fn modulus(self) -> i128
        ensures { result ≡ pos (2 ^ width self) }
    {
        match self {
            Kind::I8 | Kind::U8 => 0x100,
            Kind::I16 | Kind::U16 => 0x1_0000,
            Kind::I32 | Kind::U32 => 0x1_0000_0000,
            Kind::I64 | Kind::U64 => 0x1_0000_0000_0000_0000,
        }
    }

    /// The least number.
    pub(crate) fn least(self) -> i128
        ensures { result ≡ least self }
    {
        match self {
            Kind::I8 => i8::MIN as i128,
            Kind::I16 => i16::MIN as i128,
            Kind::I32 => i32::MIN as i128,
            Kind::I64 => i64::MIN as i128,
            Kind::U8 | Kind::U16 | Kind::U32 | Kind::U64 => 0,
        }
    }

    /// The greatest number.
    pub(crate) fn greatest(self) -> i128
        ensures { result ≡ greatest self }
    {
        match self {
            Kind::I8 => i8::MAX as i128,
            Kind::U8 => u8::MAX as i128,
            Kind::I16 => i16::MAX as i128,
            Kind::U16 => u16::MAX as i128,
            Kind::I32 => i32::MAX as i128,
            Kind::U32 => u32::MAX as i128,
            Kind::I64 => i64::MAX as i128,
            Kind::U64 => u64::MAX as i128,
        }
    }

    /// Whether a value is a number of the kind.
    pub(crate) fn holds(self, value: i128) -> bool
        ensures { result ≡ holds self value }
    {
        self.least() <= value && value <= self.greatest()
    }

    /// The kind that the integer promotions make of this one (C11 6.3.1.1).
    pub fn promoted(self) -> Kind
        ensures { result ≡ promoted self }
    {
        match self {
            Kind::I8 | Kind::U8 | Kind::I16 | Kind::U16 => Kind::I32,
            Kind::I32 | Kind::U32 | Kind::I64 | Kind::U64 => self,
        }
    }
}
