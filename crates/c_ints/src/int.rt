ghost use Rattle.std.specs.Prelude.{◌≡◌};
ghost use Rattle.c_ints.specs.Kind.{InRange};
ghost use Rattle.c_ints.specs.Number.{kind_of, number, value_of};

use crate::kind::Kind;

/// An integer of C: one variant for each kind, so it always lies in its kind's range.
#[derive(Clone, Copy, Debug, PartialEq, Eq)]
pub enum Int {
    /// `signed char` and `char`
    I8(i8),
    /// `unsigned char`
    U8(u8),
    /// `short`
    I16(i16),
    /// `unsigned short`
    U16(u16),
    /// `int`
    I32(i32),
    /// `unsigned int`
    U32(u32),
    /// `long`
    I64(i64),
    /// `unsigned long`
    U64(u64),
}

impl Int {
    /// The integer of a kind and a value that lies in its range.
    pub fn new(kind: Kind, value: i128) -> Int
        requires { InRange kind value }
        ensures { result ≡ number kind value }
    {
        match kind {
            Kind::I8 => Int::I8(value as i8),
            Kind::U8 => Int::U8(value as u8),
            Kind::I16 => Int::I16(value as i16),
            Kind::U16 => Int::U16(value as u16),
            Kind::I32 => Int::I32(value as i32),
            Kind::U32 => Int::U32(value as u32),
            Kind::I64 => Int::I64(value as i64),
            Kind::U64 => Int::U64(value as u64),
        }
    }

    /// The kind.
    pub fn kind(self) -> Kind
        ensures { result ≡ kind_of self }
    {
        match self {
            Int::I8(_) => Kind::I8,
            Int::U8(_) => Kind::U8,
            Int::I16(_) => Kind::I16,
            Int::U16(_) => Kind::U16,
            Int::I32(_) => Kind::I32,
            Int::U32(_) => Kind::U32,
            Int::I64(_) => Kind::I64,
            Int::U64(_) => Kind::U64,
        }
    }

    /// The value. With its kind it makes the integer again.
    pub fn value(self) -> i128
        ensures value { result ≡ value_of self }
        ensures range { InRange (kind_of self) result }
        ensures whole { self ≡ number (kind_of self) result }
    {
        match self {
            Int::I8(value) => value as i128,
            Int::U8(value) => value as i128,
            Int::I16(value) => value as i128,
            Int::U16(value) => value as i128,
            Int::I32(value) => value as i128,
            Int::U32(value) => value as i128,
            Int::I64(value) => value as i128,
            Int::U64(value) => value as i128,
        }
    }
}
