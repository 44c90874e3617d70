//! The integer kinds and their ranges.

ghost use Rattle.std.specs.Prelude.{◌≡◌};
ghost use Rattle.r2_num.specs.Kinds.{width_of, signed, least, greatest};

/// An integer type of the language: its sign and its width in bits.
///
/// `char` is `I8`, `short` is `I16`, `int` is `I32` and `long` is `I64`; the unsigned ones are `U8`, `U16`, `U32` and `U64`.
#[derive(Clone, Copy, PartialEq, Eq)]
pub enum IntKind {
    I8,
    U8,
    I16,
    U16,
    I32,
    U32,
    I64,
    U64,
}

impl IntKind {
    /// The number of bits: 8, 16, 32 or 64 (C11 6.2.6.2).
    pub fn width(self) -> u32
        ensures { result ≡ width_of self }
    {
        match self {
            IntKind::I8 | IntKind::U8 => 8,
            IntKind::I16 | IntKind::U16 => 16,
            IntKind::I32 | IntKind::U32 => 32,
            IntKind::I64 | IntKind::U64 => 64,
        }
    }

    /// Whether the kind has negative values (C11 6.2.5).
    pub fn is_signed(self) -> bool
        ensures { result ≡ signed self }
    {
        matches!(
            self,
            IntKind::I8 | IntKind::I16 | IntKind::I32 | IntKind::I64
        )
    }

    /// The least value of the kind.
    pub fn min(self) -> i128
        ensures { result ≡ least self }
    {
        match self {
            IntKind::I8 => -0x80,
            IntKind::I16 => -0x8000,
            IntKind::I32 => -0x8000_0000,
            IntKind::I64 => -0x8000_0000_0000_0000,
            IntKind::U8 | IntKind::U16 | IntKind::U32 | IntKind::U64 => 0,
        }
    }

    /// The greatest value of the kind.
    pub fn max(self) -> i128
        ensures { result ≡ greatest self }
    {
        match self {
            IntKind::I8 => 0x7f,
            IntKind::U8 => 0xff,
            IntKind::I16 => 0x7fff,
            IntKind::U16 => 0xffff,
            IntKind::I32 => 0x7fff_ffff,
            IntKind::U32 => 0xffff_ffff,
            IntKind::I64 => 0x7fff_ffff_ffff_ffff,
            IntKind::U64 => 0xffff_ffff_ffff_ffff,
        }
    }
}
