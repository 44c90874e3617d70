//! The kinds of accesses.

ghost use Rattle.std.specs.Prelude.{◌≤◌};

use marks::Side;

/// What is accessed, in which width, and by whom.
#[derive(Clone, Copy)]
pub enum AccessKind {
    /// Loads and stores of 8 bytes above the cut.
    Words,
    /// The same of 4 bytes, of 2, and of one.
    Ints,
    Shorts,
    Bytes,
    /// Loads of one byte of constants.
    Constants,
    /// Loads and stores of 4 bytes below the cut.
    Below,
    /// The same above the cut, while calls hold eight regions beside.
    Beside,
    /// The same below the cut, in a region that a call hands down.
    Handed,
    /// Copies of ranges, which are written anew.
    Ranges,
}

/// All of them.
pub const KINDS: [AccessKind; 9] = [
    AccessKind::Words,
    AccessKind::Ints,
    AccessKind::Shorts,
    AccessKind::Bytes,
    AccessKind::Constants,
    AccessKind::Below,
    AccessKind::Beside,
    AccessKind::Handed,
    AccessKind::Ranges,
];

impl AccessKind {
    /// Its word.
    pub fn name(self) -> &'static str {
        match self {
            AccessKind::Words => "words",
            AccessKind::Ints => "ints",
            AccessKind::Shorts => "shorts",
            AccessKind::Bytes => "bytes",
            AccessKind::Constants => "constants",
            AccessKind::Below => "below",
            AccessKind::Beside => "beside",
            AccessKind::Handed => "handed",
            AccessKind::Ranges => "ranges",
        }
    }

    /// How many bytes each load and store has.
    pub fn width(self) -> u8
        ensures some { 1 ≤ result }
        ensures at_most_8 { result ≤ 8 }
    {
        match self {
            AccessKind::Words => 8,
            AccessKind::Ints
            | AccessKind::Below
            | AccessKind::Beside
            | AccessKind::Handed
            | AccessKind::Ranges => 4,
            AccessKind::Shorts => 2,
            AccessKind::Bytes | AccessKind::Constants => 1,
        }
    }

    /// Whose code makes them.
    pub fn side(self) -> Side {
        match self {
            AccessKind::Below | AccessKind::Handed => Side::System,
            AccessKind::Words
            | AccessKind::Ints
            | AccessKind::Shorts
            | AccessKind::Bytes
            | AccessKind::Constants
            | AccessKind::Beside
            | AccessKind::Ranges => Side::Replay,
        }
    }

    /// Whose memory it is.
    pub fn home(self) -> Side {
        match self {
            AccessKind::Below => Side::System,
            AccessKind::Words
            | AccessKind::Ints
            | AccessKind::Shorts
            | AccessKind::Bytes
            | AccessKind::Constants
            | AccessKind::Beside
            | AccessKind::Handed
            | AccessKind::Ranges => Side::Replay,
        }
    }
}
