//! Ranges of addresses.

ghost use Rattle.std.specs.Prelude.{◌≡◌};
ghost use Rattle.marks.specs.Ranges.{IsInRange, IsFirstIn, covers};

/// The bytes from `addr` on, `len` of them, as far as addresses go: the last address is 2^64 - 1.
#[derive(Clone, Copy, Debug, Default, PartialEq, Eq)]
pub struct Range {
    pub addr: u64,
    pub len: u64,
}

impl Range {
    /// The least address that lies in both ranges; `None` where none does.
    pub fn first_common(self, other: Range) -> Option<u64>
        ensures { IsFirstIn self (IsInRange other) result }
    {
        let first = self.addr.max(other.addr);
        let in_both = first - self.addr < self.len && first - other.addr < other.len;
        in_both.then_some(first)
    }

    /// Whether the address is that of a byte of the range.
    pub fn has(self, addr: u64) -> bool
        ensures { result ≡ covers self addr }
    {
        addr >= self.addr && addr - self.addr < self.len
    }
}
