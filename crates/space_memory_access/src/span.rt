//! Where all pending bytes lie.

ghost use Rattle.std.specs.Prelude.{◌≡◌, ◌<◌, ◌^◌, ℕ, false, true};
ghost use Rattle.marks.specs.Ranges.{IsInRange, covers};
ghost use Rattle.space_memory_access.specs.Spans.{IsIn};

use memory_map::Range;

/// The addresses from the first to the last; none where the last comes before the first.
#[derive(Clone, Copy)]
pub struct Span {
    pub first: u64,
    pub last: u64,
}

impl Span {
    /// No address.
    pub fn empty() -> Span
        ensures { (x : ℕ) → ¬ IsIn result x }
    {
        Span {
            first: u64::MAX,
            last: 0,
        }
    }

    /// All these addresses and those of a range, with what lies between them.
    pub fn with(self, range: Range) -> Span
        ensures these { (x : ℕ) → IsIn self x → IsIn result x }
        ensures range { (x : ℕ) → x < 2 ^ 64 → covers range x ≡ true → IsIn result x }
    {
        if range.len == 0 {
            return self;
        }
        Span {
            first: self.first.min(range.addr),
            last: self.last.max(range.addr.saturating_add(range.len - 1)),
        }
    }

    /// Whether a range may have one of the addresses.
    #[inline(always)]
    pub fn meets(self, range: Range) -> bool
        ensures { result ≡ false → (x : ℕ) → IsInRange range x → ¬ IsIn self x }
    {
        range.addr <= self.last && (range.addr >= self.first || self.first - range.addr < range.len)
    }
}
