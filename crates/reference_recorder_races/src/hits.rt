//! The least byte at which the tested access meets one range.

ghost use Rattle.std.specs.Prelude.{◌≡◌, ◌≤◌, ◌&&◌, ℕ, false};
ghost use Rattle.marks.specs.Places.{is_constant};
ghost use Rattle.marks.specs.Ranges.{covers};
ghost use Rattle.reference_recorder_races.specs.Least.{IsLeastAt};
ghost use Rattle.reference_recorder_races.specs.Hits.{reading, refused, writing};

use crate::tested::Tested;
use marks::Range;
use reference_recorder_marks::is_constant;

/// Constants end before it.
const CONSTANTS_END: u64 = 0x1000_0000;

fn in_both(tested: Tested, range: Range, addr: u64) -> bool
    ensures { result ≡ (covers tested.range addr && covers range addr) }
{
    tested.range.has(addr) && range.has(addr)
}

/// That of what was written.
pub fn written(tested: Tested, range: Range) -> Option<u64>
    ensures { IsLeastAt (λ x. writing tested x (covers range x)) result }
{
    let first = tested.range.addr.max(range.addr);
    if in_both(tested, range, first) {
        return Some(first);
    }
    None
}

/// The least address from this one on that is no constant's.
fn past_constants(addr: u64) -> u64
    ensures variable { is_constant result ≡ false }
    ensures above { addr ≤ result }
    ensures least { (x : ℕ) → addr ≤ x → is_constant x ≡ false → result ≤ x }
{
    if is_constant(addr) {
        return CONSTANTS_END;
    }
    addr
}

/// That of what a refused write would have written: no constant counts.
pub fn refused(tested: Tested, range: Range) -> Option<u64>
    ensures { IsLeastAt (λ x. refused tested x (covers range x)) result }
{
    let both = tested.range.addr.max(range.addr);
    let first = past_constants(both);
    if in_both(tested, range, first) {
        return Some(first);
    }
    None
}

/// That of what was read: it counts where the tested access writes, and no constant does.
pub fn read(tested: Tested, range: Range) -> Option<u64>
    ensures { IsLeastAt (λ x. reading tested x (covers range x)) result }
{
    if tested.write {
        return refused(tested, range);
    }
    None
}
