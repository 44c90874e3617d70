//! What the marks of faults do.

ghost use Rattle.std.specs.Prelude.{◌≡◌, [], true, false};
ghost use Rattle.marks.specs.Marks.{Fault};
ghost use Rattle.reference_recorder_marks.specs.Marks.{access_of, act_of};

use marks::{FaultKind, Range};
use reference_recorder_marks::{Access, Act, RangeList};
use std::alloc::Global;

// The fault of code that crosses nothing, at this access.
pub(crate) fn bare(alloc: Global, kind: FaultKind, access: Access) -> Act
    ensures { act_of result ≡ Fault kind false [] [] (access_of access) }
{
    Act::Fault {
        kind,
        crosses: false,
        ins: RangeList::new(alloc),
        outs: RangeList::new(alloc),
        access,
    }
}

// The fault of code that crosses the cut, after these ranges, at this access.
pub(crate) fn crossing(kind: FaultKind, ins: RangeList, outs: RangeList, access: Access) -> Act
    ensures { act_of result ≡ Fault kind true ins outs (access_of access) }
{
    Act::Fault {
        kind,
        crosses: true,
        ins,
        outs,
        access,
    }
}

// So many bytes from the address on.
pub(crate) fn range_at(addr: u64, width: u8) -> Range
    ensures { result ≡ record { addr = addr; len = width } }
{
    Range {
        addr,
        len: u64::from(width),
    }
}
