//! The layout of a struct.

ghost use Rattle.std.specs.Prelude.{◌≡◌, ◌<◌, ◌≤◌, ◌↔◌, ℕ, length, map, IfOk, None, Some};
ghost use Rattle.std.specs.Int.{next_multiple_of};
ghost use Rattle.std.specs.List.{All};
ghost use Rattle.source_limits.specs.Limits.{greatest_object, most_members};
ghost use Rattle.c_types_model.specs.Layouts.{IsAligned, capped, capped_extent, offsets_from, struct_of, extent_of_layout};

use crate::extent::Extent;
use crate::offsets::Offsets;
use source_limits::{GREATEST_OBJECT, MOST_MEMBERS};
use std::alloc::{AllocError, Global};

/// How the objects of a type lie in memory (C11 6.2.8, 6.7.2.1).
///
/// A size or offset that is greater than 2^64 - 1 counts as 2^64 - 1. Only structs have offsets.
#[derive(Drop)]
pub struct Layout {
    pub size: u64,
    pub align: u64,
    pub offsets: Offsets,
}

/// A limit that the definition of a struct may exceed.
#[derive(Clone, Copy)]
pub enum Limit {
    /// More than 64 members.
    Members,
    /// More than 1,048,576 bytes.
    Object,
}

// The least multiple of the alignment that isn't below the offset.
fn next_multiple(offset: u64, align: u64) -> u64
    requires { 0 < align }
    ensures { result ≡ capped (next_multiple_of offset align) }
{
    offset.checked_next_multiple_of(align).unwrap_or(u64::MAX)
}

/// The layout of a struct with these members (C11 6.7.2.1, 14 to 17).
///
/// Each member lies at the next multiple of its alignment, the first at 0, and the size is rounded up to the greatest
/// alignment.
pub fn lay_out(alloc: Global, members: &[Extent]) -> Result<Layout, AllocError>
    requires { All IsAligned members.now }
    ensures extent { IfOk result (λ l. extent_of_layout l ≡ capped_extent (struct_of members.now)) }
    ensures offsets { IfOk result (λ l. l.offsets ≡ map capped (offsets_from 0 members.now)) }
{
    let mut offsets = Vec::with_capacity(alloc, members.len())?;
    let mut end: u64 = 0;
    let mut align: u64 = 1;
    for member in members {
        let offset = next_multiple(end, member.align);
        offsets.push(offset)?;
        end = offset.saturating_add(member.size);
        align = align.max(member.align);
    }
    Ok(Layout {
        size: next_multiple(end, align),
        align,
        offsets: Offsets::from(offsets),
    })
}

impl Layout {
    /// Its size and alignment.
    pub fn extent(&self) -> Extent
        ensures { result ≡ extent_of_layout self.now }
    {
        Extent {
            size: self.size,
            align: self.align,
        }
    }

    /// The first limit that a struct of this layout exceeds; `None` where it exceeds none.
    pub fn limit(&self) -> Option<Limit>
        ensures members { (result ≡ Some Limit.Members) ↔ (most_members < length self.now.offsets) }
        ensures object { (result ≡ Some Limit.Object) ↔ ((length self.now.offsets ≤ most_members) ×
            (greatest_object < self.now.size)) }
        ensures none { (result ≡ None) ↔ ((length self.now.offsets ≤ most_members) ×
            (self.now.size ≤ greatest_object)) }
    {
        if self.offsets.as_slice().len() > MOST_MEMBERS {
            Some(Limit::Members)
        } else if self.size > GREATEST_OBJECT {
            Some(Limit::Object)
        } else {
            None
        }
    }
}
