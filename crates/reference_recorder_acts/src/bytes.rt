//! Bytes of memory, and those of numbers.

ghost use Rattle.std.specs.Prelude.{◌≡◌, ◌++◌, true, IfOk, OnOk};
ghost use Rattle.marks.specs.Ranges.{are_bytes, bytes_of_number};
ghost use Rattle.whole_runs.specs.World.{World};
ghost use Rattle.reference_recorder_acts.specs.Bytes.{AreThere, IsRead};

use marks::Range;
use memory_map::Placed;
use reference_recorder_marks::Mark;
use reference_recorder_memory::real;
use run_events::Bytes;
use std::alloc::{AllocError, Global};

/// The bytes of the range for code of both sides, after the marks, which stand with the oldest first. Each of them is there.
///
/// `AllocError` where there is no memory for them.
pub fn bytes_in(
    alloc: Global,
    placed: &Placed,
    marks: &[Mark],
    range: Range,
) -> Result<Bytes, AllocError>
    requires { AreThere placed.now marks.now range }
    ensures { (w : World) → w.laid.placed ≡ placed.now → IfOk result (IsRead w marks.now range) }
{
    let mut bytes = Vec::new(alloc);
    for offset in 0..range.len {
        let Some(byte) = real(placed, marks, range.addr + offset) else {
            unreachable!("each byte of the range is there");
        };
        bytes.push(byte)?;
    }
    check(&bytes);
    Ok(Bytes::from(bytes))
}

// What is known of all bytes.
fn check(bytes: &[u8])
    ensures { are_bytes bytes.now ≡ true }
{}

// The number in so many bytes, the lowest first.
pub(crate) fn number_bytes(alloc: Global, width: u8, value: u64) -> Result<Bytes, AllocError>
    ensures { IfOk result (λ bytes. bytes ≡ bytes_of_number width value) }
{
    let mut bytes = Vec::new(alloc);
    push_number(&mut bytes, width, value)?;
    Ok(Bytes::from(bytes))
}

// Adds them to others.
pub(crate) fn push_number(bytes: &mut Vec<u8>, width: u8, value: u64) -> Result<(), AllocError>
    ensures { OnOk result (bytes.new.items ≡ bytes.old.items ++ bytes_of_number width value) }
{
    let mut rest = value;
    for _place in 0..width {
        bytes.push((rest % 256) as u8)?;
        rest /= 256;
    }
    Ok(())
}
