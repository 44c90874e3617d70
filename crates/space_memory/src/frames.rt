// The arguments of a frame.
ghost use Rattle.std.specs.Prelude.{◌≡◌, ℕ, ◌+◌, ◌^◌, ◌<◌, ◌≤◌, length, slice_index};
ghost use Rattle.space_memory_bytes.specs.Areas.{byte_at, extents, LiesIn};
ghost use Rattle.space_memory.specs.Frames.{with_args};

use memory_map::Range;
use space_memory_bytes::LiveBytes;

/// Writes the arguments into the frame, each at its offset and in its width, low byte first.
pub fn write_args(bytes: &mut LiveBytes, frame: Range, offsets: &[u64], widths: &[u8], args: &[u64])
    requires widths { length widths.now ≡ length offsets.now }
    requires args { length args.now ≡ length offsets.now }
    requires in_frame { (i : ℕ) → i < length offsets.now →
        slice_index offsets.now i + slice_index widths.now i ≤ frame.len }
    requires in_area { LiesIn frame (extents bytes.old) }
    requires ends { frame.addr + frame.len < 2 ^ 64 }
    ensures set { (x : ℕ) → byte_at bytes.new x ≡
        with_args frame.addr offsets.now widths.now args.now x (byte_at bytes.old x) }
    ensures areas { extents bytes.new ≡ extents bytes.old }
{
    for at in 0..offsets.len() {
        bytes.write(frame.addr + offsets[at], widths[at], args[at]);
    }
}
