//! Frames of code below the cut.

ghost use Rattle.std.specs.Prelude.{◌≡◌, ◌+◌, ◌<◌, ◌≤◌, ℕ, List, Some, length, slice_index, IfOk, IfErr, OnErr};
ghost use Rattle.marks.specs.declared.side.Side.TheVariants.{System};
ghost use Rattle.marks.specs.Marks.{Enter, Leave};
ghost use Rattle.marks.specs.Wants.{Leaves};
ghost use Rattle.memory_map.specs.declared.areas.TheConstants.{THREADS};
ghost use Rattle.space_memory.specs.Sides.{frames_of, top_of};
ghost use Rattle.space_memory_laws.specs.FrameMarks.{bytes_with_args};
ghost use Rattle.steps_above_memory.specs.Steps.{HasCause};
ghost use Rattle.recorder_memory.specs.Below.{Calling, frame_want};
ghost use Rattle.recorder_memory.specs.Steps.{Makes, Refuses};

use crate::memory::Memory;
use marks::Side;
use memory_map::Range;
use steps_above_memory::StepRefusal;

impl Memory {
    /// A new frame of the thread below the cut, of `size` bytes: its address. The bytes are zeros and, at their offsets and in
    /// their widths, the arguments.
    pub fn enter_below(
        &mut self,
        thread: u8,
        size: u64,
        offsets: &[u64],
        widths: &[u8],
        args: &[u64],
    ) -> Result<u64, StepRefusal>
        requires in_range { thread < THREADS }
        requires stack { thread < length self.old.above.spaces.sides.system.stacks }
        requires widths { length widths.now ≡ length offsets.now }
        requires args { length args.now ≡ length offsets.now }
        requires in_frame { (i : ℕ) → i < length offsets.now →
            slice_index offsets.now i + slice_index widths.now i ≤ size }
        ensures entered { IfOk result (λ addr. (how : Calling) (func : ℕ) (values : List ℕ) →
            let bytes = bytes_with_args size offsets.now widths.now args.now in
            Makes self.old thread System (frame_want how func values bytes)
            (Enter func values addr bytes) self.new) }
        ensures refused { IfErr result (λ refusal. (how : Calling) (func : ℕ) (values : List ℕ) →
            let bytes = bytes_with_args size offsets.now widths.now args.now in
            Refuses self.old thread System (frame_want how func values bytes) refusal) }
        ensures cause { IfErr result HasCause }
        ensures unchanged { OnErr result (self.new ≡ self.old) }
    {
        match self.above.spaces.enter(Side::System, thread, size) {
            Ok(addr) => {
                self.above
                    .spaces
                    .set_args(Side::System, thread, offsets, widths, args);
                Ok(addr)
            }
            Err(refusal) => Err(StepRefusal::of(refusal)),
        }
    }

    /// Ends the thread's innermost frame below the cut, which nothing keeps there: its range.
    pub fn leave_below(&mut self, thread: u8) -> Range
        requires in_range { thread < THREADS }
        requires frame { 0 < length (frames_of self.old.above.spaces.sides.system thread) }
        ensures top { top_of self.old.above.spaces.sides.system thread ≡ Some result }
        ensures left { Makes self.old thread System (Leaves result.addr result.len)
            (Leave result.addr result.len) self.new }
    {
        match self.above.spaces.leave(Side::System, thread) {
            Ok(frame) => frame,
            Err(_) => unreachable!("a frame below the cut is left"),
        }
    }
}
