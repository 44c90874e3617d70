//! Frames of code above the cut.

ghost use Rattle.std.specs.Prelude.{◌≡◌, ◌+◌, ◌<◌, ◌≤◌, ℕ, Bool, List, Some, length, slice_index, IfOk, IfErr, OnErr};
ghost use Rattle.marks.specs.declared.side.Side.TheVariants.{Replay};
ghost use Rattle.marks.specs.Marks.{Enter, Leave};
ghost use Rattle.marks.specs.Wants.{Enters, Leaves};
ghost use Rattle.marks.specs.declared.range.Range.{Range};
ghost use Rattle.memory_map.specs.declared.areas.TheConstants.{THREADS};
ghost use Rattle.space_memory.specs.Sides.{frames_of, top_of};
ghost use Rattle.space_memory_laws.specs.FrameMarks.{bytes_with_args};
ghost use Rattle.steps_above_memory.specs.Steps.{HasCause};
ghost use Rattle.recorder_memory.specs.Steps.{Makes, Refuses};

use crate::memory::Memory;
use memory_map::Range;
use steps_above_memory::StepRefusal;

impl Memory {
    /// A new frame of the thread above the cut, of `size` bytes: its address. The bytes are zeros and, at their offsets and in
    /// their widths, the arguments.
    pub fn enter_above(
        &mut self,
        thread: u8,
        size: u64,
        offsets: &[u64],
        widths: &[u8],
        args: &[u64],
    ) -> Result<u64, StepRefusal>
        requires in_range { thread < THREADS }
        requires stack { thread < length self.old.above.spaces.sides.replay.stacks }
        requires widths { length widths.now ≡ length offsets.now }
        requires args { length args.now ≡ length offsets.now }
        requires in_frame { (i : ℕ) → i < length offsets.now →
            slice_index offsets.now i + slice_index widths.now i ≤ size }
        ensures entered { IfOk result (λ addr. (indirect : Bool) (func : ℕ) (values : List ℕ) →
            let bytes = bytes_with_args size offsets.now widths.now args.now in
            Makes self.old thread Replay (Enters indirect func values bytes)
            (Enter func values addr bytes) self.new) }
        ensures refused { IfErr result (λ refusal. (indirect : Bool) (func : ℕ) (values : List ℕ) →
            let bytes = bytes_with_args size offsets.now widths.now args.now in
            Refuses self.old thread Replay (Enters indirect func values bytes) refusal) }
        ensures unchanged { OnErr result (self.new ≡ self.old) }
    {
        self.above.enter(thread, size, offsets, widths, args)
    }

    /// Ends the thread's innermost frame above the cut: its range.
    pub fn leave_above(&mut self, thread: u8) -> Result<Range, StepRefusal>
        requires in_range { thread < THREADS }
        requires frame { 0 < length (frames_of self.old.above.spaces.sides.replay thread) }
        ensures top { IfOk result (λ frame. top_of self.old.above.spaces.sides.replay thread ≡ Some frame) }
        ensures left { IfOk result (λ frame. Makes self.old thread Replay (Leaves frame.addr frame.len)
            (Leave frame.addr frame.len) self.new) }
        ensures refused { IfErr result (λ refusal. (frame : Range) →
            top_of self.old.above.spaces.sides.replay thread ≡ Some frame →
            Refuses self.old thread Replay (Leaves frame.addr frame.len) refusal) }
        ensures unchanged { IfErr result (λ refusal. HasCause refusal → self.new ≡ self.old) }
    {
        self.above.leave(thread)
    }
}
