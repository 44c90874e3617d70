//! Frames.

ghost use Rattle.std.specs.Prelude.{◌≡◌, ◌+◌, ◌<◌, ◌≤◌, ℕ, Bool, List, Some, length, slice_index, IfOk, IfErr, OnErr};
ghost use Rattle.marks.specs.declared.side.Side.TheVariants.{Replay};
ghost use Rattle.marks.specs.Marks.{Enter, Leave};
ghost use Rattle.marks.specs.Wants.{Enters, Leaves};
ghost use Rattle.memory_map.specs.declared.areas.TheConstants.{THREADS};
ghost use Rattle.marks.specs.declared.range.Range.{Range};
ghost use Rattle.space_memory.specs.Sides.{frames_of, top_of};
ghost use Rattle.space_memory_laws.specs.FrameMarks.{bytes_with_args};
ghost use Rattle.space_memory_laws.specs.Changes.{IsEntered};
ghost use Rattle.steps_above_memory.specs.Spaces.{LeavesFrame};
ghost use Rattle.steps_above_memory.specs.Steps.{HasCause, Makes, Refuses};

use crate::above::MemoryAbove;
use crate::refusal::StepRefusal;
use marks::Side;
use memory_map::Range;

impl MemoryAbove {
    /// A new frame of the thread above the cut, of `size` bytes: its address. The bytes are zeros and, at their offsets and in
    /// their widths, the arguments.
    pub fn enter(
        &mut self,
        thread: u8,
        size: u64,
        offsets: &[u64],
        widths: &[u8],
        args: &[u64],
    ) -> Result<u64, StepRefusal>
        requires in_range { thread < THREADS }
        requires stack { thread < length self.old.spaces.sides.replay.stacks }
        requires widths { length widths.now ≡ length offsets.now }
        requires args { length args.now ≡ length offsets.now }
        requires in_frame { (i : ℕ) → i < length offsets.now →
            slice_index offsets.now i + slice_index widths.now i ≤ size }
        ensures entered { IfOk result (λ addr. (indirect : Bool) (func : ℕ) (values : List ℕ) →
            let bytes = bytes_with_args size offsets.now widths.now args.now in
            Makes self.old thread (Enters indirect func values bytes)
            (Enter func values addr bytes) self.new) }
        ensures spaces { IfOk result (λ addr.
            IsEntered Replay self.old.spaces self.new.spaces thread addr size
            (bytes_with_args size offsets.now widths.now args.now)) }
        ensures refused { IfErr result (λ refusal. (indirect : Bool) (func : ℕ) (values : List ℕ) →
            let bytes = bytes_with_args size offsets.now widths.now args.now in
            Refuses self.old thread (Enters indirect func values bytes) refusal) }
        ensures unchanged { OnErr result (self.new ≡ self.old) }
    {
        let addr = match self.spaces.may_enter(Side::Replay, thread, size) {
            Ok(addr) => addr,
            Err(refusal) => return Err(StepRefusal::of(refusal)),
        };
        if let Err(error) = self.watch.access(thread, Range { addr, len: size }, true) {
            return Err(StepRefusal::by(error));
        }
        match self.spaces.enter(Side::Replay, thread, size) {
            Ok(_) => {
                self.spaces
                    .set_args(Side::Replay, thread, offsets, widths, args);
                Ok(addr)
            }
            Err(_) => unreachable!("there is room for the frame"),
        }
    }

    /// Ends the thread's innermost frame above the cut: its range.
    pub fn leave(&mut self, thread: u8) -> Result<Range, StepRefusal>
        requires in_range { thread < THREADS }
        requires frame { 0 < length (frames_of self.old.spaces.sides.replay thread) }
        ensures top { IfOk result (λ frame. top_of self.old.spaces.sides.replay thread ≡ Some frame) }
        ensures left { IfOk result (λ frame. Makes self.old thread (Leaves frame.addr frame.len)
            (Leave frame.addr frame.len) self.new) }
        ensures spaces { IfOk result (LeavesFrame self.old.spaces self.new.spaces thread) }
        ensures refused { IfErr result (λ refusal. (frame : Range) →
            top_of self.old.spaces.sides.replay thread ≡ Some frame →
            Refuses self.old thread (Leaves frame.addr frame.len) refusal) }
        ensures unchanged { IfErr result (λ refusal. HasCause refusal → self.new ≡ self.old) }
    {
        let frame = match self.spaces.top(Side::Replay, thread) {
            Some(frame) => frame,
            None => unreachable!("a frame is there"),
        };
        if let Err(error) = self.watch.test(thread, frame, true) {
            return Err(StepRefusal::by(error));
        }
        if let Err(refusal) = self.spaces.leave(Side::Replay, thread) {
            return Err(StepRefusal::of(refusal));
        }
        match self.watch.access(thread, frame, true) {
            Ok(()) => Ok(frame),
            Err(_) => Err(StepRefusal::Memory),
        }
    }
}
