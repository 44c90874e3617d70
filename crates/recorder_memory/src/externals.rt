//! The pieces that an external writes below the cut in one step.

ghost use Rattle.std.specs.Prelude.{◌≡◌, ◌<◌, length, IfErr, OnOk, OnErr};
ghost use Rattle.memory_map.specs.declared.areas.TheConstants.{THREADS};
ghost use Rattle.steps_above_memory.specs.Steps.{HasCause};
ghost use Rattle.recorder_memory.specs.Below.{Answers, LeavesSeen, RefusesAnswer, RefusesPiece, WritesPiece, target_of, targets_of};

use crate::memory::Memory;
use crate::target::PieceTarget;
use marks::{FaultKind, Side};
use memory_map::Range;
use run_events::Bytes;
use steps_above_memory::StepRefusal;

impl Memory {
    /// The one step of an external below the cut that gives these pieces, each for its target: they are written one after the
    /// other. Where one is refused, those before it stay written in memory that code above the cut doesn't see before the run's
    /// end.
    pub fn answer_below(
        &mut self,
        thread: u8,
        targets: &[PieceTarget],
        pieces: &[Bytes],
    ) -> Result<(), StepRefusal>
        requires in_range { thread < THREADS }
        requires count { length pieces.now ≡ length targets.now }
        ensures answered { OnOk result (Answers self.old thread (targets_of targets.now) pieces.now
            self.new) }
        ensures refused { IfErr result (RefusesAnswer self.old thread (targets_of targets.now) pieces.now) }
        ensures cause { IfErr result HasCause }
        ensures seen { LeavesSeen self.old self.new }
    {
        for (i, target) in targets.iter().enumerate() {
            if let Err(refusal) = self.put_piece(thread, *target, pieces[i].as_slice()) {
                return Err(refusal);
            }
        }
        Ok(())
    }

    // Writes one piece of a step.
    fn put_piece(
        &mut self,
        thread: u8,
        target: PieceTarget,
        bytes: &[u8],
    ) -> Result<(), StepRefusal>
        requires { thread < THREADS }
        ensures written { OnOk result (WritesPiece self.old thread (target_of target) bytes.now self.new) }
        ensures refused { IfErr result (RefusesPiece self.old thread (target_of target) bytes.now) }
        ensures cause { IfErr result HasCause }
        ensures watch { self.new.above.watch ≡ self.old.above.watch }
        ensures unchanged { OnErr result (self.new ≡ self.old) }
    {
        match target {
            PieceTarget::Region(region) => self.put_in(thread, region, bytes),
            PieceTarget::Nowhere => Ok(()),
            PieceTarget::Missing => Err(StepRefusal::Fault(FaultKind::NotLive)),
        }
    }

    // Writes a piece to the front of its region, in which it must fit.
    fn put_in(&mut self, thread: u8, region: Range, bytes: &[u8]) -> Result<(), StepRefusal>
        requires { thread < THREADS }
        ensures written { OnOk result (WritesPiece self.old thread (target_of (PieceTarget.Region region))
            bytes.now self.new) }
        ensures refused { IfErr result (RefusesPiece self.old thread
            (target_of (PieceTarget.Region region)) bytes.now) }
        ensures cause { IfErr result HasCause }
        ensures watch { self.new.above.watch ≡ self.old.above.watch }
        ensures unchanged { OnErr result (self.new ≡ self.old) }
    {
        if region.len < bytes.len() as u64 {
            return Err(StepRefusal::Fault(FaultKind::NotLive));
        }
        match self
            .above
            .spaces
            .write(Side::System, thread, region.addr, bytes)
        {
            Ok(()) => Ok(()),
            Err(refusal) => Err(StepRefusal::of(refusal)),
        }
    }
}
