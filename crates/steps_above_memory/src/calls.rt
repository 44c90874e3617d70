//! Calls.

ghost use Rattle.std.specs.Prelude.{◌≡◌, ◌<◌, ◌≤◌, [], length, slice_index, IfErr, OnOk, OnErr};
ghost use Rattle.memory_map.specs.declared.areas.TheConstants.{THREADS};
ghost use Rattle.space_memory_laws.specs.Calls.{parts_of};
ghost use Rattle.steps_above_memory.specs.Steps.{HasCause};
ghost use Rattle.steps_above_memory.specs.Calls.{AreRegions, HasParts, LeavesAll, MakesCall, RefusesCall, TakesCall, TakesRanges, WasToldCall, prepares};

use crate::above::MemoryAbove;
use crate::parts::{CallRegions, Unprepared, hold_all, prepare_all};
use crate::refusal::StepRefusal;
use crate::returns::accessed_all;
use race_watch::Watch;
use run_events::Key;
use space_memory_access::Refusal;
use std::alloc::{AllocError, Global};

/// Tells the watch of a Call: of the reads, then of the writes, and then of the event.
fn called(
    watch: &mut Watch,
    thread: u8,
    regions: &CallRegions,
    keys: &[Key],
) -> Result<(), AllocError>
    requires thread { thread < length watch.old.rows }
    requires few { watch.old.events < 4000000000 }
    ensures told { OnOk result (WasToldCall thread regions.now keys.now watch.old watch.new) }
    ensures threads { length watch.new.rows ≡ length watch.old.rows }
{
    accessed_all(watch, thread, regions.ins, false)?;
    accessed_all(watch, thread, regions.outs, true)?;
    accessed_all(watch, thread, regions.prepared, true)?;
    watch.event(thread, keys)?;
    Ok(())
}

impl MemoryAbove {
    /// A Call of the thread with these regions: it reads some first, then holds some, then prepares some. Each range is tested
    /// before the next one is, and after all ranges each key. A Call that is refused is undone. `keys` are those of the event.
    pub fn call(
        &mut self,
        alloc: Global,
        thread: u8,
        regions: &CallRegions,
        keys: &[Key],
    ) -> Result<(), StepRefusal>
        requires in_range { thread < THREADS }
        requires calls { thread < length self.old.spaces.held.depths }
        requires few { self.old.watch.events < 4000000000 }
        requires regions { AreRegions regions.now }
        ensures passes { OnOk result (TakesCall self.old thread regions.now) }
        ensures made { OnOk result (MakesCall self.old thread regions.now keys.now self.new) }
        ensures spaces { OnOk result (HasParts self.old thread
            (parts_of regions.now.ins.now regions.now.outs.now (prepares regions.now)) self.new.spaces) }
        ensures refused { IfErr result (RefusesCall self.old thread regions.now) }
        ensures unchanged { IfErr result (λ refusal. HasCause refusal → LeavesAll self.old self.new) }
    {
        if let Err(refusal) = self.hand_down(alloc, thread, regions) {
            return Err(refusal);
        }
        match called(&mut self.watch, thread, regions, keys) {
            Ok(()) => Ok(()),
            Err(_) => Err(StepRefusal::Memory),
        }
    }

    // Opens a call that reads, holds and prepares its regions, and undoes one that is refused.
    fn hand_down(
        &mut self,
        alloc: Global,
        thread: u8,
        regions: &CallRegions,
    ) -> Result<(), StepRefusal>
        requires in_range { thread < THREADS }
        requires calls { thread < length self.old.spaces.held.depths }
        requires regions { AreRegions regions.now }
        ensures made { OnOk result (HasParts self.old thread
            (parts_of regions.now.ins.now regions.now.outs.now (prepares regions.now)) self.new.spaces) }
        ensures refused { IfErr result (RefusesCall self.old thread regions.now) }
        ensures watch { self.new.watch ≡ self.old.watch }
        ensures unchanged { OnErr result (LeavesAll self.old self.new) }
    {
        if let Err(refusal) = self.begin(alloc, thread, regions) {
            return Err(refusal);
        }
        let (ranges, under) = (regions.prepared, regions.under);
        let Err(why) = prepare_all(&mut self.spaces, &self.watch, alloc, thread, ranges, under)
        else {
            return Ok(());
        };
        self.spaces.undo(thread);
        match why {
            Unprepared::Refused(refusal) => Err(refusal),
            Unprepared::KeyInUse(addr) => match self.test_ranges(alloc, thread, regions) {
                Ok(()) => Err(StepRefusal::of(Refusal::KeyInUse { addr })),
                Err(refusal) => Err(refusal),
            },
        }
    }

    // Tests all ranges of a Call, and leaves nothing of it: a key in use is found after a range that follows its own.
    fn test_ranges(
        &mut self,
        alloc: Global,
        thread: u8,
        regions: &CallRegions,
    ) -> Result<(), StepRefusal>
        requires in_range { thread < THREADS }
        requires calls { thread < length self.old.spaces.held.depths }
        requires regions { AreRegions regions.now }
        ensures passes { OnOk result (TakesRanges self.old thread regions.now) }
        ensures refused { IfErr result (RefusesCall self.old thread regions.now) }
        ensures watch { self.new.watch ≡ self.old.watch }
        ensures unchanged { LeavesAll self.old self.new }
    {
        if let Err(refusal) = self.begin(alloc, thread, regions) {
            return Err(refusal);
        }
        let ranges = regions.prepared;
        let tested = hold_all(&mut self.spaces, &self.watch, alloc, thread, ranges, true);
        self.spaces.undo(thread);
        tested
    }

    // Opens a call that reads and holds its regions, and undoes one that is refused.
    fn begin(&mut self, alloc: Global, thread: u8, regions: &CallRegions) -> Result<(), StepRefusal>
        requires in_range { thread < THREADS }
        requires calls { thread < length self.old.spaces.held.depths }
        requires regions { AreRegions regions.now }
        ensures begun { OnOk result (HasParts self.old thread
            (parts_of regions.now.ins.now regions.now.outs.now []) self.new.spaces) }
        ensures open { OnOk result (1 ≤ slice_index self.new.spaces.held.depths thread) }
        ensures calls { length self.new.spaces.held.depths ≡ length self.old.spaces.held.depths }
        ensures refused { IfErr result (RefusesCall self.old thread regions.now) }
        ensures watch { self.new.watch ≡ self.old.watch }
        ensures unchanged { OnErr result (LeavesAll self.old self.new) }
    {
        if let Err(_) = self.spaces.open(thread) {
            return Err(StepRefusal::Memory);
        }
        let (spaces, watch) = (&mut self.spaces, &self.watch);
        if let Err(refusal) = hold_all(spaces, watch, alloc, thread, regions.ins, false) {
            self.spaces.undo(thread);
            return Err(refusal);
        }
        let (spaces, watch) = (&mut self.spaces, &self.watch);
        if let Err(refusal) = hold_all(spaces, watch, alloc, thread, regions.outs, true) {
            self.spaces.undo(thread);
            return Err(refusal);
        }
        Ok(())
    }
}
