//! Calls, part by part: each region is tested, and read, held or prepared, before the next one is.

ghost use Rattle.std.specs.Prelude.{◌≡◌, ◌<◌, ◌≤◌, [], ◌∷◌, map, All, length, slice_index, IfErr, OnOk, OnErr};
ghost use Rattle.memory_map.specs.declared.areas.TheConstants.{THREADS};
ghost use Rattle.space_memory_laws.specs.Calls.{Prepares, held_part, prepared_part};
ghost use Rattle.steps_above_memory.specs.Parts.{Adds, AddsSome, IsRegion, RefusesAmong, RefusesRange, RefusesToPrepare, SeesNoRace, regions_under, unprepared_by};

use crate::refusal::StepRefusal;
use memory_map::{Range, SYSTEM_MEMORY};
use race_watch::Watch;
use space_memory::{HoldError, Spaces};
use space_memory_access::Refusal;
use std::alloc::Global;

/// The regions that a Call hands down: it reads `ins`, holds `outs`, and prepares `prepared`, each under the key at its place
/// in `under`.
#[derive(Clone, Copy)]
pub struct CallRegions<'a> {
    pub ins: &'a [Range],
    pub outs: &'a [Range],
    pub prepared: &'a [Range],
    pub under: &'a [u64],
}

/// Why a region isn't prepared.
#[derive(Clone, Copy)]
pub enum Unprepared {
    /// Its range is refused.
    Refused(StepRefusal),
    /// Its range is fine, and its key in use.
    KeyInUse(u64),
}

impl Unprepared {
    /// What a refusal of memory is to the region.
    fn of(refusal: Refusal) -> Unprepared
        ensures { result ≡ unprepared_by refusal }
    {
        match refusal {
            Refusal::KeyInUse { addr } => Unprepared::KeyInUse(addr),
            refused => Unprepared::Refused(StepRefusal::of(refused)),
        }
    }
}

/// Tests a range that a Call comes to for a race. The other side's memory is found before one.
fn test_race(watch: &Watch, thread: u8, range: Range, write: bool) -> Result<(), StepRefusal>
    requires { thread < length watch.now.rows }
    ensures unraced { OnOk result (SeesNoRace thread write range watch.now) }
    ensures refused { IfErr result (RefusesRange thread write range watch.now) }
{
    match watch.test(thread, range, write) {
        Ok(()) => Ok(()),
        Err(error) => match range.first_common(SYSTEM_MEMORY) {
            Some(addr) => Err(StepRefusal::of(Refusal::OtherSpace { addr })),
            None => Err(StepRefusal::by(error)),
        },
    }
}

/// Tests a range for a Call, and reads or holds it.
fn hold(
    spaces: &mut Spaces,
    watch: &Watch,
    alloc: Global,
    thread: u8,
    range: Range,
    write: bool,
) -> Result<(), StepRefusal>
    requires in_range { thread < THREADS }
    requires watched { thread < length watch.now.rows }
    requires open { 1 ≤ slice_index spaces.old.held.depths thread }
    requires region { IsRegion range }
    ensures adds { OnOk result (Adds thread (held_part write range ∷ []) watch.now spaces.old spaces.new) }
    ensures refused { IfErr result (RefusesAmong thread write (range ∷ []) watch.now spaces.old) }
    ensures depths { spaces.new.held.depths ≡ spaces.old.held.depths }
    ensures unchanged { OnErr result (spaces.new ≡ spaces.old) }
{
    if let Err(refusal) = test_race(watch, thread, range, write) {
        return Err(refusal);
    }
    match spaces.hold(alloc, thread, range, write) {
        Ok(()) => Ok(()),
        Err(HoldError::Refused(refusal)) => Err(StepRefusal::of(refusal)),
        Err(HoldError::Memory) => Err(StepRefusal::Memory),
    }
}

/// Tests a range for a Call, and prepares it under the key.
fn prepare(
    spaces: &mut Spaces,
    watch: &Watch,
    alloc: Global,
    thread: u8,
    key: u64,
    range: Range,
) -> Result<(), Unprepared>
    requires in_range { thread < THREADS }
    requires watched { thread < length watch.now.rows }
    requires open { 1 ≤ slice_index spaces.old.held.depths thread }
    requires region { IsRegion range }
    ensures adds { OnOk result (Adds thread (Prepares key range ∷ []) watch.now spaces.old spaces.new) }
    ensures refused { IfErr result (RefusesToPrepare thread (regions_under (key ∷ []) (range ∷ []))
        watch.now spaces.old) }
    ensures depths { spaces.new.held.depths ≡ spaces.old.held.depths }
    ensures unchanged { OnErr result (spaces.new ≡ spaces.old) }
{
    if let Err(refusal) = test_race(watch, thread, range, true) {
        return Err(Unprepared::Refused(refusal));
    }
    match spaces.prepare(alloc, thread, key, range) {
        Ok(()) => Ok(()),
        Err(HoldError::Refused(refusal)) => Err(Unprepared::of(refusal)),
        Err(HoldError::Memory) => Err(Unprepared::Refused(StepRefusal::Memory)),
    }
}

/// Tests ranges for a Call one after the other, and reads or holds them.
pub fn hold_all(
    spaces: &mut Spaces,
    watch: &Watch,
    alloc: Global,
    thread: u8,
    ranges: &[Range],
    write: bool,
) -> Result<(), StepRefusal>
    requires in_range { thread < THREADS }
    requires watched { thread < length watch.now.rows }
    requires open { 1 ≤ slice_index spaces.old.held.depths thread }
    requires regions { All IsRegion ranges.now }
    ensures adds { OnOk result (Adds thread (map (held_part write) ranges.now) watch.now spaces.old
        spaces.new) }
    ensures refused { IfErr result (RefusesAmong thread write ranges.now watch.now spaces.old) }
    ensures stays { AddsSome thread watch.now spaces.old spaces.new }
    ensures depths { spaces.new.held.depths ≡ spaces.old.held.depths }
{
    for range in ranges {
        if let Err(refusal) = hold(spaces, watch, alloc, thread, *range, write) {
            return Err(refusal);
        }
    }
    Ok(())
}

/// Tests ranges for a Call one after the other, and prepares each under the key at its place.
pub fn prepare_all(
    spaces: &mut Spaces,
    watch: &Watch,
    alloc: Global,
    thread: u8,
    ranges: &[Range],
    under: &[u64],
) -> Result<(), Unprepared>
    requires in_range { thread < THREADS }
    requires watched { thread < length watch.now.rows }
    requires open { 1 ≤ slice_index spaces.old.held.depths thread }
    requires regions { All IsRegion ranges.now }
    requires keys { length under.now ≡ length ranges.now }
    ensures adds { OnOk result (Adds thread (map prepared_part (regions_under under.now ranges.now))
        watch.now spaces.old spaces.new) }
    ensures refused { IfErr result (RefusesToPrepare thread (regions_under under.now ranges.now) watch.now
        spaces.old) }
    ensures stays { AddsSome thread watch.now spaces.old spaces.new }
    ensures depths { spaces.new.held.depths ≡ spaces.old.held.depths }
{
    for at in 0..ranges.len() {
        if let Err(why) = prepare(spaces, watch, alloc, thread, under[at], ranges[at]) {
            return Err(why);
        }
    }
    Ok(())
}
