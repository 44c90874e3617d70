//! The pieces of an answer that come up with a Ret.

ghost use Rattle.std.specs.Prelude.{◌≡◌, ◌<◌, ◌≤◌, length, map, IfSome, IfOk, IfErr, OnOk, OnErr};
ghost use Rattle.memory_map.specs.declared.areas.TheConstants.{THREADS};
ghost use Rattle.space_memory.specs.Releases.{HasKey};
ghost use Rattle.steps_above_memory.specs.Steps.{HasCause};
ghost use Rattle.recorder_memory.specs.Answers.{committed_range, regions_of, Answers, IsFirstSpoiled, IsLacking, IsNotPut, IsPut, PutsLast, PutsOuts, RefusesAnswer, RefusesLast, RefusesPut};
ghost use Rattle.recorder_memory.specs.Below.{LeavesSeen};
ghost use Rattle.recorder_memory.specs.Returns.{PassesReturn};

use crate::memory::Memory;
use marks::Side;
use memory_map::Range;
use run_events::Bytes;
use space_memory::Spaces;
use space_memory_access::Refusal;
use steps_above_memory::StepRefusal;

/// The region that is to be committed, if one is.
fn committed(spaces: &Spaces, commit: Option<(u64, u64)>) -> Result<Option<Range>, StepRefusal>
    ensures key { OnOk result (HasKey spaces.now.held.regions commit) }
    ensures region { IfOk result (λ region. region ≡ committed_range spaces.now.held.regions commit) }
    ensures refused { IfErr result (IsLacking spaces.now.held.regions commit) }
{
    let Some((key, _)) = commit else {
        return Ok(None);
    };
    match spaces.prepared(key) {
        Some(region) => Ok(Some(region)),
        None => Err(StepRefusal::of(Refusal::NoKey { addr: key })),
    }
}

/// Of the first `count` regions of the thread's innermost call the first that isn't filled up to its used size: its address.
fn first_spoiled(
    spaces: &Spaces,
    thread: u8,
    outs: &[Range],
    used: &[u64],
    count: usize,
) -> Option<u64>
    requires in_range { thread < THREADS }
    requires regions { map (λ r. r.range) (regions_of spaces.now thread) ≡ outs.now }
    requires sizes { length used.now ≡ length outs.now }
    requires count { count ≤ length outs.now }
    ensures { IsFirstSpoiled spaces.now thread used.now count result }
{
    for i in 0..count {
        if !spaces.is_filled(thread, i, used[i]) {
            return Some(outs[i].addr);
        }
    }
    None
}

/// Writes a piece to the front of its region, in which it must fit. So many regions of the call come before it.
fn put_up(
    spaces: &mut Spaces,
    thread: u8,
    outs: &[Range],
    used: &[u64],
    before: usize,
    region: Range,
    bytes: &[u8],
) -> Result<(), StepRefusal>
    requires in_range { thread < THREADS }
    requires regions { map (λ r. r.range) (regions_of spaces.old thread) ≡ outs.now }
    requires sizes { length used.now ≡ length outs.now }
    requires count { before ≤ length outs.now }
    ensures put { OnOk result (IsPut spaces.old spaces.new thread region bytes.now) }
    ensures refused { IfErr result (IsNotPut spaces.old thread used.now before region bytes.now) }
    ensures cause { IfErr result HasCause }
    ensures held { spaces.new.held ≡ spaces.old.held }
    ensures unchanged { OnErr result (spaces.new ≡ spaces.old) }
{
    if region.len < bytes.len() as u64 {
        let found = first_spoiled(spaces, thread, outs, used, before);
        let addr = found.unwrap_or(region.addr);
        return Err(StepRefusal::of(Refusal::Size { addr }));
    }
    match spaces.write(Side::System, thread, region.addr, bytes) {
        Ok(()) => Ok(()),
        Err(refusal) => Err(StepRefusal::of(refusal)),
    }
}

impl Memory {
    /// The pieces of an external's answer, before the Ret of the thread's innermost call: each is written to the front of its
    /// region, those that the call holds first and then the one under the committed key, and the Ret is tested. `outs` are the
    /// regions that the call holds to be written, and `used` their used sizes. Memory above the cut stays as a replay sees it.
    pub fn answer_above(
        &mut self,
        thread: u8,
        outs: &[Range],
        used: &[u64],
        commit: Option<(u64, u64)>,
        pieces: &[Bytes],
    ) -> Result<(), StepRefusal>
        requires in_range { thread < THREADS }
        requires regions { map (λ r. r.range) (regions_of self.old.above.spaces thread) ≡ outs.now }
        requires sizes { length used.now ≡ length outs.now }
        requires pieces { length outs.now ≤ length pieces.now }
        requires committed { IfSome commit (λ _. length outs.now < length pieces.now) }
        ensures answered { OnOk result (Answers self.old thread outs.now used.now commit pieces.now
            self.new) }
        ensures passes { OnOk result (PassesReturn self.new thread used.now commit) }
        ensures refused { IfErr result (RefusesAnswer self.old thread outs.now used.now commit pieces.now) }
        ensures cause { IfErr result HasCause }
        ensures seen { LeavesSeen self.old self.new }
        ensures held { self.new.above.spaces.held ≡ self.old.above.spaces.held }
        ensures watch { self.new.above.watch ≡ self.old.above.watch }
    {
        let region = match committed(&self.above.spaces, commit) {
            Ok(region) => region,
            Err(refusal) => return Err(refusal),
        };
        if let Err(refusal) = self.put_outs(thread, outs, used, commit, pieces) {
            return Err(refusal);
        }
        if let Err(refusal) = self.put_last(thread, outs, used, region, pieces) {
            return Err(refusal);
        }
        self.test_return(thread, used, commit)
    }

    // Writes the pieces of the regions that the call holds.
    fn put_outs(
        &mut self,
        thread: u8,
        outs: &[Range],
        used: &[u64],
        commit: Option<(u64, u64)>,
        pieces: &[Bytes],
    ) -> Result<(), StepRefusal>
        requires in_range { thread < THREADS }
        requires regions { map (λ r. r.range) (regions_of self.old.above.spaces thread) ≡ outs.now }
        requires sizes { length used.now ≡ length outs.now }
        requires pieces { length outs.now ≤ length pieces.now }
        ensures put { OnOk result (PutsOuts self.old thread outs.now used.now commit pieces.now
            (length outs.now) self.new) }
        ensures refused { IfErr result (RefusesPut self.old thread outs.now used.now commit pieces.now) }
        ensures cause { IfErr result HasCause }
        ensures seen { LeavesSeen self.old self.new }
        ensures held { self.new.above.spaces.held ≡ self.old.above.spaces.held }
        ensures watch { self.new.above.watch ≡ self.old.above.watch }
    {
        for (i, region) in outs.iter().enumerate() {
            let bytes = pieces[i].as_slice();
            let spaces = &mut self.above.spaces;
            if let Err(refusal) = put_up(spaces, thread, outs, used, i, *region, bytes) {
                return Err(refusal);
            }
        }
        Ok(())
    }

    // Writes the piece of the region that is committed, if one is: it comes after the others.
    fn put_last(
        &mut self,
        thread: u8,
        outs: &[Range],
        used: &[u64],
        region: Option<Range>,
        pieces: &[Bytes],
    ) -> Result<(), StepRefusal>
        requires in_range { thread < THREADS }
        requires regions { map (λ r. r.range) (regions_of self.old.above.spaces thread) ≡ outs.now }
        requires sizes { length used.now ≡ length outs.now }
        requires piece { IfSome region (λ _. length outs.now < length pieces.now) }
        ensures put { OnOk result (PutsLast self.old thread (length outs.now) region pieces.now self.new) }
        ensures refused { IfErr result (RefusesLast self.old thread used.now (length outs.now) region
            pieces.now) }
        ensures cause { IfErr result HasCause }
        ensures held { self.new.above.spaces.held ≡ self.old.above.spaces.held }
        ensures watch { self.new.above.watch ≡ self.old.above.watch }
        ensures unchanged { OnErr result (self.new ≡ self.old) }
    {
        let Some(region) = region else {
            return Ok(());
        };
        let count = outs.len();
        let bytes = pieces[count].as_slice();
        let spaces = &mut self.above.spaces;
        match put_up(spaces, thread, outs, used, count, region, bytes) {
            Ok(()) => Ok(()),
            Err(refusal) => Err(refusal),
        }
    }
}
