// The regions, in the order in which they were held.
ghost use Rattle.std.specs.Prelude.{◌≡◌, ℕ, List, ◌+◌, ◌-◌, ◌^◌, ◌<◌, ◌≤◌, ◌↔◌, [], ◌∷◌, ◌++◌, length, map, replicate, IsTrue, IfOk, IfSome, IfNone, OnOk, OnErr, slice_index, slice_set, option_map};
ghost use Rattle.marks.specs.Ranges.{IsFirstIn, NoneIn};
ghost use Rattle.memory_map.specs.declared.areas.TheConstants.{THREADS};
ghost use Rattle.space_memory_access.specs.declared.holder.Region.{Region};
ghost use Rattle.space_memory_access.specs.Spans.{HoldsPending};
ghost use Rattle.space_memory_access.specs.Held.{innermost, IsPending, IsServed, IsServedWhole, is_part, prepared_region, without_call, without_closed, disown, earlier};

use crate::span::Span;
use crate::{OpenCall, Region};
use memory_map::{Range, THREADS};
use std::alloc::{AllocError, Global};
use std::marker::Model;

/// The regions that are held and prepared, and how many calls each thread has open.
#[derive(Drop)]
pub struct Regions {
    regions: Vec<Region>,
    depths: Vec<u64>,
    // all bytes that replay code may not touch lie in it, so that most accesses need not look at the regions
    pending: Span,
}

impl Model for Regions {
    ghost use Rattle.space_memory_access.specs.Held.{HeldState};
    ghost use Rattle.space_memory_access.specs.Spans.{AreKept};

    ghost Value = { HeldState };

    ghost view = { λ h. record { regions = h.regions.items; depths = h.depths.items } };

    ghost invariant = { λ h. AreKept h.regions.items h.depths.items h.pending };
}

impl Regions {
    /// No regions, and no open calls.
    pub fn new(alloc: Global) -> Result<Regions, AllocError>
        ensures { IfOk result (λ held. held ≡ record { regions = []; depths = replicate THREADS 0 }) }
    {
        let mut depths = Vec::new(alloc);
        depths.resize(THREADS as usize, 0)?;
        Ok(Regions {
            regions: Vec::new(alloc),
            depths,
            pending: Span::empty(),
        })
    }

    /// The regions, the oldest first.
    pub fn as_slice(&self) -> &[Region]
        ensures { result.now ≡ self.now.regions }
    {
        &self.regions
    }

    /// The innermost open call of the thread; of depth 0 where it has none.
    pub fn innermost(&self, thread: u8) -> OpenCall
        requires { thread < THREADS }
        ensures { result ≡ innermost self.now thread }
    {
        OpenCall {
            thread,
            depth: self.depths[thread as usize],
        }
    }

    /// Opens a call of the thread, which has no regions yet. It fails where calls can't be counted any more.
    pub fn open(&mut self, thread: u8) -> Result<(), AllocError>
        requires { thread < THREADS }
        ensures ok { OnOk result (self.new ≡ record self.old {
          depths =
              slice_set self.old.depths thread (slice_index self.old.depths thread + 1);
        }) }
        ensures err { OnErr result (self.new ≡ self.old) }
    {
        let depth = self.depths[thread as usize];
        self.depths[thread as usize] = depth.checked_add(1).ok_or(AllocError)?;
        Ok(())
    }

    /// Adds a region.
    pub fn add(&mut self, region: Region) -> Result<(), AllocError>
        ensures ok { OnOk result (self.new ≡ record self.old { regions = self.old.regions ++ region ∷ [] }) }
        ensures err { OnErr result (self.new ≡ self.old) }
    {
        let pending = with_region(self.pending, &region);
        self.regions.push(region)?;
        self.pending = pending;
        Ok(())
    }

    /// The least byte of the range that lies in a region that replay code may not touch.
    pub fn first_pending(&self, range: Range) -> Option<u64>
        ensures { IsFirstIn range (IsPending self.now.regions) result }
    {
        let mut first: Option<u64> = None;
        for region in &self.regions {
            if region.holder.is_pending() {
                first = earlier(first, range.first_common(region.range));
            }
        }
        first
    }

    /// Whether no byte of the range lies in a region that replay code may not touch.
    #[inline(always)]
    pub fn is_free(&self, range: Range) -> bool
        ensures { IsTrue result ↔ NoneIn range (IsPending self.now.regions) }
    {
        !self.pending.meets(range) || self.first_pending(range).is_none()
    }

    /// Whether one region lets system code of the thread read the whole range, or write it, while its bytes live.
    #[inline(never)]
    pub fn serves_whole(&self, thread: u8, write: bool, range: Range) -> bool
        ensures { IsTrue result ↔ IsServedWhole self.now.regions thread write range }
    {
        for region in &self.regions {
            if region.holder.serves(thread, write) && is_part(region.range, range) {
                return true;
            }
        }
        false
    }

    /// The least byte of the range that no region lets system code of the thread read, or write, while it lives.
    pub fn first_unserved(&self, thread: u8, write: bool, range: Range) -> Option<u64>
        requires { range.addr + range.len < 2 ^ 64 }
        ensures { IsFirstIn range (λ x. ¬ IsServed self.now.regions thread write x) result }
    {
        let end = range.addr + range.len;
        let mut addr = range.addr;
        while addr < end {
            match self.served_to(thread, write, addr) {
                Some(next) => addr = next,
                None => return Some(addr),
            }
        }
        None
    }

    // Where the first region ends that lets system code of the thread read or write the byte at the address.
    fn served_to(&self, thread: u8, write: bool, addr: u64) -> Option<u64>
        requires { addr + 1 < 2 ^ 64 }
        ensures none { IfNone result (¬ IsServed self.now.regions thread write addr) }
        ensures on { IfSome result (λ next. addr < next) }
        ensures served { IfSome result (λ next. (x : ℕ) → addr ≤ x → x < next →
            IsServed self.now.regions thread write x) }
    {
        for region in &self.regions {
            if region.holder.serves(thread, write) && region.range.has(addr) {
                return Some(region.range.addr.saturating_add(region.range.len));
            }
        }
        None
    }

    /// The region that is prepared under the key, if there is one.
    pub fn prepared(&self, key: u64) -> Option<&Region>
        ensures { option_map (λ r. r.now) result ≡ prepared_region self.now.regions key }
    {
        for region in &self.regions {
            if region.holder.has_key(key) {
                return Some(region);
            }
        }
        None
    }

    /// Drops the innermost call of the thread with all that it holds and has prepared.
    pub fn undo(&mut self, thread: u8)
        requires in_range { thread < THREADS }
        requires open { 1 ≤ slice_index self.old.depths thread }
        ensures regions { self.new.regions ≡ without_call (innermost self.old thread) self.old.regions }
        ensures depths { self.new.depths ≡ slice_set self.old.depths thread
            (slice_index self.old.depths thread - 1) }
    {
        let call = self.innermost(thread);
        self.regions.retain(|region| !region.holder.is_of(call));
        self.pending = span_of(&self.regions);
        self.depths[thread as usize] -= 1;
    }

    /// Closes the innermost call of the thread: drops what it holds, and the region that is prepared under the committed
    /// key. What else it has prepared stays.
    pub fn close(&mut self, thread: u8, commit: Option<u64>)
        requires in_range { thread < THREADS }
        requires open { 1 ≤ slice_index self.old.depths thread }
        ensures regions { self.new.regions ≡ without_closed (innermost self.old thread) commit
            self.old.regions }
        ensures depths { self.new.depths ≡ slice_set self.old.depths thread
            (slice_index self.old.depths thread - 1) }
    {
        let call = self.innermost(thread);
        self.regions
            .retain(|region| region.holder.outlives(call, commit));
        disown_all(&mut self.regions, call);
        self.pending = span_of(&self.regions);
        self.depths[thread as usize] -= 1;
    }
}

// The span with the bytes of a region, if they are pending.
fn with_region(span: Span, region: &Region) -> Span
    ensures { (rest : List Region) → HoldsPending span rest →
        HoldsPending result (rest ++ region.now ∷ []) }
{
    if region.holder.is_pending() {
        span.with(region.range)
    } else {
        span
    }
}

// A span that has all pending bytes.
fn span_of(regions: &[Region]) -> Span
    ensures { HoldsPending result regions.now }
{
    let mut span = Span::empty();
    for region in regions {
        span = with_region(span, region);
    }
    span
}

// Makes the regions that the call has prepared nobody's.
fn disown_all(regions: &mut [Region], call: OpenCall)
    ensures { regions.new ≡ map (disown call) regions.old }
{
    for at in 0..regions.len() {
        let region = &mut regions[at];
        region.holder = region.holder.disowned(call);
    }
}

// Whether a range lies whole in another.
fn is_part(outer: Range, inner: Range) -> bool
    ensures { result ≡ is_part outer inner }
{
    if inner.addr < outer.addr {
        return false;
    }
    let before = inner.addr - outer.addr;
    before <= outer.len && inner.len <= outer.len - before
}

/// The lesser of two numbers, where there are some.
pub fn earlier(a: Option<u64>, b: Option<u64>) -> Option<u64>
    ensures { result ≡ earlier a b }
{
    match (a, b) {
        (Some(x), Some(y)) => Some(x.min(y)),
        (Some(x), None) | (None, Some(x)) => Some(x),
        (None, None) => None,
    }
}
