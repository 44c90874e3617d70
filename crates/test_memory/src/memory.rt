// The memory of a run, behind calls that test what it asks of its callers.
ghost use Rattle.std.specs.Prelude.{◌≡◌, ◌≤◌, ◌<◌, [], ◌∷◌, ◌++◌, All, IsTrue, IfOk, IfSome, OnSome, length, replicate, slice_index, true};
ghost use Rattle.memory_map.specs.declared.areas.TheConstants.{THREADS};
ghost use Rattle.space_memory_access.specs.Held.{innermost};
ghost use Rattle.space_memory.specs.Objects.{IsInArea};
ghost use Rattle.space_memory.specs.Releases.{committed_key, outs_of};
ghost use Rattle.test_memory.specs.Held.{holders_of};

use crate::answer::Answer;
use marks::Side;
use memory_map::{
    Bytes8, CONSTANTS, Flags, GLOBALS_SIZE, Place, Placed, Places, REPLAY_GLOBALS, Range,
    SYSTEM_GLOBALS, THREADS,
};
use space_memory::{HoldError, Spaces};
use space_memory_access::{Holder, OpenCall, Region, Regions};
use std::alloc::{AllocError, Global};
use std::mem;

/// The memory of a run, beside what it doesn't tell of itself: what its open calls hold, here without the bytes. Once memory
/// ran out that isn't known any more.
#[derive(Drop)]
pub struct Memory {
    placed: Placed,
    spaces: Spaces,
    held: Regions,
    is_known: bool,
    ghost depths: { is_known ≡ true → held.depths ≡ spaces.held.depths },
    ghost holders: { is_known ≡ true → holders_of held.regions ≡ holders_of spaces.held.regions },
}

fn thread_of(number: u64) -> Option<u8>
    ensures { IfSome result (λ thread. thread < THREADS) }
{
    if number < u64::from(THREADS) {
        Some(number as u8)
    } else {
        None
    }
}

fn width_of(number: u64) -> Option<u8>
    ensures { IfSome result (λ width. (1 ≤ width) × (width ≤ 8)) }
{
    if number >= 1 && number <= 8 {
        Some(number as u8)
    } else {
        None
    }
}

fn is_in_area(object: &Place) -> bool
    ensures { IsTrue result → IsInArea object.now }
{
    let Some(end) = object.addr.checked_add(object.init.as_slice().len() as u64) else {
        return false;
    };
    (CONSTANTS.addr <= object.addr && end < REPLAY_GLOBALS)
        || (REPLAY_GLOBALS <= object.addr && end <= REPLAY_GLOBALS + GLOBALS_SIZE)
        || (SYSTEM_GLOBALS <= object.addr && end <= SYSTEM_GLOBALS + GLOBALS_SIZE)
}

fn are_in_areas(objects: &[Place]) -> bool
    ensures { IsTrue result → All IsInArea objects.now }
{
    objects.iter().all(is_in_area)
}

/// A region without its bytes.
fn region(alloc: Global, holder: Holder) -> Region
    ensures { result.holder ≡ holder }
{
    Region {
        range: Range { addr: 0, len: 0 },
        before: Bytes8::new(alloc),
        holder,
    }
}

/// The key of what is committed.
fn key_of(commit: Option<(u64, u64)>) -> Option<u64>
    ensures { result ≡ committed_key commit }
{
    let (key, _) = commit?;
    Some(key)
}

/// How many regions the call holds to write.
fn out_count(held: &[Region], call: OpenCall) -> usize
    ensures { result ≡ length (outs_of call held.now) }
{
    held.iter()
        .filter(|region| region.holder.is_out_of(call))
        .count()
}

/// The spaces of a memory before a run; none where an object lies in no area.
fn spaces_of(alloc: Global, placed: &Placed) -> Result<Option<Spaces>, AllocError>
    ensures { IfOk result (λ spaces. IfSome spaces (λ s. s.held ≡
        record { regions = []; depths = replicate THREADS 0 })) }
{
    if !are_in_areas(placed.globals.as_slice()) || !are_in_areas(placed.strings.as_slice()) {
        return Ok(None);
    }
    Ok(Some(Spaces::new(alloc, placed)?))
}

/// Adds an object.
fn add(alloc: Global, objects: &mut Places, object: Place) -> Result<(), AllocError> {
    let mut items = mem::replace(objects, Places::new(alloc)).into_vec();
    items.push(object)?;
    *objects = Places::from(items);
    Ok(())
}

impl Memory {
    /// A memory before a run, without objects.
    pub fn new(alloc: Global) -> Result<Memory, AllocError> {
        let placed = Placed {
            globals: Places::new(alloc),
            strings: Places::new(alloc),
            replay: Flags::new(alloc),
            system: Flags::new(alloc),
            faces: Flags::new(alloc),
        };
        let spaces = Spaces::new(alloc, &placed)?;
        let held = Regions::new(alloc)?;
        Ok(Memory {
            placed,
            spaces,
            held,
            is_known: true,
        })
    }

    // The thread of the number, where it has a call open.
    fn caller(&self, thread: u64) -> Option<u8>
        ensures in_range { IfSome result (λ t. t < THREADS) }
        ensures open { IfSome result (λ t. 1 ≤ slice_index self.now.spaces.held.depths t) }
        ensures known { OnSome result (self.now.is_known ≡ true) }
    {
        let thread = thread_of(thread)?;
        if !self.is_known || self.held.innermost(thread).depth == 0 {
            return None;
        }
        Some(thread)
    }

    pub fn load(&self, side: Side, thread: u64, addr: u64, width: u64) -> Answer {
        match (thread_of(thread), width_of(width)) {
            (Some(thread), Some(width)) => self.spaces.load(side, thread, addr, width).into(),
            _ => Answer::NoCall,
        }
    }

    pub fn store(&mut self, side: Side, thread: u64, addr: u64, width: u64, value: u64) -> Answer {
        match (thread_of(thread), width_of(width)) {
            (Some(thread), Some(width)) => {
                self.spaces.store(side, thread, addr, width, value).into()
            }
            _ => Answer::NoCall,
        }
    }

    pub fn cells(&self, addr: u64) -> Answer {
        if addr % 16 != 0 {
            return Answer::NoCall;
        }
        Answer::Cells(self.spaces.cells(addr))
    }

    pub fn alloc_in(&mut self, side: Side, len: u64) -> Answer {
        self.spaces.alloc_in(side, len).into()
    }

    pub fn free_in(&mut self, side: Side, addr: u64) -> Answer {
        self.spaces.free_in(side, addr).into()
    }

    pub fn block(&self, side: Side, addr: u64) -> Answer {
        self.spaces.block(side, addr).into()
    }

    pub fn enter(&mut self, side: Side, thread: u64, size: u64) -> Answer {
        match thread_of(thread) {
            Some(thread) => self.spaces.enter(side, thread, size).into(),
            None => Answer::NoCall,
        }
    }

    pub fn top(&self, side: Side, thread: u64) -> Answer {
        match thread_of(thread) {
            Some(thread) => self.spaces.top(side, thread).into(),
            None => Answer::NoCall,
        }
    }

    /// Sets one argument of the thread's innermost frame.
    pub fn set_arg(
        &mut self,
        side: Side,
        thread: u64,
        offset: u64,
        width: u64,
        value: u64,
    ) -> Answer {
        let (Some(thread), Some(width)) = (thread_of(thread), width_of(width)) else {
            return Answer::NoCall;
        };
        match self.spaces.top(side, thread) {
            Some(frame) if offset <= frame.len && u64::from(width) <= frame.len - offset => {
                self.spaces
                    .set_args(side, thread, &[offset], &[width], &[value]);
                Answer::Done
            }
            _ => Answer::NoCall,
        }
    }

    pub fn leave(&mut self, side: Side, thread: u64) -> Answer {
        let Some(thread) = thread_of(thread) else {
            return Answer::NoCall;
        };
        if self.spaces.top(side, thread).is_none() {
            return Answer::NoCall;
        }
        match self.spaces.leave(side, thread) {
            Ok(frame) => Answer::Place(frame),
            Err(refusal) => Answer::Refused(refusal),
        }
    }

    pub fn open(&mut self, thread: u64) -> Answer {
        let Some(thread) = thread_of(thread) else {
            return Answer::NoCall;
        };
        if self.spaces.open(thread).is_err() {
            return Answer::OutOfMemory;
        }
        if self.held.open(thread).is_err() {
            self.is_known = false;
            return Answer::OutOfMemory;
        }
        Answer::Done
    }

    pub fn hold(&mut self, alloc: Global, thread: u64, range: Range, write: bool) -> Answer {
        let Some(thread) = self.caller(thread) else {
            return Answer::NoCall;
        };
        let call = self.held.innermost(thread);
        let holder = if write {
            Holder::Out(call)
        } else {
            Holder::In(call)
        };
        if let Err(error) = self.spaces.hold(alloc, thread, range, write) {
            return error.into();
        }
        self.is_known = self.held.add(region(alloc, holder)).is_ok();
        Answer::Done
    }

    pub fn prepare(&mut self, alloc: Global, thread: u64, key: u64, range: Range) -> Answer {
        let Some(thread) = self.caller(thread) else {
            return Answer::NoCall;
        };
        let by = Some(self.held.innermost(thread));
        if let Err(error) = self.spaces.prepare(alloc, thread, key, range) {
            return error.into();
        }
        let holder = Holder::Key { key, by };
        self.is_known = self.held.add(region(alloc, holder)).is_ok();
        Answer::Done
    }

    pub fn undo(&mut self, thread: u64) -> Answer {
        let Some(thread) = self.caller(thread) else {
            return Answer::NoCall;
        };
        self.spaces.undo(thread);
        self.held.undo(thread);
        Answer::Done
    }

    /// Closes the thread's innermost call, where as many used sizes are given as it holds regions to write.
    pub fn release(&mut self, thread: u64, used: &[u64], commit: Option<(u64, u64)>) -> Answer {
        let Some(thread) = self.caller(thread) else {
            return Answer::NoCall;
        };
        if used.len() != out_count(self.held.as_slice(), self.held.innermost(thread)) {
            return Answer::NoCall;
        }
        if let Err(refusal) = self.spaces.release(thread, used, commit) {
            return Answer::Refused(refusal);
        }
        self.held.close(thread, key_of(commit));
        Answer::Done
    }

    /// Whether the thread's innermost call may be closed, where as many used sizes are given as it holds regions to write.
    pub fn may_release(&self, thread: u64, used: &[u64], commit: Option<(u64, u64)>) -> Answer {
        let Some(thread) = self.caller(thread) else {
            return Answer::NoCall;
        };
        if used.len() != out_count(self.held.as_slice(), self.held.innermost(thread)) {
            return Answer::NoCall;
        }
        self.spaces.may_release(thread, used, commit).into()
    }

    pub fn is_filled(&self, thread: u64, place: u64, used: u64) -> Answer {
        match thread_of(thread) {
            Some(thread) => { Answer::Holds(self.spaces.is_filled(thread, place as usize, used)) }
            None => Answer::NoCall,
        }
    }

    pub fn is_committed_filled(&self, key: u64, used: u64) -> Answer {
        Answer::Holds(self.spaces.is_committed_filled(key, used))
    }

    pub fn may_enter(&self, side: Side, thread: u64, size: u64) -> Answer {
        match thread_of(thread) {
            Some(thread) => self.spaces.may_enter(side, thread, size).into(),
            None => Answer::NoCall,
        }
    }

    pub fn live_row(&self, addr: u64) -> Answer {
        if addr % 16 != 0 {
            return Answer::NoCall;
        }
        self.spaces.live_row(addr).into()
    }

    pub fn copy(&self, alloc: Global, side: Side, thread: u64, range: Range) -> Answer {
        let Some(thread) = thread_of(thread) else {
            return Answer::NoCall;
        };
        match self.spaces.copy(alloc, side, thread, range) {
            Ok(bytes) => Answer::Bytes(bytes),
            Err(error) => error.into(),
        }
    }

    pub fn write(&mut self, side: Side, thread: u64, addr: u64, bytes: &[u8]) -> Answer {
        match thread_of(thread) {
            Some(thread) => self.spaces.write(side, thread, addr, bytes).into(),
            None => Answer::NoCall,
        }
    }

    pub fn prepared(&self, key: u64) -> Answer {
        self.spaces.prepared(key).into()
    }

    /// Begins anew, with one object more: a global, or else a string.
    pub fn place(
        &mut self,
        alloc: Global,
        is_global: bool,
        object: Place,
    ) -> Result<Answer, AllocError> {
        if is_global {
            add(alloc, &mut self.placed.globals, object)?;
        } else {
            add(alloc, &mut self.placed.strings, object)?;
        }
        let held = Regions::new(alloc)?;
        let Some(spaces) = spaces_of(alloc, &self.placed)? else {
            return Ok(Answer::NoCall);
        };
        self.spaces = spaces;
        self.held = held;
        self.is_known = true;
        Ok(Answer::Done)
    }
}
