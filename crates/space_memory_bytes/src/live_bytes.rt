// The bytes of a few areas.
ghost use Rattle.std.specs.Bool.{OnTrue, OnFalse};
ghost use Rattle.std.specs.Prelude.{◌≡◌, ℕ, ◌+◌, ◌^◌, ◌<◌, ◌≤◌, ◌↔◌, false, All, IsTrue, IsSome, IfOk, IfSome, IfNone, None, Some, length};
ghost use Rattle.marks.specs.Ranges.{IsFirstIn};
ghost use Rattle.space_memory_bytes.specs.Areas.{byte_at, extents, holds, RiseFrom, LiesIn, IsHolder, IsDead, AllLive};
ghost use Rattle.space_memory_bytes.specs.Nexts.{IsNextOf};
ghost use Rattle.space_memory_bytes.specs.Numbers.{HasNumber, HasBytes, FillsWith, SameOutside};

use crate::area::Area;
use memory_map::Range;
use std::alloc::{AllocError, Global};
use std::marker::Model;

/// The bytes of a few areas of addresses, each dead or live with a value. Contracts see the areas, and each byte by
/// `byte_at`.
#[derive(Drop)]
pub struct LiveBytes {
    areas: Vec<Area>,
}

impl Model for LiveBytes {
    ghost use Rattle.std.specs.Prelude.{List};
    ghost use Rattle.space_memory_bytes.specs.Areas.{AreaState, RiseFrom, extents};

    ghost Value = { List AreaState };

    ghost view = { λ b. b.areas.items };

    ghost invariant = { λ b. RiseFrom 0 (extents b.areas.items) };
}

impl LiveBytes {
    /// The bytes of the ranges, all dead. The ranges rise, with an address between two of them.
    pub fn new(alloc: Global, ranges: &[Range]) -> Result<LiveBytes, AllocError>
        requires { RiseFrom 0 ranges.now }
        ensures areas { IfOk result (λ bytes. extents bytes ≡ ranges.now) }
        ensures dead { IfOk result (λ bytes. (x : ℕ) → IsDead bytes x) }
    {
        let mut areas = Vec::new(alloc);
        for range in ranges {
            areas.push(Area::new(alloc, *range)?)?;
        }
        Ok(LiveBytes { areas })
    }

    /// The byte at the address, `None` where it is dead.
    pub fn get(&self, addr: u64) -> Option<u8>
        ensures { result ≡ byte_at self.now addr }
    {
        let at = self.find(addr)?;
        let area = &self.areas[at];
        area.get(addr)
    }

    /// The least byte of the range that is dead, if there is one.
    pub fn first_dead(&self, range: Range) -> Option<u64>
        ensures first { IsFirstIn range (IsDead self.now) result }
        ensures ends { IfNone result (range.addr + range.len < 2 ^ 64) }
        ensures one_area { IfNone result (1 ≤ range.len → LiesIn range (extents self.now)) }
    {
        if range.len == 0 {
            return None;
        }
        let Some(at) = self.find(range.addr) else {
            return Some(range.addr);
        };
        let area = &self.areas[at];
        area.first_dead(range)
    }

    /// The least address from one on whose byte is live.
    pub fn first_live(&self, from: u64) -> Option<u64>
        ensures { IsNextOf (λ x. ¬ IsDead self.now x) from result }
    {
        for area in &self.areas {
            if let Some(addr) = area.first_live(from) {
                return Some(addr);
            }
        }
        None
    }

    /// The number of the `width` bytes from the address on, the lowest first; `None` where one of them is dead.
    #[inline(always)]
    pub fn number(&self, addr: u64, width: u8) -> Option<u64>
        requires some { 1 ≤ width }
        requires at_most_8 { width ≤ 8 }
        ensures live { IsSome result ↔ AllLive self.now addr width }
        ensures number { IfSome result (HasNumber self.now addr width) }
        ensures fits { IfSome result (λ value. value < 256 ^ width) }
    {
        match self.find(addr) {
            Some(at) => {
                let area = &self.areas[at];
                area.number(addr, width)
            }
            None => None,
        }
    }

    /// The same where it is read at a glance: `None` also where the width is an uncommon one, or the address lies in another area
    /// than is likely.
    #[inline(always)]
    pub fn glance(&self, addr: u64, width: u8) -> Option<u64>
        ensures live { IsSome result → AllLive self.now addr width }
        ensures number { IfSome result (HasNumber self.now addr width) }
        ensures fits { IfSome result (λ value. value < 256 ^ width) }
    {
        match self.find_likely(addr) {
            Some(at) => {
                let area = &self.areas[at];
                area.glance(addr, width)
            }
            None => None,
        }
    }

    /// Writes the low `width` bytes of the value from the address on, the lowest first, if all are live; whether they are.
    #[inline(always)]
    pub fn overwrite(&mut self, addr: u64, width: u8, value: u64) -> bool
        requires some { 1 ≤ width }
        requires at_most_8 { width ≤ 8 }
        ensures live { IsTrue result ↔ AllLive self.old addr width }
        ensures written { OnTrue result (HasNumber self.new addr width value) }
        ensures others { OnTrue result (SameOutside (record { addr = addr; len = width }) self.old
            self.new) }
        ensures unchanged { OnFalse result (self.new ≡ self.old) }
    {
        match self.find(addr) {
            Some(at) => {
                let area = &mut self.areas[at];
                area.overwrite(addr, width, value)
            }
            None => false,
        }
    }

    /// The number whose bytes lie from a live address on, the lowest first.
    pub fn read(&self, addr: u64, width: u8) -> u64
        requires some { 1 ≤ width }
        requires at_most_8 { width ≤ 8 }
        requires live { AllLive self.now addr width }
        ensures fits { result < 256 ^ width }
        ensures number { HasNumber self.now addr width result }
    {
        match self.number(addr, width) {
            Some(value) => value,
            None => unreachable!("each byte lives"),
        }
    }

    /// Makes each byte of a range of one area the given one.
    pub fn fill(&mut self, range: Range, byte: Option<u8>)
        requires { LiesIn range (extents self.old) }
        ensures fills { FillsWith range byte self.old self.new }
        ensures ends { range.addr + range.len < 2 ^ 64 }
    {
        if range.len == 0 {
            return;
        }
        if let Some(at) = self.find(range.addr) {
            let area = &mut self.areas[at];
            area.fill(range, byte);
        }
    }

    /// Writes the low `width` bytes of the value into one area, the lowest first.
    pub fn write(&mut self, addr: u64, width: u8, value: u64)
        requires { LiesIn (record { addr = addr; len = width }) (extents self.old) }
        ensures written { HasNumber self.new addr width value }
        ensures others { SameOutside (record { addr = addr; len = width }) self.old self.new }
    {
        let bytes = value.to_le_bytes();
        let low = width.min(8);
        self.put(addr, &bytes[..low as usize]);
        let above = Range {
            addr: addr + low as u64,
            len: (width - low) as u64,
        };
        self.fill(above, Some(0));
    }

    /// Makes the bytes from the address on, which lie in one area, those of the list.
    pub fn put(&mut self, addr: u64, bytes: &[u8])
        requires { LiesIn (record { addr = addr; len = length bytes.now }) (extents self.old) }
        ensures put { HasBytes self.new addr bytes.now }
        ensures ends { addr + length bytes.now < 2 ^ 64 }
        ensures others { SameOutside (record { addr = addr; len = length bytes.now }) self.old self.new }
    {
        if bytes.is_empty() {
            return;
        }
        if let Some(at) = self.find(addr) {
            let area = &mut self.areas[at];
            area.put(addr, bytes);
        }
    }

    /// The bytes of a range that is live.
    pub fn copy(&self, alloc: Global, range: Range) -> Result<Vec<u8>, AllocError>
        requires live { AllLive self.now range.addr range.len }
        requires ends { range.addr + range.len < 2 ^ 64 }
        ensures len { IfOk result (λ bytes. length bytes.items ≡ range.len) }
        ensures bytes { IfOk result (λ bytes. HasBytes self.now range.addr bytes.items) }
    {
        if range.len == 0 {
            return Ok(Vec::new(alloc));
        }
        match self.find(range.addr) {
            Some(at) => {
                let area = &self.areas[at];
                Vec::from_slice(alloc, area.part(range.addr, range.len as usize))
            }
            None => unreachable!("the first byte lives"),
        }
    }

    /// Whether the bytes from the address on are live and those of the list.
    pub fn matches(&self, addr: u64, bytes: &[u8]) -> bool
        requires { addr + length bytes.now < 2 ^ 64 }
        ensures { IsTrue result ↔ HasBytes self.now addr bytes.now }
    {
        if bytes.is_empty() {
            return true;
        }
        match self.find(addr) {
            Some(at) => {
                let area = &self.areas[at];
                area.matches(addr, bytes)
            }
            None => false,
        }
    }

    // The place of the area that has the address: the likely one, or else the first that has it.
    #[inline(always)]
    fn find(&self, addr: u64) -> Option<usize>
        ensures found { IfSome result (IsHolder self.now addr) }
        ensures none { IfNone result (All (λ a. holds a addr ≡ false) self.now) }
        ensures rising { RiseFrom 0 (extents self.now) }
    {
        match self.find_likely(addr) {
            Some(at) => Some(at),
            None => self.find_first(addr),
        }
    }

    // The likely place, if the area there has the address.
    #[inline(always)]
    fn find_likely(&self, addr: u64) -> Option<usize>
        ensures found { IfSome result (IsHolder self.now addr) }
        ensures rising { RiseFrom 0 (extents self.now) }
    {
        let likely = likely_place(addr);
        if likely < self.areas.len() && self.areas[likely].has(addr) {
            Some(likely)
        } else {
            None
        }
    }

    // The place of the first area that has the address.
    #[inline(never)]
    fn find_first(&self, addr: u64) -> Option<usize>
        ensures found { IfSome result (IsHolder self.now addr) }
        ensures none { IfNone result (All (λ a. holds a addr ≡ false) self.now) }
        ensures rising { RiseFrom 0 (extents self.now) }
    {
        self.areas.iter().position(|area| area.has(addr))
    }
}

// Where the area of an address is likely to be: those of a run begin 2^28 addresses apart, and one is left out after four.
#[inline]
fn likely_place(addr: u64) -> usize {
    let step = addr / 0x1000_0000;
    (step - step / 4) as usize
}
