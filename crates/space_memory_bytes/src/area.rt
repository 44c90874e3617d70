// One area: the bytes from a first address on.
ghost use Rattle.std.specs.Bool.{OnTrue, OnFalse};
ghost use Rattle.std.specs.Prelude.{◌≡◌, ℕ, ◌+◌, ◌-◌, ◌^◌, ◌<◌, ◌≤◌, ◌↔◌, IsTrue, IsSome, IfOk, IfSome, None, Some, replicate, length, slice_index};
ghost use Rattle.marks.specs.Ranges.{IsFirstIn};
ghost use Rattle.space_memory_bytes.specs.Areas.{holds, cell};
ghost use Rattle.space_memory_bytes.specs.Nexts.{IsNextOf};
ghost use Rattle.space_memory_bytes.specs.AreaChanges.{IsDeadIn, IsLiveIn, IsLiveRun, IsNumber, FillsArea, PutsInArea, WritesArea};

use crate::marked_bytes::MarkedBytes;
use memory_map::Range;
use std::alloc::{AllocError, Global};
use std::marker::Model;

/// A run of bytes, each dead or live with a value.
#[derive(Drop)]
pub struct Area {
    base: u64,
    cells: MarkedBytes,
}

impl Model for Area {
    ghost use Rattle.std.specs.Prelude.{◌+◌, ◌^◌, ◌<◌, length};
    ghost use Rattle.space_memory_bytes.specs.Areas.{AreaState};

    ghost Value = { AreaState };

    ghost view = { λ a. record { base = a.base; cells = a.cells } };

    ghost invariant = { λ a. a.base + length a.cells < 2 ^ 64 };
}

impl Area {
    /// The bytes of the range, all dead.
    pub fn new(alloc: Global, range: Range) -> Result<Area, AllocError>
        requires { range.addr + range.len < 2 ^ 64 }
        ensures { IfOk result (λ area. area ≡
            record { base = range.addr; cells = replicate range.len None }) }
    {
        let cells = MarkedBytes::new(alloc, range.len as usize)?;
        Ok(Area {
            base: range.addr,
            cells,
        })
    }

    /// Whether the address is one of the area's.
    #[inline(always)]
    pub fn has(&self, addr: u64) -> bool
        ensures holds { result ≡ holds self.now addr }
        ensures not_last { IsTrue result → addr + 1 < 2 ^ 64 }
    {
        addr >= self.base && addr - self.base < self.cells.len() as u64
    }

    /// The byte at the address, `None` where it is dead.
    #[inline]
    pub fn get(&self, addr: u64) -> Option<u8>
        requires { IsTrue (holds self.now addr) }
        ensures { result ≡ cell self.now addr }
    {
        self.cells.get((addr - self.base) as usize)
    }

    /// The least byte of the range that is dead. No byte after the area is live.
    pub fn first_dead(&self, range: Range) -> Option<u64>
        requires { IsTrue (holds self.now range.addr) }
        ensures { IsFirstIn range (IsDeadIn self.now) result }
    {
        let first = (range.addr - self.base) as usize;
        let room = self.cells.len() as u64 - first as u64;
        let end = first + range.len.min(room) as usize;
        if let Some(at) = self.cells.first_dead(first, end) {
            return Some(self.base + at as u64);
        }
        if range.len > room {
            return Some(self.base + self.cells.len() as u64);
        }
        None
    }

    /// The least address from one on whose byte is the area's, and live.
    pub fn first_live(&self, from: u64) -> Option<u64>
        ensures { IsNextOf (IsLiveIn self.now) from result }
    {
        let first = from.saturating_sub(self.base) as usize;
        if first > self.cells.len() {
            return None;
        }
        let at = self.cells.first_live(first)?;
        Some(self.base + at as u64)
    }

    /// The number of the `width` bytes from the address on, the lowest first; `None` where one of them is dead or none of the
    /// area's.
    #[inline(always)]
    pub fn number(&self, addr: u64, width: u8) -> Option<u64>
        requires held { IsTrue (holds self.now addr) }
        requires some { 1 ≤ width }
        requires at_most_8 { width ≤ 8 }
        ensures live { IsSome result ↔ IsLiveRun self.now addr width }
        ensures number { IfSome result (IsNumber self.now addr width) }
        ensures fits { IfSome result (λ value. value < 256 ^ width) }
    {
        self.cells.number((addr - self.base) as usize, width)
    }

    /// The same where it is read at a glance: `None` also where the width is an uncommon one.
    #[inline(always)]
    pub fn glance(&self, addr: u64, width: u8) -> Option<u64>
        requires { IsTrue (holds self.now addr) }
        ensures live { IsSome result → IsLiveRun self.now addr width }
        ensures number { IfSome result (IsNumber self.now addr width) }
        ensures fits { IfSome result (λ value. value < 256 ^ width) }
    {
        self.cells.glance((addr - self.base) as usize, width)
    }

    /// Makes the `width` bytes from the address on those of the number, the lowest first, if all are the area's and live;
    /// whether they are.
    #[inline(always)]
    pub fn overwrite(&mut self, addr: u64, width: u8, value: u64) -> bool
        requires held { IsTrue (holds self.old addr) }
        requires some { 1 ≤ width }
        requires at_most_8 { width ≤ 8 }
        ensures live { IsTrue result ↔ IsLiveRun self.old addr width }
        ensures written { OnTrue result (WritesArea addr width value self.old self.new) }
        ensures unchanged { OnFalse result (self.new ≡ self.old) }
    {
        self.cells
            .overwrite((addr - self.base) as usize, width, value)
    }

    /// The values of `n` live bytes from the address on.
    pub fn part(&self, addr: u64, n: usize) -> &[u8]
        requires from_base { self.now.base ≤ addr }
        requires in_area { addr + n ≤ self.now.base + length self.now.cells }
        requires live { IsLiveRun self.now addr n }
        ensures len { length result.now ≡ n }
        ensures values { (i : ℕ) → i < n → cell self.now (addr + i) ≡ Some (slice_index result.now i) }
    {
        let first = (addr - self.base) as usize;
        self.cells.part(first, first + n)
    }

    /// Whether the bytes from the address on are the area's, live, and those of the list.
    pub fn matches(&self, addr: u64, bytes: &[u8]) -> bool
        requires { IsTrue (holds self.now addr) }
        ensures { IsTrue result ↔ ((i : ℕ) → i < length bytes.now →
            cell self.now (addr + i) ≡ Some (slice_index bytes.now i)) }
    {
        let first = (addr - self.base) as usize;
        let room = self.cells.len() - first;
        if bytes.len() > room {
            return false;
        }
        let end = first + bytes.len();
        match self.cells.first_dead(first, end) {
            Some(_) => false,
            None => self.cells.part(first, end) == bytes,
        }
    }

    /// Makes each byte of the range the given one.
    pub fn fill(&mut self, range: Range, byte: Option<u8>)
        requires from_base { self.old.base ≤ range.addr }
        requires in_area { range.addr + range.len ≤ self.old.base + length self.old.cells }
        ensures { FillsArea range byte self.old self.new }
    {
        let first = (range.addr - self.base) as usize;
        self.cells.fill(first, first + range.len as usize, byte);
    }

    /// Makes the bytes from the address on those of the list.
    pub fn put(&mut self, addr: u64, bytes: &[u8])
        requires from_base { self.old.base ≤ addr }
        requires in_area { addr + length bytes.now ≤ self.old.base + length self.old.cells }
        ensures { PutsInArea addr bytes.now self.old self.new }
    {
        self.cells.put((addr - self.base) as usize, bytes);
    }
}
