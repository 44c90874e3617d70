// Loads and stores, and the tests of an access.
ghost use Rattle.std.specs.Prelude.{◌≡◌, ◌+◌, ◌^◌, ◌<◌, ◌≤◌, ◌↔◌, true, false, IsTrue, IsSome, Err, IsOk, IfOk, IfSome, OnOk, OnErr};
ghost use Rattle.space_memory_bytes.specs.Areas.{extents, AllLive, LiesIn};
ghost use Rattle.space_memory_bytes.specs.Numbers.{HasNumber, SameOutside};
ghost use Rattle.space_memory_access.specs.declared.refusal.Refusal.{Refusal};
ghost use Rattle.space_memory_access.specs.Accesses.{IsAllowed, IsRefused};

use crate::Spaces;
use marks::Side;
use memory_map::Range;
use space_memory_access::{Access, Refusal, check_access, is_open};

impl Spaces {
    /// The number in `width` bytes, 1 to 8, from the address on, the lowest first, for code of the side. `OtherSpace` for a
    /// byte of the other side, `NotLive` for a dead byte, `Pending` for one that replay code may not touch: the first of
    /// these that some byte meets, with the least such byte.
    #[inline(always)]
    pub fn load(&self, side: Side, thread: u8, addr: u64, width: u8) -> Result<u64, Refusal>
        requires some { 1 ≤ width }
        requires at_most_8 { width ≤ 8 }
        ensures number { IfOk result (HasNumber self.now.bytes addr width) }
        ensures fits { IfOk result (λ value. value < 256 ^ width) }
        ensures allowed { IsOk result ↔ IsAllowed self.now.bytes self.now.held.regions
            (record {
              side = side;
              thread = thread;
              range = record { addr = addr; len = width };
              write =
                  false;
            }) }
        ensures refused { (r : Refusal) → (result ≡ Err r) ↔ IsRefused self.now.bytes self.now.held.regions
            (record {
              side = side;
              thread = thread;
              range = record { addr = addr; len = width };
              write =
                  false;
            }) r }
    {
        let len = width as u64;
        let range = Range { addr, len };
        if self.is_open(side, thread, range, false) {
            if let Some(value) = self.bytes.number(addr, width) {
                return Ok(value);
            }
        }
        match self.check(side, thread, range, false) {
            Ok(()) => Ok(self.bytes.read(addr, width)),
            Err(refusal) => Err(refusal),
        }
    }

    /// The same where a glance shows it: `None` wherever more is to be looked at.
    #[inline(always)]
    pub fn glance(&self, side: Side, thread: u8, addr: u64, width: u8) -> Option<u64>
        requires { width ≤ 8 }
        ensures number { IfSome result (HasNumber self.now.bytes addr width) }
        ensures fits { IfSome result (λ value. value < 256 ^ width) }
        ensures allowed { IsSome result → IsAllowed self.now.bytes self.now.held.regions
            (record {
              side = side;
              thread = thread;
              range = record { addr = addr; len = width };
              write =
                  false;
            }) }
    {
        let len = width as u64;
        let range = Range { addr, len };
        if self.is_open(side, thread, range, false) {
            self.bytes.glance(addr, width)
        } else {
            None
        }
    }

    /// Writes the low `width` bytes of the value, 1 to 8, from the address on, the lowest first, for code of the side. It is
    /// refused as a load is, and last of all with `ReadOnly` for a constant.
    #[inline(always)]
    pub fn store(
        &mut self,
        side: Side,
        thread: u8,
        addr: u64,
        width: u8,
        value: u64,
    ) -> Result<(), Refusal>
        requires some { 1 ≤ width }
        requires at_most_8 { width ≤ 8 }
        ensures number { OnOk result (HasNumber self.new.bytes addr width value) }
        ensures others { OnOk result (SameOutside (record { addr = addr; len = width }) self.old.bytes
            self.new.bytes) }
        ensures rest { self.new ≡ record self.old { bytes = self.new.bytes } }
        ensures allowed { IsOk result ↔ IsAllowed self.old.bytes self.old.held.regions
            (record {
              side = side;
              thread = thread;
              range = record { addr = addr; len = width };
              write =
                  true;
            }) }
        ensures refused { (r : Refusal) → (result ≡ Err r) ↔ IsRefused self.old.bytes self.old.held.regions
            (record {
              side = side;
              thread = thread;
              range = record { addr = addr; len = width };
              write =
                  true;
            }) r }
        ensures unchanged { OnErr result (self.new ≡ self.old) }
    {
        let len = width as u64;
        let range = Range { addr, len };
        if !self.is_open(side, thread, range, true) {
            return self.store_tested(side, thread, addr, width, value);
        }
        if self.bytes.overwrite(addr, width, value) {
            return Ok(());
        }
        self.store_tested(side, thread, addr, width, value)
    }

    // Whether only a dead byte can refuse an access of up to eight bytes of code of the side, as a glance shows it.
    #[inline(always)]
    fn is_open(&self, side: Side, thread: u8, range: Range, write: bool) -> bool
        requires { range.len ≤ 8 }
        ensures allowed { IsTrue result → AllLive self.now.bytes range.addr range.len →
            IsAllowed self.now.bytes self.now.held.regions
            (record { side = side; thread = thread; range = range; write = write }) }
        ensures not_refused { IsTrue result → AllLive self.now.bytes range.addr range.len →
            (r : Refusal) → ¬ IsRefused self.now.bytes self.now.held.regions
            (record { side = side; thread = thread; range = range; write = write }) r }
    {
        let access = Access {
            side,
            thread,
            range,
            write,
        };
        is_open(&self.held, access)
    }

    // A store that goes through the tests one after another.
    #[inline(never)]
    fn store_tested(
        &mut self,
        side: Side,
        thread: u8,
        addr: u64,
        width: u8,
        value: u64,
    ) -> Result<(), Refusal>
        requires { 1 ≤ width }
        ensures number { OnOk result (HasNumber self.new.bytes addr width value) }
        ensures others { OnOk result (SameOutside (record { addr = addr; len = width }) self.old.bytes
            self.new.bytes) }
        ensures rest { self.new ≡ record self.old { bytes = self.new.bytes } }
        ensures allowed { IsOk result ↔ IsAllowed self.old.bytes self.old.held.regions
            (record {
              side = side;
              thread = thread;
              range = record { addr = addr; len = width };
              write =
                  true;
            }) }
        ensures refused { (r : Refusal) → (result ≡ Err r) ↔ IsRefused self.old.bytes self.old.held.regions
            (record {
              side = side;
              thread = thread;
              range = record { addr = addr; len = width };
              write =
                  true;
            }) r }
        ensures unchanged { OnErr result (self.new ≡ self.old) }
    {
        let len = width as u64;
        self.check(side, thread, Range { addr, len }, true)?;
        self.bytes.write(addr, width, value);
        Ok(())
    }

    // Tests an access of code of the side: the first test that fails refuses it, at its least byte.
    #[inline(never)]
    pub(crate) fn check(
        &self,
        side: Side,
        thread: u8,
        range: Range,
        write: bool,
    ) -> Result<(), Refusal>
        ensures allowed { IsOk result ↔ IsAllowed self.now.bytes self.now.held.regions
            (record { side = side; thread = thread; range = range; write = write }) }
        ensures refused { (r : Refusal) → (result ≡ Err r) ↔ IsRefused self.now.bytes self.now.held.regions
            (record { side = side; thread = thread; range = range; write = write }) r }
        ensures ends { IfOk result (λ _. range.addr + range.len < 2 ^ 64) }
        ensures one_area { IfOk result (λ _. 1 ≤ range.len → LiesIn range (extents self.now.bytes)) }
    {
        let access = Access {
            side,
            thread,
            range,
            write,
        };
        check_access(&self.bytes, &self.held, access)
    }
}
