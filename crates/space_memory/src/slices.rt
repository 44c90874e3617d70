// Bytes of a range at once.
ghost use Rattle.std.specs.Prelude.{◌≡◌, ◌↔◌, length, true, false, IsOk, IfOk, OnOk, OnErr, Err};
ghost use Rattle.space_memory_bytes.specs.Numbers.{HasBytes, SameOutside};
ghost use Rattle.space_memory_access.specs.declared.refusal.Refusal.{Refusal};
ghost use Rattle.space_memory_access.specs.Accesses.{IsAllowed, IsRefused};
ghost use Rattle.space_memory.specs.declared.error.HoldError.TheVariants.{Refused};

use crate::{HoldError, Spaces};
use marks::Side;
use memory_map::{Bytes8, Range};
use space_memory_access::Refusal;
use std::alloc::Global;

impl Spaces {
    /// The bytes of a range, for code of the side. It is refused as a load of them is.
    pub fn copy(
        &self,
        alloc: Global,
        side: Side,
        thread: u8,
        range: Range,
    ) -> Result<Bytes8, HoldError>
        ensures len { IfOk result (λ bytes. length bytes ≡ range.len) }
        ensures bytes { IfOk result (λ bytes. HasBytes self.now.bytes range.addr bytes) }
        ensures allowed { OnOk result (IsAllowed self.now.bytes self.now.held.regions
            (record { side = side; thread = thread; range = range; write = false })) }
        ensures refused { (r : Refusal) → (result ≡ Err (Refused r)) ↔ IsRefused self.now.bytes
            self.now.held.regions (record { side = side; thread = thread; range = range; write = false }) r }
    {
        self.check(side, thread, range, false)?;
        let bytes = self.bytes.copy(alloc, range)?;
        Ok(Bytes8::from(bytes))
    }

    /// Makes the bytes from the address on those of the list, for code of the side. It is refused as a store of them is.
    pub fn write(&mut self, side: Side, thread: u8, addr: u64, bytes: &[u8]) -> Result<(), Refusal>
        ensures written { OnOk result (HasBytes self.new.bytes addr bytes.now) }
        ensures others { OnOk result (SameOutside (record { addr = addr; len = length bytes.now })
            self.old.bytes self.new.bytes) }
        ensures rest { self.new ≡ record self.old { bytes = self.new.bytes } }
        ensures allowed { IsOk result ↔ IsAllowed self.old.bytes self.old.held.regions
            (record {
              side = side;
              thread = thread;
              range = record { addr = addr; len = length bytes.now };
              write = true;
            }) }
        ensures refused { (r : Refusal) → (result ≡ Err r) ↔ IsRefused self.old.bytes self.old.held.regions
            (record {
              side = side;
              thread = thread;
              range = record { addr = addr; len = length bytes.now };
              write = true;
            }) r }
        ensures unchanged { OnErr result (self.new ≡ self.old) }
    {
        let len = bytes.len() as u64;
        let range = Range { addr, len };
        self.check(side, thread, range, true)?;
        if !bytes.is_empty() {
            self.bytes.put(addr, bytes);
        }
        Ok(())
    }
}
