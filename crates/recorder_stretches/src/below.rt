//! Accesses and rounds below the cut.

ghost use Rattle.std.specs.Prelude.{◌≡◌, ◌≢◌, ◌^◌, ◌<◌, ◌≤◌, None, IfSome};
ghost use Rattle.marks.specs.Wants.{Value};
ghost use Rattle.c_machine.specs.declared.wants.Want.TheVariants.{Load as ShownLoad};
ghost use Rattle.marks.specs.declared.side.Side.TheVariants.{System};
ghost use Rattle.recorder_stretches.specs.Stretches.{IsOneMore};

use crate::thread::FIRST;
use c_machine::Accesses;
use recorder_memory::Memory;

/// Memory in which the only thread makes accesses below the cut, and how many steps the budget has left.
#[derive(Drop)]
pub(crate) struct Below<'a> {
    pub(crate) memory: &'a mut Memory,
    pub(crate) left: u64,
}

impl Accesses for Below<'_> {
    ghost makes = { λ old w x new. (old.memory.ghost_name ≡ new.memory.ghost_name) ×
        IsOneMore System old.memory.now old.left w x new.memory.now new.left };

    ghost left = { λ a. a.left };

    #[inline(never)]
    fn load(&mut self, addr: u64, width: u8) -> Option<u64> {
        if self.left == 0 {
            return None;
        }
        if let Some(value) = self.memory.glance_below(FIRST, addr, width) {
            self.left -= 1;
            return Some(value);
        }
        self.load_apart(addr, width)
    }

    #[inline(never)]
    fn store(&mut self, addr: u64, width: u8, value: u64) -> bool {
        if self.left == 0 {
            return false;
        }
        match self.memory.store_below(FIRST, addr, width, value) {
            Ok(()) => {
                self.left -= 1;
                true
            }
            Err(_) => false,
        }
    }

    #[inline(always)]
    fn turn(&mut self) -> bool {
        if self.left == 0 {
            return false;
        }
        self.left -= 1;
        true
    }
}

impl Below<'_> {
    // A load that a glance doesn't show.
    #[inline(never)]
    fn load_apart(&mut self, addr: u64, width: u8) -> Option<u64>
        requires some { 1 ≤ width }
        requires few { width ≤ 8 }
        requires left { self.old.left ≢ 0 }
        ensures fits { IfSome result (λ value. value < 256 ^ width) }
        ensures loaded { IfSome result (λ value. (self.old.memory.ghost_name ≡ self.new.memory.ghost_name) ×
            IsOneMore System self.old.memory.now self.old.left (ShownLoad addr width) (Value value)
            self.new.memory.now self.new.left) }
        ensures refused { result ≡ None → self.new ≡ self.old }
    {
        match self.memory.load_below(FIRST, addr, width) {
            Ok(value) => {
                self.left -= 1;
                Some(value)
            }
            Err(_) => None,
        }
    }
}
