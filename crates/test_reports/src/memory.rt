// The memory of a run, behind calls that test what it asks of its callers.

ghost use Rattle.std.specs.Prelude.{◌≡◌, ◌<◌, length, IfSome};
ghost use Rattle.memory_map.specs.declared.areas.TheConstants.{THREADS};

use crate::words::{numbers_of, words_of};
use marks::Side;
use memory_map::{
    Bytes8, Flags, GLOBALS_SIZE, Place, Placed, Places, REPLAY_GLOBALS, Range, THREADS,
};
use space_memory::{HoldError, Spaces};
use std::alloc::{AllocError, Global};

/// The memory of a run.
#[derive(Drop)]
pub struct Memory {
    pub spaces: Spaces,
    ghost threads: { length spaces.held.depths ≡ THREADS },
}

fn thread_of(number: u64) -> Option<u8>
    ensures { IfSome result (λ thread. thread < THREADS) }
{
    if number < u64::from(THREADS) {
        Some(number as u8)
    } else {
        None
    }
}

impl Memory {
    /// The memory before a run whose first globals have these bytes, one after another; `None` where they are too many.
    pub fn new(alloc: Global, globals: &[u8]) -> Result<Option<Memory>, AllocError> {
        if globals.len() as u64 > GLOBALS_SIZE {
            return Ok(None);
        }
        let mut objects = Vec::new(alloc);
        objects.push(Place {
            addr: REPLAY_GLOBALS,
            init: Bytes8::from(globals.to_vec(alloc)?),
        })?;
        let placed = Placed {
            globals: Places::from(objects),
            strings: Places::new(alloc),
            replay: Flags::new(alloc),
            system: Flags::new(alloc),
            faces: Flags::new(alloc),
        };
        let spaces = Spaces::new(alloc, &placed)?;
        Ok(Some(Memory { spaces }))
    }

    /// A new frame of the thread on the side, of so many bytes.
    fn enter(&mut self, side: Side, thread: u64, size: u64) -> bool {
        match thread_of(thread) {
            Some(thread) => self.spaces.enter(side, thread, size).is_ok(),
            None => false,
        }
    }

    /// Writes the bytes of a number, the lowest first.
    fn store(&mut self, addr: u64, width: u64, number: u64) -> bool {
        if width < 1 || width > 8 {
            return false;
        }
        self.spaces
            .store(Side::Replay, 0, addr, width as u8, number)
            .is_ok()
    }

    /// The thread makes a call that holds the bytes, to write them.
    fn hold(&mut self, alloc: Global, thread: u64, range: Range) -> Result<bool, AllocError> {
        let Some(thread) = thread_of(thread) else {
            return Ok(false);
        };
        self.spaces.open(thread)?;
        match self.spaces.hold(alloc, thread, range, true) {
            Ok(()) => Ok(true),
            Err(HoldError::Refused(_)) => Ok(false),
            Err(HoldError::Memory) => Err(AllocError),
        }
    }

    /// Makes the call that a word names; false where it is none, or refused.
    fn make(&mut self, alloc: Global, name: &str, numbers: &[u64]) -> Result<bool, AllocError> {
        match (name, numbers) {
            ("enter", [thread, size]) => Ok(self.enter(Side::Replay, *thread, *size)),
            ("below", [thread, size]) => Ok(self.enter(Side::System, *thread, *size)),
            ("block", [size]) => Ok(self.spaces.alloc_in(Side::Replay, *size).is_some()),
            ("unblock", [addr]) => Ok(self.spaces.free_in(Side::Replay, *addr).is_ok()),
            ("store", [addr, width, number]) => Ok(self.store(*addr, *width, *number)),
            ("hold", [thread, addr, len]) => {
                let range = Range {
                    addr: *addr,
                    len: *len,
                };
                self.hold(alloc, *thread, range)
            }
            _ => Ok(false),
        }
    }

    /// Makes a call, whose words are its name and numbers; false where it is none, or refused.
    pub fn take(&mut self, alloc: Global, name: &str, text: &str) -> Result<bool, AllocError> {
        let words = words_of(alloc, text)?;
        match numbers_of(alloc, words.as_slice())? {
            Some(numbers) => self.make(alloc, name, &numbers),
            None => Ok(false),
        }
    }
}
