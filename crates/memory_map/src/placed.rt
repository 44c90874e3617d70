// The places of a program's objects.

use crate::{Bytes8, Flags, Places};

/// An object: its first byte's address, and its bytes at the start of a run.
#[derive(Drop)]
pub struct Place {
    pub addr: u64,
    pub init: Bytes8,
}

/// The places of globals and strings, each in the order of the source, and per function number whether the function may
/// run in replay mode, may run in system mode, and is in the interface.
#[derive(Drop)]
pub struct Placed {
    pub globals: Places,
    pub strings: Places,
    pub replay: Flags,
    pub system: Flags,
    pub faces: Flags,
}
