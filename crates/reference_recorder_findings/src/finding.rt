//! What a check finds.

use marks::{BreachKind, FaultKind};

/// What the first check of a step that fails finds.
#[derive(Clone, Copy)]
pub enum Finding {
    /// The step is this fault.
    Fault(FaultKind),
    /// It is this breach, with the address that is shown and, of a race, the other thread.
    Breach {
        kind: BreachKind,
        address: u64,
        other: Option<u8>,
    },
}
