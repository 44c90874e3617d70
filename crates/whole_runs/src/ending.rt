//! How a run of a system file ends.

/// Why a run is halted that neither ended nor met a fault or breach of the program.
#[derive(Clone, Copy)]
pub enum Halt {
    /// The steps of the budget were made.
    Budget,
    /// No thread can step.
    Blocked,
    /// The next step needs an answer of the function with this number, and the file has no more.
    Script(u16),
    /// Code below the cut met the fault with this number, 1 to 6.
    System { kind: u8, thread: u8 },
    /// The next step would be one event too many.
    Events,
    /// The records of the events would have too many bytes.
    Full,
}

/// How a run ends.
#[derive(Clone, Copy)]
pub enum Ending {
    /// All started threads have ended.
    Done,
    /// Code above the cut met the fault with this number, 1 to 6.
    Fault {
        kind: u8,
        thread: u8,
    },
    /// The next step would be the breach with this number, 1 to 7. `addr` is what shows it, as
    /// `docs/RUN.md` says; `other` is
    /// the other thread of a race.
    Breach {
        kind: u8,
        thread: u8,
        addr: u64,
        other: Option<u8>,
    },
    /// The run was halted.
    Halted(Halt),
}
