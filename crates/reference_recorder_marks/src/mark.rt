//! What a thread of a run does, one mark at a time: the types, field for field those in which contracts speak of marks.

use crate::lists::{Piece, PieceList, PreparedList, RangeList, WordList};
use marks::{FaultKind, Range, Side};
use run_events::{Bytes, Marks};

/// The access that a fault stops.
#[derive(Clone, Copy)]
pub enum Access {
    Nowhere,
    Reading(Range),
    Writing(Range),
    /// A block is given back that begins at the address.
    Freeing(u64),
}

/// What a return does with the region that its function commits.
#[derive(Drop)]
pub enum Commit {
    /// There is none.
    NoRegion,
    /// Its used size is negative, and it stays prepared.
    Withheld,
    /// The region under the key is released, with these bytes.
    Released { key: u64, region: Piece },
}

/// What happens where a thread crosses the cut, uses the pool, or stops. Arguments, results and addresses are patterns of 64 bits.
#[derive(Drop)]
pub enum EventKind {
    Call {
        func: u16,
        args: WordList,
        ins: PieceList,
        outs: RangeList,
        prepared: PreparedList,
    },
    Ret {
        func: u16,
        args: WordList,
        result: u64,
        same: bool,
        outs: PieceList,
        commit: Commit,
    },
    Up {
        func: u16,
        args: WordList,
    },
    UpRet {
        func: u16,
        result: u64,
    },
    Alloc {
        at: u64,
        size: u64,
    },
    Free {
        at: u64,
        size: u64,
    },
    Stop {
        fault: Option<FaultKind>,
    },
}

/// An event, how many steps its thread made since its previous one, its keys with their tickets, and its clock.
#[derive(Drop)]
pub struct Event {
    pub kind: EventKind,
    pub steps: u32,
    pub keys: Marks,
    pub clock: u32,
}

/// What a mark does.
#[derive(Drop)]
pub enum Act {
    Turn,
    Load {
        origin: Option<u32>,
        at: u64,
        bytes: Bytes,
    },
    Store {
        origin: Option<u32>,
        at: u64,
        bytes: Bytes,
    },
    Enter {
        func: u16,
        args: WordList,
        at: u64,
        bytes: Bytes,
    },
    Leave {
        at: u64,
        size: u64,
    },
    Step {
        func: u16,
        args: WordList,
        result: u64,
        ins: PieceList,
        pieces: PieceList,
        freed: RangeList,
    },
    Fault {
        kind: FaultKind,
        crosses: bool,
        ins: RangeList,
        outs: RangeList,
        access: Access,
    },
    Made(Event),
}

/// A mark of a thread, with the number of the thread's earlier events.
#[derive(Drop)]
pub struct Mark {
    pub thread: u8,
    pub side: Side,
    pub index: u32,
    pub act: Act,
}
