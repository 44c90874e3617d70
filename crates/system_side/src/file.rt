//! What a system file says.

use crate::answer_list::Answers;
use crate::lists::Schedule;
use run_events::Pieces;

/// What the system side of a run is to do: how many steps it may make, how many records a chunk of the log has, which
/// thread is to step when, and what functions without a body answer.
#[derive(Drop)]
pub struct SysFile {
    pub budget: u64,
    pub chunk: u16,
    pub schedule: Schedule,
    pub answers: Answers,
}

/// One answer of the function with this number: its result, a 64-bit two's complement pattern, and the bytes that it
/// writes, one piece for each region. Contracts see the answers of a list as such.
#[derive(Drop)]
pub struct Scripted {
    pub func: u16,
    pub result: u64,
    pub pieces: Pieces,
}
