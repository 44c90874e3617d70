//! Memory, as code of both sides has it.

ghost use Rattle.std.specs.Prelude.{◌≡◌, ◌+◌, ◌<◌, ◌^◌, true, unwrap_or, IfOk};
ghost use Rattle.marks.specs.Ranges.{are_bytes};
ghost use Rattle.recorder_state.specs.Inputs.{world_of};
ghost use Rattle.reference_recorder_targets.specs.Annotated.{AreOf};
ghost use Rattle.reference_recorder_call_events.specs.Memory.{IsRead, memory_of};

use recorder_state::Inputs;
use reference_recorder_marks::{Mark, Piece};
use reference_recorder_memory::{filled, real};
use reference_recorder_targets::Annotations;
use run_events::Bytes;
use std::alloc::{AllocError, Global};

/// The memory after marks of a run, which stand with the oldest first, in which the pieces of an answer stand.
#[derive(Clone, Copy)]
pub struct Memory<'a> {
    pub inputs: Inputs<'a>,
    pub marks: &'a [Mark],
    pub answer: &'a [Piece],
}

/// What is done at the calls of functions.
pub fn annotations(inputs: Inputs<'_>) -> Annotations<'_>
    ensures { AreOf (world_of inputs.entry) result }
{
    Annotations {
        code: inputs.code,
        stubs: inputs.stubs,
    }
}

/// So many bytes from the address on; 0 where none is there.
///
/// `AllocError` where there is no memory for them.
pub fn read(alloc: Global, memory: Memory<'_>, at: u64, count: u64) -> Result<Bytes, AllocError>
    ensures { IfOk result (IsRead (memory_of memory.entry) at count) }
{
    let mut bytes = Vec::new(alloc);
    for offset in 0..count {
        let byte = byte_after(memory, at, offset);
        bytes.push(byte)?;
    }
    check(&bytes);
    Ok(Bytes::from(bytes))
}

// The byte so far after the address.
fn byte_after(memory: Memory<'_>, at: u64, offset: u64) -> u8
    ensures { at + offset < 2 ^ 64 → result ≡ unwrap_or (memory_of memory.entry (at + offset)) 0 }
{
    match at.checked_add(offset) {
        Some(addr) => byte(memory, addr).unwrap_or(0),
        None => 0,
    }
}

// The byte at the address, if one is there.
fn byte(memory: Memory<'_>, addr: u64) -> Option<u8>
    ensures { result ≡ memory_of memory.entry addr }
{
    let before = real(memory.inputs.placed, memory.marks, addr);
    filled(memory.answer, addr, before)
}

// What is known of all bytes.
fn check(bytes: &[u8])
    ensures { are_bytes bytes.now ≡ true }
{}
