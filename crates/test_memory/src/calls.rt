// The calls that a script may make.

use crate::answer::Answer;
use crate::error::LineError;
use crate::memory::Memory;
use crate::words::{Word, bytes_of, numbers_of};
use Word::{Number, Side, Write};
use memory_map::{Bytes8, Place, Range};
use std::alloc::Global;

/// Makes the call on the memory that a word names, with what stands after it. It is of no form where the word
/// names none, or what stands after it isn't what the call takes.
pub fn make(
    alloc: Global,
    memory: &mut Memory,
    name: &str,
    words: &[Word],
) -> Result<Answer, LineError> {
    match (name, words) {
        ("load", [Side(side), Number(thread), Number(addr), Number(width)]) => {
            Ok(memory.load(*side, *thread, *addr, *width))
        }
        (
            "store",
            [
                Side(side),
                Number(thread),
                Number(addr),
                Number(width),
                Number(value),
            ],
        ) => { Ok(memory.store(*side, *thread, *addr, *width, *value)) }
        ("cells", [Number(addr)]) => Ok(memory.cells(*addr)),
        ("alloc", [Side(side), Number(len)]) => Ok(memory.alloc_in(*side, *len)),
        ("free", [Side(side), Number(addr)]) => Ok(memory.free_in(*side, *addr)),
        ("block", [Side(side), Number(addr)]) => Ok(memory.block(*side, *addr)),
        ("enter", [Side(side), Number(thread), Number(size)]) => {
            Ok(memory.enter(*side, *thread, *size))
        }
        ("top", [Side(side), Number(thread)]) => Ok(memory.top(*side, *thread)),
        ("leave", [Side(side), Number(thread)]) => Ok(memory.leave(*side, *thread)),
        (
            "arg",
            [
                Side(side),
                Number(thread),
                Number(offset),
                Number(width),
                Number(value),
            ],
        ) => { Ok(memory.set_arg(*side, *thread, *offset, *width, *value)) }
        _ => make_for_call(alloc, memory, name, words),
    }
}

/// Makes a call that speaks of open calls and what they hold, or of objects.
fn make_for_call(
    alloc: Global,
    memory: &mut Memory,
    name: &str,
    words: &[Word],
) -> Result<Answer, LineError> {
    match (name, words) {
        ("open", [Number(thread)]) => Ok(memory.open(*thread)),
        ("undo", [Number(thread)]) => Ok(memory.undo(*thread)),
        ("hold", [Number(thread), Number(addr), Number(len), Write(write)]) => {
            let range = Range {
                addr: *addr,
                len: *len,
            };
            Ok(memory.hold(alloc, *thread, range, *write))
        }
        ("prepare", [Number(thread), Number(key), Number(addr), Number(len)]) => {
            let range = Range {
                addr: *addr,
                len: *len,
            };
            Ok(memory.prepare(alloc, *thread, *key, range))
        }
        ("prepared", [Number(key)]) => Ok(memory.prepared(*key)),
        ("release", [Number(thread), used @ ..]) => release(alloc, memory, *thread, used, None),
        ("commit", [Number(thread), Number(key), Number(size), used @ ..]) => {
            release(alloc, memory, *thread, used, Some((*key, *size)))
        }
        ("global", [Number(addr), bytes @ ..]) => place(alloc, memory, true, *addr, bytes),
        ("string", [Number(addr), bytes @ ..]) => place(alloc, memory, false, *addr, bytes),
        _ => make_for_bytes(alloc, memory, name, words),
    }
}

/// Makes a call on the bytes of a range, or one that asks whether another would be refused.
fn make_for_bytes(
    alloc: Global,
    memory: &mut Memory,
    name: &str,
    words: &[Word],
) -> Result<Answer, LineError> {
    match (name, words) {
        ("copy", [Side(side), Number(thread), Number(addr), Number(len)]) => {
            let range = Range {
                addr: *addr,
                len: *len,
            };
            Ok(memory.copy(alloc, *side, *thread, range))
        }
        ("write", [Side(side), Number(thread), Number(addr), bytes @ ..]) => {
            write(alloc, memory, *side, *thread, *addr, bytes)
        }
        ("row", [Number(addr)]) => Ok(memory.live_row(*addr)),
        ("may_enter", [Side(side), Number(thread), Number(size)]) => {
            Ok(memory.may_enter(*side, *thread, *size))
        }
        ("may_release", [Number(thread), used @ ..]) => {
            may_release(alloc, memory, *thread, used, None)
        }
        ("may_commit", [Number(thread), Number(key), Number(size), used @ ..]) => {
            may_release(alloc, memory, *thread, used, Some((*key, *size)))
        }
        ("filled", [Number(thread), Number(place), Number(size)]) => {
            Ok(memory.is_filled(*thread, *place, *size))
        }
        ("filled_key", [Number(key), Number(size)]) => {
            Ok(memory.is_committed_filled(*key, *size))
        }
        _ => Err(LineError::NoForm),
    }
}

fn may_release(
    alloc: Global,
    memory: &Memory,
    thread: u64,
    used: &[Word],
    commit: Option<(u64, u64)>,
) -> Result<Answer, LineError> {
    let used = numbers_of(alloc, used)?;
    Ok(memory.may_release(thread, used.as_slice(), commit))
}

fn write(
    alloc: Global,
    memory: &mut Memory,
    side: marks::Side,
    thread: u64,
    addr: u64,
    bytes: &[Word],
) -> Result<Answer, LineError> {
    let bytes = bytes_of(alloc, bytes)?;
    Ok(memory.write(side, thread, addr, bytes.as_slice()))
}

fn release(
    alloc: Global,
    memory: &mut Memory,
    thread: u64,
    used: &[Word],
    commit: Option<(u64, u64)>,
) -> Result<Answer, LineError> {
    let used = numbers_of(alloc, used)?;
    Ok(memory.release(thread, used.as_slice(), commit))
}

fn place(
    alloc: Global,
    memory: &mut Memory,
    is_global: bool,
    addr: u64,
    bytes: &[Word],
) -> Result<Answer, LineError> {
    let init = Bytes8::from(bytes_of(alloc, bytes)?);
    Ok(memory.place(alloc, is_global, Place { addr, init })?)
}
