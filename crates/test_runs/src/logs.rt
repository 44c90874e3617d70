//! Logs, spelled byte by byte.

use std::alloc::{AllocError, Global};

/// The log of `int a = 2; int b = 3; int main(void) { return a + b; }`.
pub const SUM: [u8; 72] = [
    0x52, 0x32, 0x4c, 0x4f, 0x47, 0x01, 0x43, 0x00, 0x00, 0x02, 0x03, 0x00, 0x00, 0x00, 0x00, 0x00,
    0x00, 0x00, 0x01, 0x01, 0x03, 0x00, 0x00, 0x00, 0x00, 0x00, 0x00, 0x00, 0x10, 0x00, 0x00, 0x00,
    0x00, 0x00, 0x10, 0x00, 0x04, 0x00, 0x00, 0x00, 0x04, 0x00, 0x00, 0x00, 0x02, 0x01, 0x04, 0x00,
    0x00, 0x00, 0x00, 0x00, 0x00, 0x00, 0x00, 0x00, 0x00, 0x00, 0x00, 0x00, 0x00, 0x00, 0x00, 0x00,
    0x00, 0x00, 0x05, 0x45, 0x00, 0x00, 0x00, 0x02,
];

/// What each log begins with.
const HEAD: [u8; 6] = [0x52, 0x32, 0x4c, 0x4f, 0x47, 0x01];

const CALL: u8 = 1;

const RET: u8 = 2;

const UP: u8 = 3;

const UPRET: u8 = 4;

const MUTEX: u8 = 1;

const CALLBACK: u8 = 3;

const THREAD: u8 = 4;

/// A record: its kind, steps, clock, keys (class, value, ticket), function and words.
type Record = (u8, u32, u32, &'static [(u8, u64, u32)], u16, &'static [u64]);

/// The records of thread 0 of a program whose main thread spawns two that lock one mutex, and joins them.
const THREAD_0: [Record; 10] = [
    (UP, 0, 1, &[(CALLBACK, 17, 0)], 17, &[]),
    (CALL, 1, 2, &[(CALLBACK, 16, 0)], 2, &[0x1100, 0]),
    (RET, 0, 3, &[], 0, &[1]),
    (CALL, 1, 4, &[(CALLBACK, 16, 2)], 2, &[0x1100, 0]),
    (RET, 0, 5, &[], 0, &[2]),
    (CALL, 2, 6, &[], 3, &[1]),
    (RET, 0, 9, &[(THREAD, 1, 1)], 0, &[0]),
    (CALL, 1, 10, &[], 3, &[2]),
    (RET, 0, 11, &[(THREAD, 2, 1)], 0, &[0]),
    (UPRET, 1, 12, &[(THREAD, 0, 0)], 0, &[0]),
];

/// The records of thread 1 of that program.
const THREAD_1: [Record; 6] = [
    (UP, 0, 3, &[(CALLBACK, 16, 1)], 16, &[0]),
    (CALL, 1, 4, &[], 4, &[0]),
    (RET, 0, 5, &[(MUTEX, 0, 0)], 0, &[0]),
    (CALL, 2, 6, &[(MUTEX, 0, 1)], 5, &[0]),
    (RET, 0, 7, &[], 0, &[0]),
    (UPRET, 1, 8, &[(THREAD, 1, 0)], 0, &[0]),
];

/// The records of thread 2 of that program.
const THREAD_2: [Record; 6] = [
    (UP, 0, 5, &[(CALLBACK, 16, 3)], 16, &[0]),
    (CALL, 1, 6, &[], 4, &[0]),
    (RET, 0, 7, &[(MUTEX, 0, 2)], 0, &[0]),
    (CALL, 2, 8, &[(MUTEX, 0, 3)], 5, &[0]),
    (RET, 0, 9, &[], 0, &[0]),
    (UPRET, 1, 10, &[(THREAD, 2, 0)], 0, &[0]),
];

fn put_words(log: &mut Vec<u8>, words: &[u64]) -> Result<(), AllocError> {
    for word in words {
        log.extend_from_slice(&word.to_be_bytes())?;
    }
    Ok(())
}

fn put_keys(log: &mut Vec<u8>, keys: &[(u8, u64, u32)]) -> Result<(), AllocError> {
    log.push(u8::try_from(keys.len()).unwrap_or(u8::MAX))?;
    for (class, value, ticket) in keys {
        log.push(*class)?;
        log.extend_from_slice(&value.to_be_bytes())?;
        log.extend_from_slice(&ticket.to_be_bytes())?;
    }
    Ok(())
}

fn put_record(log: &mut Vec<u8>, record: Record) -> Result<(), AllocError> {
    let (kind, steps, clock, keys, func, words) = record;
    log.push(kind)?;
    log.extend_from_slice(&steps.to_be_bytes())?;
    log.extend_from_slice(&clock.to_be_bytes())?;
    put_keys(log, keys)?;
    match kind {
        RET => {
            log.push(0)?;
            put_words(log, words)?;
            log.push(0)?;
        }
        UPRET => put_words(log, words)?,
        _ => {
            log.extend_from_slice(&func.to_be_bytes())?;
            log.push(u8::try_from(words.len()).unwrap_or(u8::MAX))?;
            put_words(log, words)?;
        }
    }
    Ok(())
}

fn put_chunk(log: &mut Vec<u8>, thread: u8, records: &[Record]) -> Result<(), AllocError> {
    log.extend_from_slice(&[b'C', thread])?;
    log.extend_from_slice(
        &u16::try_from(records.len())
            .unwrap_or(u16::MAX)
            .to_be_bytes(),
    )?;
    for record in records {
        put_record(log, *record)?;
    }
    Ok(())
}

/// The log of the program with two threads, of 658 bytes.
pub fn two_threads(alloc: Global) -> Result<Vec<u8>, AllocError> {
    let mut log = Vec::from_slice(alloc, &HEAD)?;
    put_chunk(&mut log, 0, &THREAD_0)?;
    put_chunk(&mut log, 1, &THREAD_1)?;
    put_chunk(&mut log, 2, &THREAD_2)?;
    log.extend_from_slice(&[b'E', 0, 0, 0, 22])?;
    Ok(log)
}
