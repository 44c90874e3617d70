// The events of a run.

use crate::words::{bytes_of, count, number, numbers_of, words_of};
use c_builtins::FIRST_SOURCE_FUNCTION;
use c_code::Code;
use call_inspector::{Records, Threads};
use run_events::{Bytes, Event, Marks, Pieces, Reason, Record, Words};
use std::alloc::{AllocError, Global};

/// The events so far, by thread, and the thread of those that follow.
#[derive(Drop)]
pub struct Events {
    threads: Vec<Vec<Record>>,
    thread: u8,
}

/// The number of the function that has the name, or that the word is.
fn func_of(code: &Code, word: &str) -> Option<u16> {
    if let Ok(number) = word.parse::<u16>() {
        return Some(number);
    }
    for number in 0..u16::MAX {
        match code.func(number) {
            Some(info) if info.name.as_slice() == word.as_bytes() => return Some(number),
            None if number >= FIRST_SOURCE_FUNCTION => return None,
            _ => {}
        }
    }
    None
}

/// A call or callback of the function that the first word names: its number and the arguments.
fn call_of(alloc: Global, code: &Code, words: &[&str]) -> Result<Option<(u16, Words)>, AllocError> {
    let [name, args @ ..] = words else {
        return Ok(None);
    };
    let Some(func) = func_of(code, *name) else {
        return Ok(None);
    };
    let Some(args) = numbers_of(alloc, args)? else {
        return Ok(None);
    };
    let args = Words::from_slice(alloc, &args)?;
    Ok(Some((func, args)))
}

/// The pieces of a return.
fn pieces_of(alloc: Global, words: &[&str]) -> Result<Option<Pieces>, AllocError> {
    let mut pieces = Vec::new(alloc);
    for word in words {
        let Some(bytes) = bytes_of(alloc, *word)? else {
            return Ok(None);
        };
        pieces.push(Bytes::from(bytes))?;
    }
    let pieces = Pieces::from_vec(alloc, pieces)?;
    Ok(Some(pieces))
}

/// A return: whether it repeats the one before, its result, and its pieces.
fn return_of(alloc: Global, same: bool, words: &[&str]) -> Result<Option<Event>, AllocError> {
    let [result, pieces @ ..] = words else {
        return Ok(None);
    };
    let Some(result) = number(*result) else {
        return Ok(None);
    };
    let Some(outs) = pieces_of(alloc, pieces)? else {
        return Ok(None);
    };
    Ok(Some(Event::Ret { same, result, outs }))
}

/// An event without lists.
fn plain_event_of(kind: &str, words: &[&str]) -> Option<Event> {
    match (kind, words) {
        ("upret", [result]) => {
            let result = number(*result)?;
            Some(Event::UpRet { result })
        }
        ("alloc", [size, addr]) => {
            let size = number(*size)?;
            let addr = number(*addr)?;
            Some(Event::Alloc { size, addr })
        }
        ("free", [addr]) => {
            let addr = number(*addr)?;
            Some(Event::Free { addr })
        }
        ("stop", ["halted"]) => Some(Event::Stop {
            reason: Reason::Halted,
        }),
        ("stop", [fault]) => {
            let fault = fault.parse::<u8>().ok()?;
            Some(Event::Stop {
                reason: Reason::Fault(fault),
            })
        }
        _ => None,
    }
}

/// The event of a kind that has these words.
fn event_of(
    alloc: Global,
    code: &Code,
    kind: &str,
    words: &[&str],
) -> Result<Option<Event>, AllocError> {
    match kind {
        "call" => match call_of(alloc, code, words)? {
            Some((func, args)) => Ok(Some(Event::Call { func, args })),
            None => Ok(None),
        },
        "up" => match call_of(alloc, code, words)? {
            Some((func, args)) => Ok(Some(Event::Up { func, args })),
            None => Ok(None),
        },
        "ret" => return_of(alloc, false, words),
        "same" => return_of(alloc, true, words),
        _ => Ok(plain_event_of(kind, words)),
    }
}

impl Events {
    /// No events; those that follow are thread 0's.
    pub fn new(alloc: Global) -> Events {
        Events {
            threads: Vec::new(alloc),
            thread: 0,
        }
    }

    /// The events that follow are those of the thread; false where no thread has the number.
    pub fn turn_to(&mut self, word: &str) -> bool {
        match word.parse::<u8>() {
            Ok(thread) => {
                self.thread = thread;
                true
            }
            Err(_) => false,
        }
    }

    /// Adds an event of the thread.
    fn add(&mut self, alloc: Global, record: Record) -> Result<(), AllocError> {
        let thread = usize::from(self.thread);
        for _ in self.threads.len()..thread + 1 {
            self.threads.push(Vec::new(alloc))?;
        }
        if let Some(records) = self.threads.get_mut(thread) {
            records.push(record)?;
        }
        Ok(())
    }

    /// Takes an event of a kind: its clock, its steps and what it has besides. False where it is of no form.
    pub fn take(
        &mut self,
        alloc: Global,
        code: &Code,
        kind: &str,
        text: &str,
    ) -> Result<bool, AllocError> {
        let words = words_of(alloc, text)?;
        let [clock, steps, rest @ ..] = words.as_slice() else {
            return Ok(false);
        };
        let (Some(clock), Some(steps)) = (count(*clock), count(*steps)) else {
            return Ok(false);
        };
        let Some(event) = event_of(alloc, code, kind, rest)? else {
            return Ok(false);
        };
        let record = Record {
            thread: self.thread,
            steps,
            clock,
            keys: Marks::new(),
            event,
        };
        self.add(alloc, record)?;
        Ok(true)
    }

    /// The events as a run has them.
    pub fn finish(self, alloc: Global) -> Result<Threads, AllocError> {
        let mut threads = Vec::new(alloc);
        for records in self.threads {
            threads.push(Records::from(records))?;
        }
        Ok(Threads::from(threads))
    }
}
