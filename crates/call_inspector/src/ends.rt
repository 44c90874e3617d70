//! How a run ended, as its events show it.

ghost use Rattle.std.specs.Prelude.{◌≡◌, ◌++◌, ◌&&◌, true, None, slice_get, OnOk};
ghost use Rattle.std.specs.List.{list_any};
ghost use Rattle.std.specs.Option.{option_copied};
ghost use Rattle.call_inspector.specs.Ending.{fault_of_reason, fault_of, fault_in, or_else, is_up, has_up, spawned, has_begun, ending_or, ending_text};

use crate::crossings::Crossings;
use crate::events::fault_word;
use c_builtins::Builtin;
use call_inspector_run::Records;
use r2_base::put_dec;
use run_events::{Event, Reason, Record};
use std::alloc::AllocError;

/// How a run ended, as its report shows it.
#[derive(Clone, Copy)]
pub enum Shown {
    /// A thread met the fault with this number, 1 to 6.
    Fault { kind: u8, thread: usize },
    /// Every thread that the events tell of has ended.
    Done,
    /// The run ended before that.
    Halted,
}

fn fault_of_reason(reason: Reason) -> Option<u8>
    ensures { result ≡ fault_of_reason reason }
{
    match reason {
        Reason::Halted => None,
        Reason::Fault(kind) => Some(kind),
    }
}

/// The number of the fault at which the event stops its thread.
fn fault_of(event: &Event) -> Option<u8>
    ensures { result ≡ fault_of event.now }
{
    match event {
        Event::Stop { reason } => fault_of_reason(*reason),
        _ => None,
    }
}

fn is_up(event: &Event) -> bool
    ensures { result ≡ is_up event.now }
{
    match event {
        Event::Up { .. } => true,
        _ => false,
    }
}

/// Whether one of the events is an Up. A thread begins with it, so that it is found at once.
fn any_up(records: &[Record]) -> bool
    ensures { result ≡ list_any (λ r. is_up r.event) records.now }
{
    for record in records {
        if is_up(&record.event) {
            return true;
        }
    }
    false
}

/// Whether the thread is there and has an Up.
fn has_up(records: Option<&Records>) -> bool
    ensures { result ≡ has_up (option_copied records.entry) }
{
    match records {
        Some(records) => any_up(records.as_slice()),
        None => false,
    }
}

/// The thread that the event gave, where these calls and callbacks are open.
fn spawned(active: &Crossings, event: &Event) -> Option<u64>
    ensures { result ≡ spawned active.now event.now }
{
    let Event::Ret { result, .. } = event else {
        return None;
    };
    let Some(func) = active.innermost() else {
        return None;
    };
    if func == Builtin::Spawn.number() && *result < 1 << 63 {
        Some(*result)
    } else {
        None
    }
}

/// Whether the thread that was given has an Up.
fn has_begun(threads: &[Records], thread: Option<u64>) -> bool
    ensures { result ≡ has_begun threads.now thread }
{
    match thread {
        None => true,
        Some(thread) => has_up(threads.get(thread as usize)),
    }
}

/// What the events of a thread so far say of how the run ended.
#[derive(Clone, Copy)]
pub struct ThreadEnd {
    /// The number of the fault of the first of them that has one.
    pub fault: Option<u8>,
    /// Whether each thread that they gave has an Up.
    pub begun: bool,
}

impl ThreadEnd {
    /// Before its first event.
    pub fn new() -> ThreadEnd
        ensures { result ≡ record { fault = None; begun = true } }
    {
        ThreadEnd {
            fault: None,
            begun: true,
        }
    }

    /// One more event, where these calls and callbacks are open.
    #[inline(always)]
    pub fn pass(&mut self, threads: &[Records], active: &Crossings, event: &Event)
        ensures fault { self.new.fault ≡ or_else self.old.fault (fault_of event.now) }
        ensures begun { self.new.begun ≡
            (self.old.begun && has_begun threads.now (spawned active.now event.now)) }
    {
        if self.fault.is_none() {
            self.fault = fault_of(event);
        }
        if self.begun {
            self.begun = has_begun(threads, spawned(active, event));
        }
    }
}

/// What the threads so far say of how the run ended.
#[derive(Clone, Copy)]
pub struct RunEnd {
    /// The fault of the first of them that has one.
    pub fault: Option<Shown>,
    /// Whether each of them is over: the threads that it gave have an Up each, and each of its calls and callbacks has returned.
    pub over: bool,
}

impl RunEnd {
    /// Before the first thread.
    pub fn new() -> RunEnd
        ensures { result ≡ record { fault = None; over = true } }
    {
        RunEnd {
            fault: None,
            over: true,
        }
    }

    /// One more thread, with this number.
    pub fn pass(&mut self, thread: usize, fault: Option<u8>, over: bool)
        ensures fault { self.new.fault ≡ or_else self.old.fault (fault_in thread fault) }
        ensures over { self.new.over ≡ (self.old.over && over) }
    {
        if self.fault.is_none() {
            self.fault = fault_in(thread, fault);
        }
        self.over = self.over && over;
    }

    /// How the run ended, where these are all threads: with a fault where one has one; done where thread 0 has begun and each
    /// thread is over; else halted.
    pub fn shown(self, threads: &[Records]) -> Shown
        ensures { result ≡ ending_or self.fault (has_up (slice_get threads.now 0) && self.over) }
    {
        match self.fault {
            Some(fault) => fault,
            None => {
                if has_up(threads.get(0)) && self.over {
                    Shown::Done
                } else {
                    Shown::Halted
                }
            }
        }
    }
}

fn fault_in(thread: usize, fault: Option<u8>) -> Option<Shown>
    ensures { result ≡ fault_in thread fault }
{
    match fault {
        Some(kind) => Some(Shown::Fault { kind, thread }),
        None => None,
    }
}

/// Adds the ending.
pub fn put_ending(text: &mut Vec<u8>, shown: Shown) -> Result<(), AllocError>
    ensures { OnOk result (text.new.items ≡ text.old.items ++ ending_text shown) }
{
    match shown {
        Shown::Fault { kind, thread } => {
            text.extend_from_slice(b"fault ")?;
            text.extend_from_slice(fault_word(kind).as_bytes())?;
            text.extend_from_slice(b" thread ")?;
            put_dec(text, thread as i128)
        }
        Shown::Done => text.extend_from_slice(b"done"),
        Shown::Halted => text.extend_from_slice(b"halted"),
    }
}
