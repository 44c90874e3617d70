//! Keys with their tickets.

ghost use Rattle.std.specs.Prelude.{◌≡◌, ◌<◌, ◌^◌, length, map, All, IfOk};
ghost use Rattle.std.specs.List.{AllByRecursion};
ghost use Rattle.run_events.specs.Tickets.{HasWord, with_ticket, with_tickets};

use crate::key::{Class, Key, KeyMark};
use std::alloc::{AllocError, Global};

/// The key with the ticket 0.
pub fn blank_mark(class: Class, value: u64) -> KeyMark
    ensures mark { result ≡ with_ticket 0 (record { class = class; value = value }) }
    ensures word { HasWord result }
{
    KeyMark {
        key: Key { class, value },
        ticket: 0,
    }
}

/// The keys, each with the ticket 0.
pub fn blank_marks(alloc: Global, keys: &[Key]) -> Result<Vec<KeyMark>, AllocError>
    ensures keys { IfOk result (λ marks. marks.items ≡ map (with_ticket 0) keys.now) }
    ensures words { IfOk result (λ marks. AllByRecursion HasWord marks.items) }
{
    let mut marks = Vec::with_capacity(alloc, keys.len())?;
    for key in keys {
        marks.push(blank_mark(key.class, key.value))?;
    }
    Ok(marks)
}

/// Gives each of the marks its ticket.
pub fn write_tickets(marks: &mut [KeyMark], tickets: &[u64])
    requires count { length tickets.now ≡ length marks.old }
    requires small { All (λ n. n < 2 ^ 32) tickets.now }
    ensures { marks.new ≡ with_tickets marks.old tickets.now }
{
    for i in 0..marks.len() {
        marks[i].ticket = tickets[i] as u32;
    }
}
