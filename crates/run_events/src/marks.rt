//! The keys of an event.

ghost use Rattle.std.specs.Prelude.{◌≡◌, ◌<◌, ◌^◌, ◌∷◌, [], All, IfOk, length, map};
ghost use Rattle.std.specs.List.{AllByRecursion};
ghost use Rattle.run_events.specs.Tickets.{HasWord, with_ticket, with_tickets};

use crate::key::{Class, Key, KeyMark};
use crate::tickets::{blank_mark, blank_marks, write_tickets};
use std::alloc::{AllocError, Global};
use std::marker::Model;

/// How keys lie in 16 bytes: one in the value itself, more in a vector in a block.
#[derive(Drop)]
enum PackedMarks {
    Empty,
    One {
        class: Class,
        ticket: u32,
        value: u64,
    },
    More(Box<Vec<KeyMark>>),
}

/// The keys of an event, each with its ticket. Up to one takes no memory besides the list itself.
#[derive(Drop)]
pub struct Marks {
    items: PackedMarks,
}

impl Model for Marks {
    ghost use Rattle.std.specs.Prelude.{List};
    ghost use Rattle.run_events.specs.declared.key.KeyMark.{KeyMark};

    ghost Value = { List KeyMark };

    ghost use Rattle.run_events.specs.Marks.{marks_of};

    ghost view = { λ l. marks_of l.items };
}

impl Marks {
    /// The empty list.
    pub fn new() -> Self
        ensures { result ≡ [] }
    {
        Marks {
            items: PackedMarks::Empty,
        }
    }

    /// The list of one key.
    pub fn one(mark: KeyMark) -> Self
        ensures { result ≡ mark ∷ [] }
    {
        let KeyMark { key, ticket } = mark;
        Marks {
            items: PackedMarks::One {
                class: key.class,
                ticket,
                value: key.value,
            },
        }
    }

    /// These keys, each with the ticket 0. `AllocError` where there is no memory.
    pub fn from_keys(alloc: Global, keys: &[Key]) -> Result<Self, AllocError>
        ensures keys { IfOk result (λ marks. marks ≡ map (with_ticket 0) keys.now) }
        ensures words { IfOk result (AllByRecursion HasWord) }
    {
        match *keys {
            [] => Ok(Marks::new()),
            [only] => Ok(Marks::one(blank_mark(only.class, only.value))),
            _ => {
                let marks = blank_marks(alloc, keys)?;
                let items = PackedMarks::More(Box::new(alloc, marks)?);
                Ok(Marks { items })
            }
        }
    }

    /// These keys. `AllocError` where there is no memory.
    pub fn from_vec(alloc: Global, keys: Vec<KeyMark>) -> Result<Self, AllocError>
        ensures { IfOk result (λ marks. marks ≡ keys.items) }
    {
        match *keys.as_slice() {
            [] => Ok(Marks::new()),
            [only] => Ok(Marks::one(only)),
            _ => {
                let items = PackedMarks::More(Box::new(alloc, keys)?);
                Ok(Marks { items })
            }
        }
    }

    /// Gives each of the keys its ticket.
    pub fn set_tickets(&mut self, tickets: &[u64])
        requires count { length tickets.now ≡ length self.old }
        requires small { All (λ n. n < 2 ^ 32) tickets.now }
        ensures { self.new ≡ with_tickets self.old tickets.now }
    {
        match &mut self.items {
            PackedMarks::Empty => {}
            PackedMarks::One { ticket, .. } => *ticket = tickets[0] as u32,
            PackedMarks::More(many) => write_tickets(many, tickets),
        }
    }

    /// How many keys there are.
    pub fn len(&self) -> usize
        ensures { result ≡ length self.now }
    {
        match &self.items {
            PackedMarks::Empty => 0,
            PackedMarks::One { .. } => 1,
            PackedMarks::More(many) => many.len(),
        }
    }

    /// The keys as a slice can be taken of them.
    #[inline]
    pub fn unpacked(&self) -> UnpackedMarks<'_>
        ensures { result ≡ self.now }
    {
        let items = match &self.items {
            PackedMarks::Empty => Unpacked::More(&[]),
            PackedMarks::One {
                class,
                ticket,
                value,
            } => Unpacked::One([KeyMark {
                key: Key {
                    class: *class,
                    value: *value,
                },
                ticket: *ticket,
            }]),
            PackedMarks::More(many) => Unpacked::More(many.as_slice()),
        };
        UnpackedMarks { items }
    }
}

/// Keys as a slice can be taken of them.
#[derive(Clone, Copy)]
enum Unpacked<'a> {
    One([KeyMark; 1]),
    More(&'a [KeyMark]),
}

/// The keys of an event as a slice can be taken of them.
#[derive(Drop)]
pub struct UnpackedMarks<'a> {
    items: Unpacked<'a>,
}

impl<'a> Model for UnpackedMarks<'a> {
    ghost use Rattle.std.specs.Prelude.{List};
    ghost use Rattle.run_events.specs.declared.key.KeyMark.{KeyMark};

    ghost Value = { List KeyMark };

    ghost use Rattle.run_events.specs.Marks.{unpacked_marks};

    ghost view = { λ l. unpacked_marks l.items };
}

impl<'a> UnpackedMarks<'a> {
    /// No keys.
    pub fn none() -> Self
        ensures { result ≡ [] }
    {
        UnpackedMarks {
            items: Unpacked::More(&[]),
        }
    }

    /// The keys, in order.
    #[inline]
    pub fn as_slice(&self) -> &[KeyMark]
        ensures { result.now ≡ self.now }
    {
        match &self.items {
            Unpacked::One(only) => only,
            Unpacked::More(many) => many,
        }
    }
}
