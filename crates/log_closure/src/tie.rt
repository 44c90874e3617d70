//! Keys with their tickets, as the tables of the check hold them.

ghost use Rattle.std.specs.Prelude.{◌≡◌, ◌<◌};
ghost use Rattle.log_closure.specs.Ties.{key_tie, earlier};
ghost use Rattle.log_closure.specs.Tables.{tie_key};

use run_events::KeyMark;

/// A key with a ticket, in 16 bytes: the number of the key's class, its value, and the ticket.
#[derive(Clone, Copy, PartialEq, Eq, PartialOrd, Ord)]
pub struct Tie {
    pub class: u8,
    pub value: u64,
    pub number: u32,
}

/// A key, in 16 bytes: the number of its class, and its value.
#[derive(Clone, Copy, PartialEq, Eq, PartialOrd, Ord)]
pub struct TieKey {
    pub class: u8,
    pub value: u64,
}

pub fn key_of(mark: &KeyMark) -> TieKey
    ensures { result ≡ tie_key (key_tie mark.now) }
{
    TieKey {
        class: mark.key.class.number(),
        value: mark.key.value,
    }
}

pub fn tie_of(mark: &KeyMark) -> Tie
    ensures { result ≡ key_tie mark.now }
{
    Tie {
        class: mark.key.class.number(),
        value: mark.key.value,
        number: mark.ticket,
    }
}

/// The key with the ticket before.
pub fn tie_before(mark: &KeyMark) -> Tie
    requires { 0 < mark.now.ticket }
    ensures { result ≡ earlier (key_tie mark.now) }
{
    Tie {
        class: mark.key.class.number(),
        value: mark.key.value,
        number: mark.ticket - 1,
    }
}
