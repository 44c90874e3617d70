//! Keys as tables know them.

ghost use Rattle.std.specs.Prelude.{◌≡◌};
ghost use Rattle.logical_clock.specs.Names.{name};

use run_events::Key;

/// A key, in 16 bytes: the number of its class, and its value.
#[derive(Clone, Copy, PartialEq, Eq, PartialOrd, Ord, Hash)]
pub struct KeyName {
    pub class: u8,
    pub value: u64,
}

/// The name of a key.
pub fn name_of(key: Key) -> KeyName
    ensures { result ≡ name key }
{
    KeyName {
        class: key.class.number(),
        value: key.value,
    }
}
