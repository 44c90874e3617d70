//! What a source says of mutexes.

ghost use Rattle.std.specs.Prelude.{◌≡◌};

use c_builtins::FIRST_SOURCE_FUNCTION;
use c_syntax::SharedSeq;
use std::marker::Model;

/// By place the mutex that guards a global, and by number those that the callers of a function hold.
#[derive(Drop)]
pub struct Guards {
    guards: Vec<Option<i64>>,
    holds: Vec<SharedSeq<i64>>,
}

impl Model for Guards {
    ghost use Rattle.lockset_check_values.specs.Sayings.{Sayings};

    ghost Value = { Sayings };

    ghost view = { λ g. record { guards = g.guards.items; holds = g.holds.items } };
}

impl Guards {
    ghost use Rattle.lockset_check_values.specs.Sayings.{guard_in, holds_in};

    /// Those of globals by place, and those of the functions of a source in their order.
    pub fn new(guards: Vec<Option<i64>>, holds: Vec<SharedSeq<i64>>) -> Guards
        ensures { result ≡ record { guards = guards.items; holds = holds.items } }
    {
        Guards { guards, holds }
    }

    /// The mutex that guards the global of this place, if one does.
    pub fn guard(&self, place: usize) -> Option<i64>
        ensures { result ≡ guard_in self.now place }
    {
        match self.guards.get(place) {
            Some(guard) => *guard,
            None => None,
        }
    }

    /// What the callers of functions hold, in the order of the source.
    pub(crate) fn listed(&self) -> &[SharedSeq<i64>]
        ensures { result.now ≡ self.now.holds }
    {
        self.holds.as_slice()
    }

    /// The mutexes that the callers of the function of this number hold.
    pub fn holds(&self, number: usize) -> &[i64]
        ensures { result.now ≡ holds_in self.now number }
    {
        let first = usize::from(FIRST_SOURCE_FUNCTION);
        if number < first {
            return &[];
        }
        match self.holds.get(number - first) {
            Some(mutexes) => mutexes.as_slice(),
            None => &[],
        }
    }
}
