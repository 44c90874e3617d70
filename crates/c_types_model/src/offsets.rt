// A list of offsets. Contracts see it as the list of numbers.

ghost use Rattle.std.specs.Prelude.{◌≡◌, ℕ, List};

use std::marker::Model;

/// Where the members of a struct lie, in bytes from its beginning, in their order.
#[derive(Drop)]
pub struct Offsets {
    items: Vec<u64>,
}

impl Model for Offsets {
    ghost Value = { List ℕ };

    ghost view = { λ l. l.items.items };
}

impl Offsets {
    /// The offsets, in order.
    pub fn as_slice(&self) -> &[u64]
        ensures { result.now ≡ self.now }
    {
        &self.items
    }

    /// The offsets as the vector that they were made of.
    pub fn into_vec(self) -> Vec<u64>
        ensures { result.items ≡ self }
    {
        let Offsets { items } = self;
        items
    }
}

impl From<Vec<u64>> for Offsets {
    ghost from_gives = { λ v l. l ≡ v.items };

    fn from(items: Vec<u64>) -> Offsets {
        Offsets { items }
    }
}
