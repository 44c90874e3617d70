// A list inside a node.

ghost use Rattle.std.specs.Prelude.{◌≡◌, List};

use std::marker::Model;

/// What a node holds several of, in the order of the source. Contracts see it as a list.
#[derive(Drop)]
pub struct Seq<T> {
    items: Vec<T>,
}

impl<T> Model for Seq<T> {
    ghost Value = { List T };

    ghost view = { λ s. s.items.items };
}

impl<T> From<Vec<T>> for Seq<T> {
    ghost from_gives = { λ v s. s ≡ v.items };

    fn from(items: Vec<T>) -> Self {
        Seq { items }
    }
}

impl<T> Seq<T> {
    /// Its items.
    pub fn as_slice(&self) -> &[T]
        ensures items { result.now ≡ self.now }
    {
        self.items.as_slice()
    }

    /// Its items as the `Vec` that it was made from.
    pub fn into_vec(self) -> Vec<T>
        ensures items { result.items ≡ self }
    {
        self.items
    }
}
