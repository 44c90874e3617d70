// Lists of one kind of item. Contracts see each as the list of its items. Each is made from a vector and gives it back
// without taking memory.
ghost use Rattle.std.specs.Prelude.{◌≡◌, [], ℕ, Bool, List};

use crate::Place;
use std::alloc::Global;
use std::marker::Model;

/// The bytes of an object.
#[derive(Drop)]
pub struct Bytes8 {
    items: Vec<u8>,
}

impl Model for Bytes8 {
    ghost Value = { List ℕ };

    ghost view = { λ l. l.items.items };
}

impl Bytes8 {
    /// The empty list.
    pub fn new(alloc: Global) -> Self
        ensures { result ≡ [] }
    {
        Bytes8 {
            items: Vec::new(alloc),
        }
    }

    /// The bytes, in order.
    pub fn as_slice(&self) -> &[u8]
        ensures { result.now ≡ self.now }
    {
        &self.items
    }

    /// The vector of the bytes.
    pub fn into_vec(self) -> Vec<u8>
        ensures { result.items ≡ self }
    {
        let Bytes8 { items } = self;
        items
    }
}

impl From<Vec<u8>> for Bytes8 {
    ghost from_gives = { λ v l. l ≡ v.items };

    fn from(items: Vec<u8>) -> Bytes8 {
        Bytes8 { items }
    }
}

/// Objects, in the order of the source.
#[derive(Drop)]
pub struct Places {
    items: Vec<Place>,
}

impl Model for Places {
    ghost use Rattle.std.specs.Prelude.{List};
    ghost use Rattle.memory_map.specs.declared.placed.Place.{Place};

    ghost Value = { List Place };

    ghost view = { λ l. l.items.items };
}

impl Places {
    /// The empty list.
    pub fn new(alloc: Global) -> Self
        ensures { result ≡ [] }
    {
        Places {
            items: Vec::new(alloc),
        }
    }

    /// The objects, in order.
    pub fn as_slice(&self) -> &[Place]
        ensures { result.now ≡ self.now }
    {
        &self.items
    }

    /// The vector of the objects.
    pub fn into_vec(self) -> Vec<Place>
        ensures { result.items ≡ self }
    {
        let Places { items } = self;
        items
    }
}

impl From<Vec<Place>> for Places {
    ghost from_gives = { λ v l. l ≡ v.items };

    fn from(items: Vec<Place>) -> Places {
        Places { items }
    }
}

/// One answer per function number.
#[derive(Drop)]
pub struct Flags {
    items: Vec<bool>,
}

impl Model for Flags {
    ghost Value = { List Bool };

    ghost view = { λ l. l.items.items };
}

impl Flags {
    /// The empty list.
    pub fn new(alloc: Global) -> Self
        ensures { result ≡ [] }
    {
        Flags {
            items: Vec::new(alloc),
        }
    }

    /// The answers, in order.
    pub fn as_slice(&self) -> &[bool]
        ensures { result.now ≡ self.now }
    {
        &self.items
    }

    /// The vector of the answers.
    pub fn into_vec(self) -> Vec<bool>
        ensures { result.items ≡ self }
    {
        let Flags { items } = self;
        items
    }
}

impl From<Vec<bool>> for Flags {
    ghost from_gives = { λ v l. l ≡ v.items };

    fn from(items: Vec<bool>) -> Flags {
        Flags { items }
    }
}
