//! Lists of shapes. Contracts see one as the list of its items; it is made from a vector and gives it back without
//! taking memory.
ghost use Rattle.std.specs.Prelude.{◌≡◌, [], List};

use crate::shape::Shape;
use std::alloc::Global;
use std::marker::Model;

/// The types of parameters, in order.
#[derive(Drop)]
pub struct Shapes {
    items: Vec<Shape>,
}

impl Model for Shapes {
    ghost use Rattle.std.specs.Prelude.{List};
    ghost use Rattle.c_code.specs.declared.shape.Shape.{Shape};

    ghost Value = { List Shape };

    ghost view = { λ l. l.items.items };
}

impl Shapes {
    /// The empty list.
    pub fn new(alloc: Global) -> Self
        ensures { result ≡ [] }
    {
        Shapes {
            items: Vec::new(alloc),
        }
    }

    /// The types, in order.
    pub fn as_slice(&self) -> &[Shape]
        ensures { result.now ≡ self.now }
    {
        &self.items
    }

    /// The vector of the types.
    pub fn into_vec(self) -> Vec<Shape>
        ensures { result.items ≡ self }
    {
        let Shapes { items } = self;
        items
    }
}

impl From<Vec<Shape>> for Shapes {
    ghost from_gives = { λ v l. l ≡ v.items };

    fn from(items: Vec<Shape>) -> Shapes {
        Shapes { items }
    }
}
