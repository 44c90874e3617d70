//! Where statements stand.

ghost use Rattle.std.specs.Prelude.{◌≡◌, true};

use c_types_table::TypeId;

/// Where a statement stands: in a function that gives values of this type, or nothing, and in a loop or not.
#[derive(Clone, Copy)]
pub struct Surroundings {
    pub result: TypeId,
    pub in_loop: bool,
}

impl Surroundings {
    /// The same in a loop.
    pub fn looping(self) -> Surroundings
        ensures { result ≡ record self { in_loop = true } }
    {
        Surroundings {
            in_loop: true,
            ..self
        }
    }
}
