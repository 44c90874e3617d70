//! The numbers of constants.

ghost use Rattle.std.specs.Prelude.{◌≡◌, pos};

use std::marker::Model;

/// The value of a constant of any kind. Contracts see the number. An `i128` would align every node to 16 bytes.
#[derive(Drop)]
pub struct Number {
    below_zero: bool,
    // How far it is from 0, or from -1 where it is below 0.
    distance: u64,
}

impl Model for Number {
    ghost use Rattle.std.specs.Prelude.{ℤ};
    ghost use Rattle.c_types_nodes.specs.Numbers.{number_in};

    ghost Value = { ℤ };

    ghost view = { λ n. number_in n.below_zero n.distance };
}

impl Number {
    /// The number.
    pub fn value(&self) -> i128
        ensures { result ≡ self.now }
    {
        let distance = i128::from(self.distance);
        if self.below_zero {
            -1 - distance
        } else {
            distance
        }
    }
}

impl From<u64> for Number {
    ghost from_gives = { λ value n. n ≡ pos value };

    fn from(value: u64) -> Number {
        Number {
            below_zero: false,
            distance: value,
        }
    }
}

impl From<i8> for Number {
    ghost from_gives = { λ value n. n ≡ value };

    fn from(value: i8) -> Number {
        if value < 0 {
            Number {
                below_zero: true,
                distance: (-1 - value) as u64,
            }
        } else {
            Number {
                below_zero: false,
                distance: value as u64,
            }
        }
    }
}
