//! Why an operator makes nothing.

ghost use Rattle.std.specs.Prelude.{◌≡◌};

use std::alloc::AllocError;

/// Why an operator makes nothing of its operands.
#[derive(Drop)]
pub enum TypeError {
    /// The node at this offset breaks this rule.
    Rule(u32, u8),
    /// Also where a source would have 2^32 nodes or types or more, which no number names.
    Memory,
}

impl From<AllocError> for TypeError {
    ghost use Rattle.c_types_operators.specs.declared.error.TypeError.TheVariants.{Memory};

    ghost from_gives = { λ _ e. e ≡ Memory };

    fn from(error: AllocError) -> Self {
        let _ = error;
        TypeError::Memory
    }
}
