//! What scalars have before a run.

ghost use Rattle.std.specs.Prelude.{◌≡◌, slice_get, unwrap_or};
ghost use Rattle.marks.specs.Places.{function_address};
ghost use Rattle.c_semantics.specs.Context.{Source};
ghost use Rattle.c_types_program.specs.Declarations.{known_in};
ghost use Rattle.isolation_check_rules.specs.Images.{known_value};
ghost use Rattle.isolation_check_images.specs.Given.{IsSource};

use c_lower_layout::Index;
use c_types_program::Known;
use r2_num::{IntKind, pattern};

/// A program, and where its strings and globals lie, each in the order of the source.
#[derive(Clone, Copy)]
pub struct Addresses<'a> {
    pub index: &'a Index<'a>,
    pub strings: &'a [u64],
    pub globals: &'a [u64],
}

// The address at a place; 0 where there is none.
fn address_at(addresses: &[u64], place: u32) -> u64
    ensures { result ≡ unwrap_or (slice_get addresses.now place) 0 }
{
    addresses.get(place as usize).copied().unwrap_or(0)
}

// The value of a pointer to the function of a number.
fn pointer_to(number: u32) -> u64
    ensures { result ≡ function_address number }
{
    0x1000 + 16 * u64::from(number)
}

impl Addresses<'_> {
    // The value of a scalar.
    pub(crate) fn value(self, known: Known) -> u64
        ensures { (s : Source) →
            IsSource self.entry.index.now self.entry.strings.now self.entry.globals.now s →
            result ≡ known_value s (known_in known) }
    {
        match known {
            Known::Number(number) => pattern(IntKind::U64, number),
            Known::AddressOfText(from) => address_at(self.strings, self.index.order_of(from)),
            Known::AddressOfGlobal(place) => address_at(self.globals, place),
            Known::AddressOfFunction { number, .. } => pointer_to(number),
        }
    }
}
