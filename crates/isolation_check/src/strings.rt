//! Strings, one after another among the constants.

ghost use Rattle.std.specs.Prelude.{◌≡◌, ◌∷◌, [], ◌++◌, ◌+◌, ◌<◌, ◌^◌, length, map, IfOk};
ghost use Rattle.isolation_check_rules.specs.Addresses.{string_addresses, string_extent, strings_end};
ghost use Rattle.isolation_check_rules.specs.Places.{addresses_of, inits_of};
ghost use Rattle.isolation_check.specs.Literals.{ended, strings_in};

use c_lower_layout::Row;
use c_types_model::Extent;
use c_types_program::TextLiteral;
use memory_map::{Bytes8, CONSTANTS, Place};
use std::alloc::{AllocError, Global};

// Strings begin at multiples of this many bytes.
const ALIGNMENT: u64 = 16;

fn extent(text: &TextLiteral) -> Extent
    requires { length text.now.bytes + 1 < 2 ^ 64 }
    ensures { result ≡ string_extent text.now.bytes }
{
    Extent {
        size: text.bytes.as_slice().len() as u64 + 1,
        align: ALIGNMENT,
    }
}

/// Where strings lie, and where the last one ends. `AllocError` only where there is no memory.
pub(crate) fn string_row(alloc: Global, texts: &[TextLiteral]) -> Result<Row, AllocError>
    requires { strings_end (strings_in texts.now) < 2 ^ 64 }
    ensures offsets { IfOk result (λ r. r.offsets.items ≡ string_addresses (strings_in texts.now)) }
    ensures end { IfOk result (λ r. r.end ≡ strings_end (strings_in texts.now)) }
{
    let mut row = Row {
        offsets: Vec::new(alloc),
        end: CONSTANTS.addr,
    };
    for text in texts {
        row.add(extent(text))?;
    }
    Ok(row)
}

// The string at an address, with its zero.
fn string_place(alloc: Global, address: u64, text: &TextLiteral) -> Result<Place, AllocError>
    ensures address { IfOk result (λ o. o.addr ≡ address) }
    ensures bytes { IfOk result (λ o. o.init ≡ ended text.now.bytes) }
{
    let mut bytes = Vec::from_slice(alloc, text.bytes.as_slice())?;
    bytes.push(0)?;
    Ok(Place {
        addr: address,
        init: Bytes8::from(bytes),
    })
}

/// The strings at these addresses, each with its zero. `AllocError` only where there is no memory.
pub(crate) fn string_places(
    alloc: Global,
    addresses: &[u64],
    texts: &[TextLiteral],
) -> Result<Vec<Place>, AllocError>
    requires { length addresses.now ≡ length texts.now }
    ensures addresses { IfOk result (λ v. addresses_of v.items ≡ addresses.now) }
    ensures bytes { IfOk result (λ v. inits_of v.items ≡ map ended (strings_in texts.now)) }
{
    let mut places = Vec::with_capacity(alloc, texts.len())?;
    for i in 0..texts.len() {
        places.push(string_place(alloc, addresses[i], &texts[i])?)?;
    }
    Ok(places)
}
