//! Globals, at their addresses.

ghost use Rattle.std.specs.Prelude.{◌≡◌, ◌<◌, length, map, option_map, IfOk};
ghost use Rattle.c_types_table.specs.Tables.{type_at};
ghost use Rattle.c_types_program.specs.Declarations.{global_in, initial_in};
ghost use Rattle.c_semantics.specs.Context.{Source};
ghost use Rattle.isolation_check_rules.specs.Images.{global_image};
ghost use Rattle.isolation_check_rules.specs.Places.{addresses_of, inits, inits_of};
ghost use Rattle.isolation_check_images.specs.Given.{HasPlaces, IsSource};
ghost use Rattle.isolation_check.specs.Rows.{AreGlobalsBelow};

use c_types_model::Extent;
use c_types_program::Global as GlobalObject;
use isolation_check_images::Addresses;
use memory_map::{Bytes8, Place};
use std::alloc::{AllocError, Global};

// A global of this size at an address, with its bytes.
fn global_place(
    alloc: Global,
    images: Addresses<'_>,
    address: u64,
    size: u64,
    global: &GlobalObject,
) -> Result<Place, AllocError>
    requires inside { global.now.ty.0 < length images.index.now.table.types }
    requires places { HasPlaces images.index.now }
    ensures address { IfOk result (λ o. o.addr ≡ address) }
    ensures bytes { (s : Source) →
        IsSource images.entry.index.now images.entry.strings.now images.entry.globals.now s →
        IfOk result (λ o. o.init ≡ global_image s size (option_map initial_in global.now.value)
        (type_at images.entry.index.now.table.types global.now.ty)) }
{
    let bytes = images.global_image(alloc, size, &global.value, global.ty)?;
    Ok(Place {
        addr: address,
        init: Bytes8::from(bytes),
    })
}

/// Globals of these sizes at their addresses, with their bytes. `AllocError` only where there is no memory.
pub(crate) fn global_places(
    alloc: Global,
    images: Addresses<'_>,
    extents: &[Extent],
    globals: &[GlobalObject],
) -> Result<Vec<Place>, AllocError>
    requires inside { AreGlobalsBelow (length images.index.now.table.types) globals.now }
    requires places { HasPlaces images.index.now }
    requires addresses { length images.globals.now ≡ length globals.now }
    requires extents { length extents.now ≡ length globals.now }
    ensures addresses { IfOk result (λ v. addresses_of v.items ≡ images.entry.globals.now) }
    ensures bytes { (s : Source) →
        IsSource images.entry.index.now images.entry.strings.now images.entry.globals.now s →
        IfOk result (λ v. inits_of v.items ≡
        inits s (map (global_in images.entry.index.now.table) globals.now) extents.now) }
{
    let mut places = Vec::with_capacity(alloc, globals.len())?;
    for i in 0..globals.len() {
        let address = images.globals[i];
        places.push(global_place(alloc, images, address, extents[i].size, &globals[i])?)?;
    }
    Ok(places)
}
