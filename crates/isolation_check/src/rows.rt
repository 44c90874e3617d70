//! The rows of the areas: where globals lie one after another.

ghost use Rattle.std.specs.Prelude.{◌≡◌, ◌+◌, ◌<◌, ◌^◌, length, IfOk};
ghost use Rattle.std.specs.Int.{next_multiple_of};
ghost use Rattle.c_lower_layout.specs.Indexed.{extent_in, extents_at};
ghost use Rattle.c_types_table.specs.Tables.{type_at};
ghost use Rattle.isolation_check_rules.specs.Addresses.{addresses_from};
ghost use Rattle.isolation_check.specs.Rows.{AllEnd, AreGlobalsBelow, AreSmall, global_types};

use c_types_model::Extent;
use c_types_program::Global as GlobalObject;
use c_types_table::{TypeId, Types};
use isolation_check_rules::{Area, Ends};
use std::alloc::{AllocError, Global};

// The size and alignment of a type; 1 where it is no complete object type. `structs` has those of the structs by number.
fn extent(types: &Types, structs: &[Extent], ty: TypeId) -> Extent
    requires inside { ty.0 < length types.now }
    requires small { (extent_in structs.now (type_at types.now ty)).size < 2 ^ 64 }
    ensures { result ≡ extent_in structs.now (type_at types.now ty) }
{
    match types.extent(structs, ty) {
        None => Extent { size: 1, align: 1 },
        Some(extent) => extent,
    }
}

/// The sizes and alignments of globals. `AllocError` only where there is no memory.
pub(crate) fn extents(
    alloc: Global,
    types: &Types,
    structs: &[Extent],
    globals: &[GlobalObject],
) -> Result<Vec<Extent>, AllocError>
    requires inside { AreGlobalsBelow (length types.now) globals.now }
    requires small { AreSmall (extents_at structs.now (global_types types.now globals.now)) }
    ensures { IfOk result (λ v. v.items ≡ extents_at structs.now (global_types types.now globals.now)) }
{
    let mut extents = Vec::with_capacity(alloc, globals.len())?;
    for global in globals {
        extents.push(extent(types, structs, global.ty))?;
    }
    Ok(extents)
}

/// Where objects of these areas and sizes lie, after the ends of these rows. `AllocError` only where there is no memory.
pub(crate) fn addresses(
    alloc: Global,
    ends: Ends,
    areas: &[Area],
    extents: &[Extent],
) -> Result<Vec<u64>, AllocError>
    requires each { length areas.now ≡ length extents.now }
    requires fit { AllEnd ends areas.now extents.now }
    ensures { IfOk result (λ v. v.items ≡ addresses_from ends areas.now extents.now) }
{
    let mut addresses = Vec::with_capacity(alloc, extents.len())?;
    let mut ends = ends;
    for i in 0..extents.len() {
        let area = areas[i];
        let extent = extents[i];
        let address = ends.get(area).next_multiple_of(extent.align);
        addresses.push(address)?;
        ends = ends.with(area, address + extent.size);
    }
    Ok(addresses)
}
