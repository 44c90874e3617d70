//! Where the members of a struct lie.

ghost use Rattle.std.specs.Prelude.{◌≡◌, ◌<◌, length, map, IfOk};
ghost use Rattle.std.specs.List.{All};
ghost use Rattle.c_types_model.specs.Layouts.{IsAligned, capped};
ghost use Rattle.c_types_table.specs.Tables.{type_at};
ghost use Rattle.c_types_structs.specs.Members.{members_at};
ghost use Rattle.c_types_program.specs.Declarations.{IsMemberBelow, types_in};
ghost use Rattle.c_lower_layout.specs.Indexed.{extent_in, extents_at, member_ids, offsets_at};
ghost use Rattle.c_lower_layout.specs.Offsets.{laid};

use c_types_model::{Extent, Offsets, lay_out};
use c_types_structs::Structs;
use c_types_table::{StructId, TypeId, Types};
use std::alloc::{AllocError, Global};

// The size and alignment of a member's type, as it is laid.
fn extent(types: &Types, structs: &[Extent], ty: TypeId) -> Extent
    requires { ty.0 < length types.now }
    ensures { result ≡ laid (extent_in structs.now (type_at types.now ty)) }
{
    match types.extent(structs, ty) {
        Some(extent) => Extent {
            size: extent.size,
            align: extent.align.max(1),
        },
        None => Extent { size: 1, align: 1 },
    }
}

// The sizes and alignments of the members of a struct, as they are laid.
fn extents(
    alloc: Global,
    types: &Types,
    structs: &Structs,
    number: StructId,
) -> Result<Vec<Extent>, AllocError>
    requires { All (All (IsMemberBelow (length types.now))) structs.now.members }
    ensures { IfOk result (λ es. es.items ≡ map laid
        (extents_at structs.now.extents (types_in types.now
        (member_ids (members_at structs.now.members number.0))))) }
{
    let mut extents = Vec::new(alloc);
    while let Some(ty) = structs.member_type(number, extents.len()) {
        extents.push(extent(types, structs.extents(), ty))?;
    }
    Ok(extents)
}

/// How far the members of a struct lie after its beginning, in their order. `AllocError` only where there is no memory.
pub fn member_offsets(
    alloc: Global,
    types: &Types,
    structs: &Structs,
    number: StructId,
) -> Result<Offsets, AllocError>
    requires { All (All (IsMemberBelow (length types.now))) structs.now.members }
    ensures { IfOk result (λ os. os ≡ map capped (offsets_at types.now structs.now number.0)) }
{
    let extents = extents(alloc, types, structs, number)?;
    let layout = lay_out(alloc, &extents)?;
    Ok(layout.offsets)
}
