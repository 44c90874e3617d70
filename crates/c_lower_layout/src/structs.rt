//! Where the members of structs lie.

ghost use Rattle.std.specs.Prelude.{◌≡◌, ◌<◌, ◌≤◌, ◌^◌, ℕ, None, IfOk, IfSome, length, min};
ghost use Rattle.std.specs.List.{All};
ghost use Rattle.c_types_structs.specs.Members.{members_at};
ghost use Rattle.c_types_program.specs.Declarations.{IsMemberBelow};
ghost use Rattle.c_lower_layout.specs.Indexed.{AreFirst, member_ids, members_end_at, offsets_of};

use crate::layouts::row_of;
use c_types_model::Offsets;
use c_types_structs::Structs;
use c_types_table::{StructId, TypeId, Types};
use std::alloc::{AllocError, Global};

// The types of the members of a struct.
fn types_of(alloc: Global, structs: &Structs, number: StructId) -> Result<Vec<TypeId>, AllocError>
    ensures { IfOk result (λ ts. ts.items ≡ member_ids (members_at structs.now.members number.0)) }
{
    let mut types = Vec::new(alloc);
    while let Some(ty) = structs.member_type(number, types.len()) {
        types.push(ty)?;
    }
    Ok(types)
}

// The number of the next struct, if there is one to which a type can lead: those have numbers of 32 bits.
fn next(count: usize, all: usize) -> Option<u32>
    ensures some { IfSome result (λ n. (n ≡ count) × (n < all)) }
    ensures none { result ≡ None → min all (2 ^ 32) ≤ count }
{
    if count < all {
        u32::try_from(count).ok()
    } else {
        None
    }
}

/// How far the members of each struct lie after its beginning. `AllocError` only where there is no memory.
pub fn member_offsets(
    alloc: Global,
    types: &Types,
    structs: &Structs,
) -> Result<Vec<Offsets>, AllocError>
    requires inside { All (All (IsMemberBelow (length types.now))) structs.now.members }
    requires small { (number : ℕ) → number < length structs.now.extents →
        members_end_at types.now structs.now number < 2 ^ 64 }
    ensures { IfOk result (λ os. AreFirst os.items (offsets_of types.now structs.now)) }
{
    let extents = structs.extents();
    let mut offsets = Vec::with_capacity(alloc, extents.len())?;
    while let Some(number) = next(offsets.len(), extents.len()) {
        let ids = types_of(alloc, structs, StructId(number))?;
        let row = row_of(alloc, types, extents, &ids)?;
        offsets.push(Offsets::from(row.offsets))?;
    }
    Ok(offsets)
}
