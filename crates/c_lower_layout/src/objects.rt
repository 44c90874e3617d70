//! The layout of a type.

ghost use Rattle.std.specs.Prelude.{◌≡◌, ◌<◌, length, map, IfOk, IsTrue, Some};
ghost use Rattle.std.specs.Option.{option_map};
ghost use Rattle.c_types_model.specs.Layouts.{capped, capped_extent, extent_of, extent_of_layout};
ghost use Rattle.c_types_table.specs.Tables.{type_at};
ghost use Rattle.c_types_rules.specs.TypeTests.{is_complete};
ghost use Rattle.c_semantics.specs.Context.{structs_of};
ghost use Rattle.c_lower_layout.specs.Sources.{source_in};
ghost use Rattle.c_lower_layout.specs.Offsets.{offsets_of};

use crate::members::member_offsets;
use c_types_model::{Extent, Layout, Offsets};
use c_types_program::TypedProgram;
use c_types_table::{Ty, TypeId};
use std::alloc::{AllocError, Global};

// The size and alignment of a complete object type.
fn extent(program: &TypedProgram, ty: TypeId) -> Extent
    requires inside { ty.0 < length program.now.table.types }
    requires complete { IsTrue (is_complete (structs_of (source_in program.now))
        (type_at program.now.table.types ty)) }
    ensures { Some result ≡ option_map capped_extent
        (extent_of (structs_of (source_in program.now)) (type_at program.now.table.types ty)) }
{
    let types = program.table().types();
    match types.extent(program.structs().extents(), ty) {
        Some(extent) => extent,
        None => unreachable!("a complete object type has a size"),
    }
}

// How far the members of a complete object type lie after its beginning.
fn offsets(alloc: Global, program: &TypedProgram, ty: TypeId) -> Result<Offsets, AllocError>
    requires inside { ty.0 < length program.now.table.types }
    requires complete { IsTrue (is_complete (structs_of (source_in program.now))
        (type_at program.now.table.types ty)) }
    ensures { IfOk result (λ os. os ≡ map capped
        (offsets_of (source_in program.now).program (type_at program.now.table.types ty))) }
{
    let types = program.table().types();
    match types.get(ty) {
        Ty::Struct(number) => member_offsets(alloc, types, program.structs(), *number),
        _ => Ok(Offsets::from(Vec::new(alloc))),
    }
}

/// How the objects of a complete object type lie in memory (C11 6.2.8, 6.7.2.1).
///
/// The size and alignment are those of the type in the program. Offsets are those of a struct's members in their order; of
/// any other type there are none. A size or offset past 2^64 - 1 counts as 2^64 - 1. `AllocError` only where there is no
/// memory.
pub fn layout(alloc: Global, program: &TypedProgram, ty: TypeId) -> Result<Layout, AllocError>
    requires inside { ty.0 < length program.now.table.types }
    requires complete { IsTrue (is_complete (structs_of (source_in program.now))
        (type_at program.now.table.types ty)) }
    ensures extent { IfOk result (λ l. Some (extent_of_layout l) ≡
        option_map capped_extent (extent_of (structs_of (source_in program.now))
        (type_at program.now.table.types ty))) }
    ensures offsets { IfOk result (λ l. l.offsets ≡
        map capped (offsets_of (source_in program.now).program (type_at program.now.table.types ty))) }
{
    let extent = extent(program, ty);
    Ok(Layout {
        size: extent.size,
        align: extent.align,
        offsets: offsets(alloc, program, ty)?,
    })
}
