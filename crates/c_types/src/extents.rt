//! Where objects end that lie in one row.

ghost use Rattle.std.specs.Prelude.{◌≡◌, ◌+◌, ◌<◌, length};
ghost use Rattle.std.specs.List.{All};
ghost use Rattle.std.specs.Int.{next_multiple_of};
ghost use Rattle.c_types_model.specs.Layouts.{capped, capped_extent, extent_of};
ghost use Rattle.c_types_table.specs.Tables.{type_at};
ghost use Rattle.c_types_rules.specs.Environment.{extents};
ghost use Rattle.c_types_rules.specs.Sources.{extent_or as extent_by_rules};
ghost use Rattle.c_types.specs.States.{IsAligned};

use c_types_environment::Environment;
use c_types_model::Extent;
use c_types_table::TypeId;

// The size and alignment of a complete object type; of any other those of a byte. A size past 2^64 - 1 counts as 2^64 - 1.
fn extent_or(env: &Environment, ty: TypeId) -> Extent
    requires { ty.0 < length env.now.table.types }
    ensures { result ≡ capped_extent (extent_by_rules
        (extent_of (extents env.now.env) (type_at env.now.table.types ty))) }
{
    match env.table().types().extent(env.extents(), ty) {
        Some(extent) => extent,
        None => Extent { size: 1, align: 1 },
    }
}

// The least multiple of the alignment that isn't below the offset. One past 2^64 - 1 counts as 2^64 - 1.
fn next_multiple(offset: u64, align: u64) -> u64
    requires { 0 < align }
    ensures { result ≡ capped (next_multiple_of offset align) }
{
    offset.checked_next_multiple_of(align).unwrap_or(u64::MAX)
}

/// Where an object of a type ends, in bytes, that lies at the next multiple of its alignment. An end past 2^64 - 1 counts as 2^64 - 1.
pub(crate) fn end_after(env: &Environment, end: u64, ty: TypeId) -> u64
    requires ty { ty.0 < length env.now.table.types }
    requires aligned { All IsAligned env.now.env.structs }
    ensures { let e = extent_by_rules (extent_of (extents env.now.env) (type_at env.now.table.types ty)) in
        result ≡ capped (next_multiple_of end e.align + e.size) }
{
    let extent = extent_or(env, ty);
    next_multiple(end, extent.align).saturating_add(extent.size)
}
