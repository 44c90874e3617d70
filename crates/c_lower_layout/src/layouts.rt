//! Where objects lie in a row.

ghost use Rattle.std.specs.Prelude.{◌≡◌, ◌∷◌, [], ◌+◌, ◌<◌, ◌^◌, ◌++◌, length, IfOk, OnOk};
ghost use Rattle.std.specs.Int.{next_multiple_of};
ghost use Rattle.std.specs.List.{All};
ghost use Rattle.c_types_model.specs.Layouts.{end_from, offsets_from};
ghost use Rattle.c_types_table.specs.Tables.{IsBelow, type_at};
ghost use Rattle.c_types_program.specs.Declarations.{types_in};
ghost use Rattle.c_lower_layout.specs.Indexed.{extent_in, extents_at};

use c_types_model::Extent;
use c_types_table::{TypeId, Types};
use std::alloc::{AllocError, Global};

/// How far objects in a row lie after its beginning, each at the next multiple of its alignment, and where the last ends.
#[derive(Drop)]
pub struct Row {
    pub offsets: Vec<u64>,
    pub end: u64,
}

// The least multiple of the alignment that is no less; where there is no alignment the number itself.
fn next_multiple(n: u64, align: u64) -> u64
    requires { next_multiple_of n align < 2 ^ 64 }
    ensures { result ≡ next_multiple_of n align }
{
    if align == 0 {
        n
    } else {
        n.next_multiple_of(align)
    }
}

impl Row {
    /// No objects.
    pub fn new(alloc: Global) -> Row
        ensures offsets { result.offsets.items ≡ [] }
        ensures end { result.end ≡ 0 }
    {
        Row {
            offsets: Vec::new(alloc),
            end: 0,
        }
    }

    /// Puts an object after the others. `AllocError` only where there is no memory.
    pub fn add(&mut self, extent: Extent) -> Result<(), AllocError>
        requires { next_multiple_of self.old.end extent.align + extent.size < 2 ^ 64 }
        ensures offset { OnOk result (self.new.offsets.items ≡ self.old.offsets.items ++
            next_multiple_of self.old.end extent.align ∷ []) }
        ensures end { OnOk result (self.new.end ≡ next_multiple_of self.old.end extent.align + extent.size) }
    {
        let offset = next_multiple(self.end, extent.align);
        self.offsets.push(offset)?;
        self.end = offset + extent.size;
        Ok(())
    }
}

/// The size and alignment of a type; 1 where it is no complete object type. `structs` has those of the structs by number.
fn extent(types: &Types, structs: &[Extent], ty: TypeId) -> Extent
    requires inside { ty.0 < length types.now }
    requires small { (extent_in structs.now (type_at types.now ty)).size < 2 ^ 64 }
    ensures { result ≡ extent_in structs.now (type_at types.now ty) }
{
    match types.extent(structs, ty) {
        None => Extent { size: 1, align: 1 },
        Some(extent) => extent,
    }
}

/// Objects of these types in a row. `AllocError` only where there is no memory.
pub fn row_of(
    alloc: Global,
    types: &Types,
    structs: &[Extent],
    ids: &[TypeId],
) -> Result<Row, AllocError>
    requires inside { All (IsBelow (length types.now)) ids.now }
    requires small { end_from 0 (extents_at structs.now (types_in types.now ids.now)) < 2 ^ 64 }
    ensures offsets { IfOk result (λ r. r.offsets.items ≡
        offsets_from 0 (extents_at structs.now (types_in types.now ids.now))) }
    ensures end { IfOk result (λ r. r.end ≡ end_from 0
        (extents_at structs.now (types_in types.now ids.now))) }
{
    let mut row = Row::new(alloc);
    for id in ids {
        row.add(extent(types, structs, *id))?;
    }
    Ok(row)
}
