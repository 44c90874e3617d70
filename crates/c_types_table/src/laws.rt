//! What holds of the types of a table.

ghost use Rattle.std.specs.Prelude.{◌≡◌, List, map, option_map};
ghost use Rattle.c_types_model.specs.Types.{CType};
ghost use Rattle.c_types_model.specs.Layouts.{capped_extent, extent_of};
ghost use Rattle.c_types_model.specs.declared.extent.Extent.{Extent};

/// A law: where the size of a struct that is too great for 64 bits counts as 2^64 - 1, the sizes of all types come out as
/// if it hadn't.
pub fn large_sizes_stay_large()
    ensures { (structs : List Extent) (t : CType) →
        option_map capped_extent (extent_of (map capped_extent structs) t) ≡
        option_map capped_extent (extent_of structs t) }
{}
