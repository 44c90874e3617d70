//! What holds of every layout.

ghost use Rattle.std.specs.Prelude.{◌≡◌, ◌*◌, ◌<◌, ◌≤◌, ℕ, List, map};
ghost use Rattle.std.specs.Int.{next_multiple_of};
ghost use Rattle.c_types_model.specs.declared.extent.Extent.{Extent};
ghost use Rattle.c_types_model.specs.Layouts.{capped, capped_extent, offsets_from, repeated, struct_of};

/// A law: the next multiple of an alignment is the least multiple of it that isn't below the offset.
pub fn offsets_are_least_multiples()
    ensures multiple { (n a : ℕ) → 0 < a → (k : ℕ) × (next_multiple_of n a ≡ k * a) }
    ensures after { (n a : ℕ) → n ≤ next_multiple_of n a }
    ensures least { (n a k : ℕ) → 0 < a → n ≤ k * a → next_multiple_of n a ≤ k * a }
{}

/// A law: where a size that is too great for 64 bits counts as 2^64 - 1, what it is a part of comes out as if it hadn't.
pub fn large_sizes_stay_large()
    ensures arrays { (n : ℕ) (e : Extent) → capped_extent (repeated n (capped_extent e)) ≡
        capped_extent (repeated n e) }
    ensures structs { (ms : List Extent) → capped_extent (struct_of (map capped_extent ms)) ≡
        capped_extent (struct_of ms) }
    ensures offsets { (ms : List Extent) → map capped (offsets_from 0 (map capped_extent ms)) ≡
        map capped (offsets_from 0 ms) }
{}
