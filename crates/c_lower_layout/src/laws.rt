//! What holds of all layouts.

ghost use Rattle.std.specs.Prelude.{◌≡◌, ℕ, slice_get, unwrap_or};
ghost use Rattle.c_types_model.specs.Types.{CType};
ghost use Rattle.c_semantics.specs.Context.{Source, member_offset};
ghost use Rattle.c_lower_layout.specs.Offsets.{offsets_of};

/// A law: the offset at a place is that of the member of this number, to which code of the source goes.
pub fn offsets_are_those_of_members()
    ensures { (s : Source) (t : CType) (number : ℕ) →
        unwrap_or (slice_get (offsets_of s.program t) number) 0 ≡ member_offset s t number }
{}
