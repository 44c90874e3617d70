//! The members of structs.

ghost use Rattle.std.specs.Prelude.{◌≡◌, ◌<◌, ◌^◌, length, option_map, slice_get, IfSome};
ghost use Rattle.c_semantics.specs.Context.{Source};
ghost use Rattle.c_types_table.specs.Tables.{IsBelow, type_at};
ghost use Rattle.c_types_rules.specs.Initials.{types_in};
ghost use Rattle.isolation_check_images.specs.Given.{HasPlaces, IsSource};

use crate::addresses::Addresses;
use c_types_table::{StructId, TypeId};

impl Addresses<'_> {
    // The type of the member at a place of a struct; none past the last.
    pub(crate) fn member_type(self, number: StructId, place: usize) -> Option<TypeId>
        requires { HasPlaces self.index.now }
        ensures types { (s : Source) →
            IsSource self.entry.index.now self.entry.strings.now self.entry.globals.now s →
            option_map (type_at self.entry.index.now.table.types) result ≡
            slice_get (types_in s.program.structs number.0) place }
        ensures inside { IfSome result (IsBelow (length self.entry.index.now.table.types)) }
        ensures place { IfSome result (λ ty. place < 2 ^ 32) }
    {
        let structs = self.index.program().structs();
        if structs.extents().len() <= number.0 as usize {
            return None;
        }
        structs.member_type(number, place)
    }
}
