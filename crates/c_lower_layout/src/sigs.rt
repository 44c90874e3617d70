//! The numbers of types of functions.

ghost use Rattle.std.specs.Prelude.{◌≡◌, ◌+◌, ◌<◌, ◌≤◌, ◌^◌, ◌++◌, length, List};
ghost use Rattle.c_types_model.specs.Types.{CType};
ghost use Rattle.c_types_table.specs.Tables.{type_at};
ghost use Rattle.c_semantics.specs.Values.{target};
ghost use Rattle.c_lower_layout.specs.Sources.{fixed_types, place_among, sig_in};
ghost use Rattle.c_lower_layout.specs.Sigs.{declared_types, or_after};

use crate::index::Index;
use crate::prototypes::{is_prototype, is_thread_function};
use c_builtins::Builtin;
use c_types_table::{Ty, TypeId, Types};

// The place of a type among those of a thread's function and of the builtins; `None` where it isn't there.
fn fixed_place(types: &Types, ty: TypeId) -> Option<u32>
    requires { ty.0 < length types.now }
    ensures { (us : List CType) → place_among (type_at types.now ty) (fixed_types ++ us) ≡
        or_after result (place_among (type_at types.now ty) us) }
{
    if is_thread_function(types, ty) {
        Some(0)
    } else if is_prototype(types, ty, Builtin::Malloc) {
        Some(1)
    } else if is_prototype(types, ty, Builtin::Free) {
        Some(2)
    } else if is_prototype(types, ty, Builtin::Spawn) {
        Some(3)
    } else if is_prototype(types, ty, Builtin::Join) {
        Some(4)
    } else if is_prototype(types, ty, Builtin::Print) {
        Some(7)
    } else {
        None
    }
}

impl Index<'_> {
    // The place of the first function with this type; how many functions there are where none has it.
    fn place_of(&self, ty: TypeId) -> usize
        requires { ty.0 < length self.now.table.types }
        ensures place { result ≡ place_among (type_at self.now.table.types ty)
            (declared_types self.now.table.types self.now.functions) }
        ensures few { result ≤ 2 ^ 16 }
    {
        let functions = self.functions();
        for (place, function) in functions.iter().enumerate() {
            if self.are_same(ty, function.ty) {
                return place;
            }
        }
        functions.len()
    }

    /// The number of a type of functions: equal types have one, and others another.
    pub fn sig(&self, ty: TypeId) -> u32
        requires { ty.0 < length self.now.table.types }
        ensures { result ≡ sig_in self.now (type_at self.now.table.types ty) }
    {
        match fixed_place(self.types(), ty) {
            Some(place) => place,
            // Those of the source's functions come after the eight fixed ones.
            None => self.place_of(ty) as u32 + 8,
        }
    }

    /// The number of the type that a pointer type points to; of any other type, which points to nothing, that of `void`.
    pub fn target_sig(&self, ty: TypeId) -> u32
        requires { ty.0 < length self.now.table.types }
        ensures { result ≡ sig_in self.now (target (type_at self.now.table.types ty)) }
    {
        match self.types().get(ty) {
            Ty::Pointer(target) => self.sig(*target),
            _ => self.sig(self.program().table().void_type()),
        }
    }
}
