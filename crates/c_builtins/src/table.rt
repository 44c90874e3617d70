//! What the table of builtins says of each.

ghost use Rattle.std.specs.Prelude.{◌≡◌};
ghost use Rattle.c_builtins.specs.Table.{ctype_of, ctypes_of, in_interface, name_of, number_of, params_of, prototype_of, result_of};

use crate::builtin::{Builtin, BuiltinType};

impl Builtin {
    /// Its number, which is that of no function of a source.
    pub fn number(self) -> u16
        ensures { result ≡ number_of self }
    {
        match self {
            Builtin::Malloc => 0,
            Builtin::Free => 1,
            Builtin::Spawn => 2,
            Builtin::Join => 3,
            Builtin::Lock => 4,
            Builtin::Unlock => 5,
            Builtin::Print => 6,
        }
    }

    /// Its name.
    pub fn name(self) -> &'static [u8]
        ensures { result.now ≡ name_of self }
    {
        match self {
            Builtin::Malloc => b"r2_malloc",
            Builtin::Free => b"r2_free",
            Builtin::Spawn => b"r2_spawn",
            Builtin::Join => b"r2_join",
            Builtin::Lock => b"r2_lock",
            Builtin::Unlock => b"r2_unlock",
            Builtin::Print => b"r2_print",
        }
    }

    /// The type of its result.
    pub fn result(self) -> BuiltinType
        ensures { ctype_of result ≡ result_of (prototype_of self) }
    {
        match self {
            Builtin::Malloc => BuiltinType::VoidPointer,
            Builtin::Free | Builtin::Print => BuiltinType::Void,
            Builtin::Spawn | Builtin::Join | Builtin::Lock | Builtin::Unlock => BuiltinType::Int,
        }
    }

    /// The types of its parameters, in order.
    pub fn params(self) -> &'static [BuiltinType]
        ensures { ctypes_of result.now ≡ params_of (prototype_of self) }
    {
        match self {
            Builtin::Malloc => &[BuiltinType::UnsignedLong],
            Builtin::Free => &[BuiltinType::VoidPointer],
            Builtin::Spawn => &[BuiltinType::ThreadFunction, BuiltinType::VoidPointer],
            Builtin::Join | Builtin::Lock | Builtin::Unlock => &[BuiltinType::Int],
            Builtin::Print => &[BuiltinType::CharPointer, BuiltinType::UnsignedLong],
        }
    }

    /// Whether it is in the interface of every cut, so that its calls above the cut are events.
    pub fn is_in_interface(self) -> bool
        ensures { result ≡ in_interface self }
    {
        !matches!(self, Builtin::Malloc | Builtin::Free)
    }
}
