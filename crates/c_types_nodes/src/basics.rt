//! The types that every table has.

ghost use Rattle.std.specs.Prelude.{◌≡◌, length, IfOk};
ghost use Rattle.c_types_table.specs.Tables.{IsMadeOf, made, types_of};
ghost use Rattle.c_types_nodes.specs.Tables.{AreBasic, KeepsTypes, Names, of_kind};

use c_types_table::{Ty, TypeId, Types};
use r2_num::IntKind;
use std::alloc::AllocError;

/// The numbers of void and of the integer types.
#[derive(Clone, Copy)]
pub struct BasicTypes {
    pub void: TypeId,
    pub i8: TypeId,
    pub u8: TypeId,
    pub i16: TypeId,
    pub u16: TypeId,
    pub i32: TypeId,
    pub u32: TypeId,
    pub i64: TypeId,
    pub u64: TypeId,
}

// Puts a type into the table. Types keep their numbers.
pub fn named(types: &mut Types, ty: Ty) -> Result<TypeId, AllocError>
    requires parts { IsMadeOf (length types.old) ty }
    ensures names { IfOk result (λ id. Names types.new id (made (types_of types.old) ty)) }
    ensures kept { KeepsTypes types.old types.new }
{
    types.add(ty)
}

impl BasicTypes {
    /// Puts them into the table. `AllocError` where there is no memory.
    pub fn add_to(types: &mut Types) -> Result<BasicTypes, AllocError>
        ensures { IfOk result (AreBasic types.new) }
    {
        Ok(BasicTypes {
            void: named(types, Ty::Void)?,
            i8: named(types, Ty::Int(IntKind::I8))?,
            u8: named(types, Ty::Int(IntKind::U8))?,
            i16: named(types, Ty::Int(IntKind::I16))?,
            u16: named(types, Ty::Int(IntKind::U16))?,
            i32: named(types, Ty::Int(IntKind::I32))?,
            u32: named(types, Ty::Int(IntKind::U32))?,
            i64: named(types, Ty::Int(IntKind::I64))?,
            u64: named(types, Ty::Int(IntKind::U64))?,
        })
    }

    /// The integer type of a kind.
    pub fn of_kind(&self, kind: IntKind) -> TypeId
        ensures { result ≡ of_kind self.now kind }
    {
        match kind {
            IntKind::I8 => self.i8,
            IntKind::U8 => self.u8,
            IntKind::I16 => self.i16,
            IntKind::U16 => self.u16,
            IntKind::I32 => self.i32,
            IntKind::U32 => self.u32,
            IntKind::I64 => self.i64,
            IntKind::U64 => self.u64,
        }
    }
}
