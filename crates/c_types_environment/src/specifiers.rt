//! The types that the words of declarations make (C11 6.7.2).

ghost use Rattle.std.specs.Prelude.{◌≡◌, IfOk};
ghost use Rattle.c_types_rules.specs.Environment.{base_type as base_type_of, kind_of_bytes as kind_of_size};
ghost use Rattle.c_types_nodes.specs.Tables.{Names};
ghost use Rattle.c_types_environment.specs.Nodes.{type_of_tag};
ghost use Rattle.c_types_environment.specs.States.{KeepsAll};

use crate::environment::Environment;
use c_syntax::Base;
use c_types_table::{StructId, Tag, Ty, TypeId};
use r2_num::IntKind;
use std::alloc::AllocError;

// The integer type of 1, 2, 4 or 8 bytes.
fn kind_of_bytes(bytes: u8, signed: bool) -> IntKind
    ensures { result ≡ kind_of_size bytes signed }
{
    match (bytes, signed) {
        (1, true) => IntKind::I8,
        (2, true) => IntKind::I16,
        (4, true) => IntKind::I32,
        (_, true) => IntKind::I64,
        (1, false) => IntKind::U8,
        (2, false) => IntKind::U16,
        (4, false) => IntKind::U32,
        (_, false) => IntKind::U64,
    }
}

impl Environment {
    /// The type that the words of a declaration make. `AllocError` where there is no memory, or no number, for one more type.
    pub fn base_type(&mut self, base: &Base) -> Result<TypeId, AllocError>
        ensures names { IfOk result (λ id. Names self.new.table.types id
            (base_type_of self.old.env base.now)) }
        ensures kept { KeepsAll self.old self.new }
    {
        match base {
            Base::Void => Ok(self.void_type()),
            Base::Int { bytes, signed } => Ok(self.kind_type(kind_of_bytes(*bytes, *signed))),
            Base::Struct(tag) => self.struct_type(tag.as_slice()),
        }
    }

    // The type of a tag: that of a struct that the source defines, or one that is never defined.
    fn struct_type(&mut self, tag: &[u8]) -> Result<TypeId, AllocError>
        ensures names { IfOk result (λ id. Names self.new.table.types id
            (type_of_tag self.old.env tag.now)) }
        ensures kept { KeepsAll self.old self.new }
    {
        match self.tags.place_of(tag) {
            Some(number) => self.add_type(Ty::Struct(StructId(number))),
            None => {
                let tag = Tag::from_slice(self.alloc, tag)?;
                self.add_type(Ty::UndefinedStruct(tag))
            }
        }
    }
}
