//! The structs that are defined.

ghost use Rattle.std.specs.Prelude.{◌≡◌, ◌∷◌, ◌++◌, [], Some, IfSome, OnOk, OnErr};
ghost use Rattle.c_types_model.specs.Types.{CType};
ghost use Rattle.c_types_table.specs.declared.ids.TypeId.{TypeId};
ghost use Rattle.c_types_rules.specs.Expressions.{member_from};
ghost use Rattle.c_types_structs.specs.Members.{members_at, read_found, read_members, type_of_member};

use crate::members::Members;
use c_types_model::Extent;
use c_types_table::{StructId, TypeId};
use std::alloc::{AllocError, Global};
use std::marker::Model;

/// The structs that are defined so far. Each has the number of its definition.
#[derive(Drop)]
pub struct Structs {
    members: Vec<Members>,
    extents: Vec<Extent>,
}

impl Model for Structs {
    ghost use Rattle.c_types_structs.specs.Members.{Definitions};

    ghost Value = { Definitions };

    ghost view = { λ s. record { members = s.members.items; extents = s.extents.items } };
}

impl Structs {
    /// No structs.
    pub fn new(alloc: Global) -> Structs
        ensures { result ≡ record { members = []; extents = [] } }
    {
        Structs {
            members: Vec::new(alloc),
            extents: Vec::new(alloc),
        }
    }

    /// The sizes in bytes and the alignments of all structs, by number.
    pub fn extents(&self) -> &[Extent]
        ensures { result.now ≡ self.now.extents }
    {
        &self.extents
    }

    /// Puts one more after the others, with its size and alignment.
    ///
    /// `AllocError` where there is no memory for it. Then none is put.
    pub fn define(&mut self, members: Members, extent: Extent) -> Result<(), AllocError>
        ensures members { OnOk result (self.new.members ≡ self.old.members ++ members ∷ []) }
        ensures extents { OnOk result (self.new.extents ≡ self.old.extents ++ extent ∷ []) }
        ensures err { OnErr result (self.new ≡ self.old) }
    {
        self.extents.push(extent)?;
        let Ok(()) = self.members.push(members) else {
            let _ = self.extents.pop();
            return Err(AllocError);
        };
        Ok(())
    }

    /// The place of a struct's member of this name, counted from 0, and its type; `None` where the struct has no such member, or
    /// isn't defined (C11 6.5.2.3).
    pub fn member(&self, number: StructId, name: &[u8]) -> Option<(u32, TypeId)>
        ensures found { (read : TypeId → CType) →
            read_found read result ≡ member_from 0 name.now
            (read_members read (members_at self.now.members number.0)) }
        ensures stands { IfSome result (λ m. type_of_member (members_at self.now.members number.0) m.0 ≡
            Some m.1) }
    {
        let members = self.members.get(number.0 as usize)?;
        members.find(name)
    }

    /// The type of the struct's member at a place, counted from 0; `None` past the last, or where the struct isn't defined.
    pub fn member_type(&self, number: StructId, place: usize) -> Option<TypeId>
        ensures { result ≡ type_of_member (members_at self.now.members number.0) place }
    {
        let members = self.members.get(number.0 as usize)?;
        members.type_at(place)
    }
}
