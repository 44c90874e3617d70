//! The members of a struct.

ghost use Rattle.std.specs.Prelude.{◌≡◌, ◌↔◌, ◌∷◌, ◌++◌, [], length, None, Some, IfSome, IsTrue, OnOk, OnErr, is_some};
ghost use Rattle.c_types_model.specs.Types.{CType};
ghost use Rattle.c_types_table.specs.declared.ids.TypeId.{TypeId};
ghost use Rattle.c_scopes.specs.Scopes.{meaning_in};
ghost use Rattle.c_types_rules.specs.Expressions.{member_from};
ghost use Rattle.c_types_structs.specs.Members.{read_found, read_members, type_of_member};

use c_types_table::TypeId;
use indexmap::IndexMap;
use std::alloc::{AllocError, Global};
use std::marker::Model;

/// The members of a struct in the order of its definition, each with the number of its type. Contracts see the list of their
/// names and types.
#[derive(Drop)]
pub struct Members {
    alloc: Global,
    types: IndexMap<Vec<u8>, TypeId>,
}

impl Model for Members {
    ghost use Rattle.std.specs.Prelude.{length, ◌≤◌, ◌^◌};
    ghost use Rattle.c_types_structs.specs.Members.{MemberList};
    ghost use Rattle.c_types_structs.specs.Entries.{texts};

    ghost Value = { MemberList };

    ghost view = { λ m. texts m.types.entries };

    ghost invariant = { λ m. length m.types.entries ≤ 2 ^ 32 };
}

impl Members {
    /// No members.
    pub fn new(alloc: Global) -> Members
        ensures { result ≡ [] }
    {
        Members {
            alloc,
            types: IndexMap::new(alloc),
        }
    }

    /// How many there are.
    pub fn len(&self) -> usize
        ensures { result ≡ length self.now }
    {
        self.types.len()
    }

    /// Whether there are none.
    pub fn is_empty(&self) -> bool
        ensures { IsTrue result ↔ (length self.now ≡ 0) }
    {
        self.types.is_empty()
    }

    /// Whether one has this name.
    pub fn contains(&self, name: &[u8]) -> bool
        ensures { result ≡ is_some (meaning_in name.now self.now) }
    {
        self.types.contains_key(name)
    }

    /// Puts one more after the others, whose name none of them has.
    ///
    /// `AllocError` where there is no memory for it, or no number since there are 2^32. Then none is put.
    pub fn add(&mut self, name: &[u8], ty: TypeId) -> Result<(), AllocError>
        requires fresh { meaning_in name.now self.old ≡ None }
        ensures added { OnOk result (self.new ≡ self.old ++ (name.now, ty) ∷ []) }
        ensures err { OnErr result (self.new ≡ self.old) }
    {
        let _place = u32::try_from(self.types.len()).map_err(|_| AllocError)?;
        let name = Vec::from_slice(self.alloc, name)?;
        self.types.insert(name, ty)?;
        Ok(())
    }

    /// The place of the member of this name, counted from 0, and its type; `None` where none has the name.
    pub fn find(&self, name: &[u8]) -> Option<(u32, TypeId)>
        ensures found { (read : TypeId → CType) →
            read_found read result ≡ member_from 0 name.now (read_members read self.now) }
        ensures stands { IfSome result (λ m. type_of_member self.now m.0 ≡ Some m.1) }
    {
        let (place, _, ty) = self.types.get_full(name)?;
        Some((place as u32, *ty))
    }

    /// The type of the member at a place, counted from 0; `None` past the last.
    pub fn type_at(&self, place: usize) -> Option<TypeId>
        ensures { result ≡ type_of_member self.now place }
    {
        let (_, ty) = self.types.get_index(place)?;
        Some(*ty)
    }
}
