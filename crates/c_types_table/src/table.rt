//! The table.

ghost use Rattle.std.specs.Prelude.{◌≡◌, ◌<◌, ◌≤◌, ◌+◌, length, map, List, IfOk, OnOk, OnErr, Some, slice_get, option_map};
ghost use Rattle.c_types_model.specs.Layouts.{capped_extent, extent_of};
ghost use Rattle.c_types_model.specs.declared.extent.Extent.{Extent};
ghost use Rattle.c_types_table.specs.declared.ids.TypeId.{TypeId};
ghost use Rattle.c_types_table.specs.Tables.{IsMadeOf, made, type_at, types_of};

use crate::ids::TypeId;
use crate::ty::Ty;
use c_types_model::Extent;
use indexmap::IndexSet;
use std::alloc::{AllocError, Global};
use std::marker::Model;

/// Types that name each other by number, each after its parts, and once.
#[derive(Drop)]
pub struct Types {
    pub(crate) nodes: IndexSet<Ty>,
}

impl Model for Types {
    ghost use Rattle.std.specs.Prelude.{List};
    ghost use Rattle.c_types_table.specs.declared.ty.Ty.{Ty};
    ghost use Rattle.c_types_table.specs.Tables.{AreDistinct, IsTable};

    ghost Value = { List Ty };

    ghost view = { λ t. t.nodes.keys };

    ghost invariant = { λ t. IsTable t.nodes.keys × AreDistinct t.nodes.keys };
}

impl Types {
    /// A table without types.
    pub fn new(alloc: Global) -> Types
        ensures { length result ≡ 0 }
    {
        Types {
            nodes: IndexSet::new(alloc),
        }
    }

    /// Puts a type into the table, whose parts are in it, and gives its number: the one that it has, if it is there already. Types keep
    /// their numbers.
    ///
    /// `AllocError` where there is no memory, or no number, for one more. The table is then as it was.
    pub fn add(&mut self, ty: Ty) -> Result<TypeId, AllocError>
        requires parts { IsMadeOf (length self.old) ty }
        ensures inside { IfOk result (λ id. id.0 < length self.new) }
        ensures added { IfOk result (λ id. type_at self.new id ≡ made (types_of self.old) ty) }
        ensures kept { OnOk result ((id : TypeId) → id.0 < length self.old →
            type_at self.new id ≡ type_at self.old id) }
        ensures grows { length self.old ≤ length self.new }
        ensures err { OnErr result (self.new ≡ self.old) }
    {
        let _next = u32::try_from(self.nodes.len()).map_err(|_| AllocError)?;
        let (number, _) = self.nodes.insert_full(ty)?;
        Ok(TypeId(number as u32))
    }

    /// The type of this number. The numbers of its parts are lower.
    pub fn get(&self, id: TypeId) -> &Ty
        requires inside { id.0 < length self.now }
        ensures node { slice_get self.now id.0 ≡ Some result.now }
        ensures meaning { made (types_of self.now) result.now ≡ type_at self.now id }
        ensures parts { IsMadeOf id.0 result.now }
    {
        &self.nodes[id.0 as usize]
    }

    /// The size and alignment of a complete object type, where `structs` has those of the defined structs by number; `None`
    /// of any other type (C11 6.2.5, 6.5.3.4).
    pub fn extent(&self, structs: &[Extent], id: TypeId) -> Option<Extent>
        requires inside { id.0 < length self.now }
        ensures { result ≡ option_map capped_extent (extent_of structs.now (type_at self.now id)) }
    {
        match self.get(id) {
            Ty::Void | Ty::UndefinedStruct(_) | Ty::Function { .. } => None,
            Ty::Int(kind) => Some(Extent::of_kind(*kind)),
            Ty::Pointer(_) => Some(Extent::of_pointer()),
            Ty::Array(element, length) => {
                let one = self.extent(structs, *element)?;
                Some(one.repeated(*length))
            }
            Ty::Struct(number) => structs.get(number.0 as usize).copied(),
        }
    }
}
