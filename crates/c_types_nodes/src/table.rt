//! The table.

ghost use Rattle.std.specs.Prelude.{◌≡◌, length, [], IfOk, Some};
ghost use Rattle.c_types_model.specs.Types.{Void, Integer};
ghost use Rattle.c_types_table.specs.Tables.{IsMadeOf as IsTypeMadeOf, made as made_type, types_of};
ghost use Rattle.c_types_rules.specs.TypedTree.{typed_type};
ghost use Rattle.c_types_nodes.specs.Tables.{CanHold, IsNode, Keeps, Names, made_in, node_at, typed_at};

use crate::basics::{BasicTypes, named};
use crate::entry::Entry;
use crate::forms::TypeSource;
use crate::ids::NodeId;
use crate::node::Node;
use c_types_table::{Ty, TypeId, Types};
use r2_num::IntKind;
use std::alloc::{AllocError, Global};
use std::marker::Model;

/// Types, and typed nodes that name each other and their types by number, each after its parts.
#[derive(Drop)]
pub struct TypedTable {
    types: Types,
    basics: BasicTypes,
    entries: Vec<Entry>,
}

impl Model for TypedTable {
    ghost use Rattle.c_types_nodes.specs.Tables.{IsSound, Table};

    ghost Value = { Table };

    ghost view = { λ t. record { types = t.types; entries = t.entries.items } };

    ghost invariant = { λ t. IsSound (record { types = t.types; entries = t.entries.items }) t.basics };
}

impl TypedTable {
    /// A table without nodes, with void and the integer types. `AllocError` where there is no memory.
    pub fn new(alloc: Global) -> Result<TypedTable, AllocError>
        ensures { IfOk result (λ t. t.entries ≡ []) }
    {
        let mut types = Types::new(alloc);
        let basics = BasicTypes::add_to(&mut types)?;
        Ok(TypedTable {
            types,
            basics,
            entries: Vec::new(alloc),
        })
    }

    /// The types of the table.
    pub fn types(&self) -> &Types
        ensures { result.now ≡ self.now.types }
    {
        &self.types
    }

    /// The integer type of a kind.
    pub fn kind_type(&self, kind: IntKind) -> TypeId
        ensures { Names self.now.types result (Integer kind) }
    {
        self.basics.of_kind(kind)
    }

    /// The type void.
    pub fn void_type(&self) -> TypeId
        ensures { Names self.now.types result Void }
    {
        self.basics.void
    }

    /// Puts a type into the table, whose parts are in it, and gives its number. Types and nodes keep theirs.
    ///
    /// `AllocError` where there is no memory, or no number, for one more.
    pub fn add_type(&mut self, ty: Ty) -> Result<TypeId, AllocError>
        requires parts { IsTypeMadeOf (length self.old.types) ty }
        ensures names { IfOk result (λ id. Names self.new.types id
            (made_type (types_of self.old.types) ty)) }
        ensures kept { Keeps self.old self.new }
    {
        named(&mut self.types, ty)
    }

    /// Puts a node into the table, whose parts are in it, and gives its number. Types and nodes keep theirs.
    ///
    /// `AllocError` where there is no memory, or no number, for one more.
    pub fn add(&mut self, node: Node) -> Result<NodeId, AllocError>
        requires parts { CanHold self.old node }
        ensures added { IfOk result (λ id. typed_at self.new id ≡ Some (made_in self.old node)) }
        ensures kept { Keeps self.old self.new }
    {
        let ty = self.own_type(&node)?;
        self.put(Entry { node, ty })
    }

    // Puts a node with its type at the end.
    fn put(&mut self, entry: Entry) -> Result<NodeId, AllocError>
        requires parts { CanHold self.old entry.node }
        requires ty { Names self.old.types entry.ty (typed_type (made_in self.old entry.node)) }
        ensures added { IfOk result (λ id. typed_at self.new id ≡ Some (made_in self.old entry.node)) }
        ensures kept { Keeps self.old self.new }
    {
        let number = u32::try_from(self.entries.len()).map_err(|_| AllocError)?;
        self.entries.push(entry)?;
        Ok(NodeId(number))
    }

    // The type of what a node stands for, put into the table where it isn't there.
    fn own_type(&mut self, node: &Node) -> Result<TypeId, AllocError>
        requires parts { CanHold self.old node.now }
        ensures names { IfOk result (λ ty. Names self.new.types ty
            (typed_type (made_in self.old node.now))) }
        ensures kept { Keeps self.old self.new }
    {
        match node.type_source() {
            TypeSource::Carried(ty) => Ok(ty),
            TypeSource::Integer(kind) => Ok(self.kind_type(kind)),
            TypeSource::TypeOf(part) => Ok(self.type_of(part)),
            TypeSource::PointerTo(ty) => self.add_type(Ty::Pointer(ty)),
            TypeSource::Chars(length) => {
                let char = self.kind_type(IntKind::I8);
                self.add_type(Ty::Array(char, length))
            }
        }
    }

    /// The node of this number.
    pub fn get(&self, id: NodeId) -> &Node
        requires inside { IsNode self.now id }
        ensures meaning { typed_at self.now id ≡ Some (made_in self.now result.now) }
        ensures parts { CanHold self.now result.now }
    {
        &self.entries[id.0 as usize].node
    }

    /// The type of what a number stands for, before it is converted, in constant time.
    pub fn type_of(&self, id: NodeId) -> TypeId
        requires inside { IsNode self.now id }
        ensures { Names self.now.types result (typed_type (node_at self.now id)) }
    {
        self.entries[id.0 as usize].ty
    }
}
