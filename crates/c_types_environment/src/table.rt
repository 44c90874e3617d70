//! The table of types and typed nodes.

ghost use Rattle.std.specs.Prelude.{◌≡◌, length, IfOk, Some};
ghost use Rattle.c_types_model.specs.Types.{Integer, Void};
ghost use Rattle.c_types_table.specs.Tables.{IsMadeOf as IsTypeMadeOf, made as made_type, types_of};
ghost use Rattle.c_types_rules.specs.TypedTree.{AValue, typed_type, value_of as value_of_typed};
ghost use Rattle.c_types_nodes.specs.Tables.{CanHold, IsNode, Names, made_in, node_at, typed_at};
ghost use Rattle.c_types_environment.specs.States.{KeepsAll};

use crate::environment::Environment;
use c_types_nodes::{Node, NodeId, TypedTable};
use c_types_table::{Ty, TypeId};
use r2_num::IntKind;
use std::alloc::AllocError;

impl Environment {
    /// The types and typed nodes so far.
    pub fn table(&self) -> &TypedTable
        ensures { result.now ≡ self.now.table }
    {
        &self.table
    }

    /// The type of what a number stands for, before it is converted.
    pub fn type_of(&self, id: NodeId) -> TypeId
        requires inside { IsNode self.now.table id }
        ensures { Names self.now.table.types result (typed_type (node_at self.now.table id)) }
    {
        self.table.type_of(id)
    }

    /// The integer type of a kind.
    pub fn kind_type(&self, kind: IntKind) -> TypeId
        ensures { Names self.now.table.types result (Integer kind) }
    {
        self.table.kind_type(kind)
    }

    /// The type void.
    pub fn void_type(&self) -> TypeId
        ensures { Names self.now.table.types result Void }
    {
        self.table.void_type()
    }

    /// Puts a type into the table, whose parts are in it, and gives its number.
    ///
    /// `AllocError` where there is no memory, or no number, for one more.
    pub fn add_type(&mut self, ty: Ty) -> Result<TypeId, AllocError>
        requires parts { IsTypeMadeOf (length self.old.table.types) ty }
        ensures names { IfOk result (λ id. Names self.new.table.types id
            (made_type (types_of self.old.table.types) ty)) }
        ensures kept { KeepsAll self.old self.new }
    {
        self.table.add_type(ty)
    }

    /// Puts a node into the table, whose parts are in it, and gives its number.
    ///
    /// `AllocError` where there is no memory, or no number, for one more.
    pub fn add(&mut self, node: Node) -> Result<NodeId, AllocError>
        requires parts { CanHold self.old.table node }
        ensures added { IfOk result (λ id. typed_at self.new.table id ≡ Some (made_in self.old.table node)) }
        ensures kept { KeepsAll self.old self.new }
    {
        self.table.add(node)
    }

    /// The value that an expression has where a value is wanted (C11 6.3.2.1, 2 to 4).
    ///
    /// `AllocError` where there is no memory, or no number, for one more node.
    pub fn value_of(&mut self, id: NodeId) -> Result<NodeId, AllocError>
        requires inside { IsNode self.old.table id }
        ensures value { IfOk result (λ v. typed_at self.new.table v ≡
            Some (AValue (value_of_typed (node_at self.old.table id)))) }
        ensures kept { KeepsAll self.old self.new }
    {
        self.table.value_of(id)
    }
}
