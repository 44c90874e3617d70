//! Members of structs (C11 6.5.2.3).

ghost use Rattle.std.specs.Prelude.{◌≡◌};
ghost use Rattle.c_types_model.specs.Types.{PointerTo, StructOf};
ghost use Rattle.c_types_rules.specs.Expressions.{arrow_of, member as member_of_typed, member_of as member_of_object};
ghost use Rattle.c_types_rules.specs.TypedTree.{object_type, value_type};
ghost use Rattle.c_types_nodes.specs.Tables.{IsNode, IsObjectAt, IsValueAt, Names, node_at, object_at, value_at};
ghost use Rattle.c_types_operators.specs.Answers.{Agrees, StandsAt};
ghost use Rattle.c_types_environment.specs.States.{KeepsAll};

use crate::environment::Environment;
use c_types_nodes::{Node, NodeId, Sort};
use c_types_operators::TypeError;
use c_types_table::{StructId, Ty, TypeId};

impl Environment {
    // A member of an object that is a struct.
    fn member_of(
        &mut self,
        from: u32,
        object: NodeId,
        number: StructId,
        name: &[u8],
    ) -> Result<NodeId, TypeError>
        requires object { IsObjectAt self.old.table object }
        ensures agrees { Agrees (StandsAt self.new.table)
            (member_of_object self.old.env from (object_at self.old.table object) (StructOf number.0)
            name.now) result }
        ensures kept { KeepsAll self.old self.new }
    {
        let Some((place, ty)) = self.structs.member(number, name) else {
            return Err(TypeError::Rule(from, 13));
        };
        Ok(self.add(Node::MemberOf(object, place, ty))?)
    }

    /// `.` and a name after an operand. `Rule` names the rule that the node at `from` breaks.
    pub fn member(&mut self, from: u32, node: NodeId, name: &[u8]) -> Result<NodeId, TypeError>
        requires inside { IsNode self.old.table node }
        ensures agrees { Agrees (StandsAt self.new.table)
            (member_of_typed self.old.env from (node_at self.old.table node) name.now) result }
        ensures kept { KeepsAll self.old self.new }
    {
        match self.table.sort_of(node) {
            Sort::Object => self.object_member(from, node, name),
            Sort::Function | Sort::Value => Err(TypeError::Rule(from, 13)),
        }
    }

    // `.` and a name after an object.
    fn object_member(&mut self, from: u32, object: NodeId, name: &[u8]) -> Result<NodeId, TypeError>
        requires object { IsObjectAt self.old.table object }
        ensures agrees { Agrees (StandsAt self.new.table)
            (member_of_object self.old.env from (object_at self.old.table object)
            (object_type (object_at self.old.table object)) name.now) result }
        ensures kept { KeepsAll self.old self.new }
    {
        match self.table.types().get(self.table.type_of(object)) {
            Ty::Struct(number) => {
                let number = *number;
                self.member_of(from, object, number, name)
            }
            _ => Err(TypeError::Rule(from, 13)),
        }
    }

    /// `->` and a name after an operand with this value. `Rule` names the rule that the node at `from` breaks.
    pub fn arrow(&mut self, from: u32, value: NodeId, name: &[u8]) -> Result<NodeId, TypeError>
        requires value { IsValueAt self.old.table value }
        ensures agrees { Agrees (StandsAt self.new.table)
            (arrow_of self.old.env from (value_at self.old.table value)
            (value_type (value_at self.old.table value)) name.now) result }
        ensures kept { KeepsAll self.old self.new }
    {
        let target = match self.table.types().get(self.table.type_of(value)) {
            Ty::Pointer(target) => *target,
            _ => return Err(TypeError::Rule(from, 13)),
        };
        match self.table.types().get(target) {
            Ty::Struct(number) => {
                let number = *number;
                self.pointed_member(from, value, target, number, name)
            }
            Ty::UndefinedStruct(_) => Err(TypeError::Rule(from, 2)),
            _ => Err(TypeError::Rule(from, 13)),
        }
    }

    // A member of the struct of this number, which a pointer points to.
    fn pointed_member(
        &mut self,
        from: u32,
        value: NodeId,
        target: TypeId,
        number: StructId,
        name: &[u8],
    ) -> Result<NodeId, TypeError>
        requires value { IsValueAt self.old.table value }
        requires target { Names self.old.table.types target (StructOf number.0) }
        ensures agrees { Agrees (StandsAt self.new.table)
            (arrow_of self.old.env from (value_at self.old.table value) (PointerTo (StructOf number.0))
            name.now) result }
        ensures kept { KeepsAll self.old self.new }
    {
        if self.structs.extents().get(number.0 as usize).is_none() {
            return Err(TypeError::Rule(from, 2));
        }
        let object = self.add(Node::Pointed(value, target))?;
        self.member_of(from, object, number, name)
    }
}
