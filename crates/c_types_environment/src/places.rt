//! Objects and functions that pointers lead to, and their addresses (C11 6.5.2.1, 6.5.3.2). `from` is the offset of the node, and
//! `Rule` names the rule that it breaks.

ghost use Rattle.std.specs.Prelude.{◌≡◌};
ghost use Rattle.c_types_rules.specs.Environment.{extents};
ghost use Rattle.c_types_rules.specs.Expressions.{address as address_by_rules, pointed as pointed_by_rules, subscript as subscript_by_rules};
ghost use Rattle.c_types_nodes.specs.Tables.{IsNode, IsValueAt, node_at, value_at};
ghost use Rattle.c_types_operators.specs.Answers.{Agrees, StandsAt};
ghost use Rattle.c_types_environment.specs.States.{KeepsAll};

use crate::environment::Environment;
use c_types_nodes::NodeId;
use c_types_operators::TypeError;

impl Environment {
    /// The object that a pointer and an integer designate, in either order (C11 6.5.2.1).
    pub fn subscript(&mut self, from: u32, left: NodeId, right: NodeId) -> Result<NodeId, TypeError>
        requires left { IsValueAt self.old.table left }
        requires right { IsValueAt self.old.table right }
        ensures agrees { Agrees (StandsAt self.new.table)
            (subscript_by_rules (extents self.old.env) from (value_at self.old.table left)
            (value_at self.old.table right)) result }
        ensures kept { KeepsAll self.old self.new }
    {
        c_types_operators::subscript(&mut self.table, self.structs.extents(), from, left, right)
    }

    /// The function or the complete object that a pointer points to (C11 6.5.3.2).
    pub fn pointed(&mut self, from: u32, value: NodeId) -> Result<NodeId, TypeError>
        requires value { IsValueAt self.old.table value }
        ensures agrees { Agrees (StandsAt self.new.table)
            (pointed_by_rules (extents self.old.env) from (value_at self.old.table value)) result }
        ensures kept { KeepsAll self.old self.new }
    {
        c_types_operators::pointed(&mut self.table, self.structs.extents(), from, value)
    }

    /// The address of an object or a function (C11 6.5.3.2).
    pub fn address(&mut self, from: u32, operand: NodeId) -> Result<NodeId, TypeError>
        requires operand { IsNode self.old.table operand }
        ensures agrees { Agrees (StandsAt self.new.table)
            (address_by_rules from (node_at self.old.table operand)) result }
        ensures kept { KeepsAll self.old self.new }
    {
        c_types_operators::address(&mut self.table, from, operand)
    }
}
