//! What operators make of values and objects (C11 6.5). `from` is the offset of the node, and `Rule` names the rule that it
//! breaks.

ghost use Rattle.std.specs.Prelude.{◌≡◌, ◌<◌, length};
ghost use Rattle.c_types_table.specs.Tables.{type_at};
ghost use Rattle.c_types_rules.specs.Environment.{extents};
ghost use Rattle.c_types_rules.specs.Expressions.{postfixed as postfixed_by_rules, prefixed as prefixed_by_rules};
ghost use Rattle.c_types_rules.specs.Operators.{assigned as assigned_by_rules, assignment as assignment_by_rules, binary as binary_by_rules, cast as cast_by_rules, choice as choice_by_rules, signed_operand as signed_operand_by_rules, step as step_by_rules};
ghost use Rattle.c_types_nodes.specs.Parts.{given_in, way_in};
ghost use Rattle.c_types_nodes.specs.Tables.{IsNode, IsValueAt, node_at, value_at};
ghost use Rattle.c_types_operators.specs.Answers.{Agrees, IsAt, StandsAt};
ghost use Rattle.c_types_environment.specs.States.{KeepsAll};

use crate::environment::Environment;
use c_lexer::Sign;
use c_types_nodes::{Given, NodeId, Way};
use c_types_operators::TypeError;
use c_types_table::TypeId;

impl Environment {
    /// What an operator between two operands makes of their values (C11 6.5.5 to 6.5.14, 6.5.17).
    pub fn binary(
        &mut self,
        from: u32,
        sign: Sign,
        left: NodeId,
        right: NodeId,
    ) -> Result<NodeId, TypeError>
        requires left { IsValueAt self.old.table left }
        requires right { IsValueAt self.old.table right }
        ensures agrees { Agrees (IsAt self.new.table)
            (binary_by_rules (extents self.old.env) from sign (value_at self.old.table left)
            (value_at self.old.table right)) result }
        ensures kept { KeepsAll self.old self.new }
    {
        c_types_operators::binary(
            &mut self.table,
            self.structs.extents(),
            from,
            sign,
            left,
            right,
        )
    }

    /// What `+`, `-`, `~` or `!` makes of its operand's value (C11 6.5.3.3).
    pub fn signed_operand(
        &mut self,
        from: u32,
        sign: Sign,
        value: NodeId,
    ) -> Result<NodeId, TypeError>
        requires value { IsValueAt self.old.table value }
        ensures agrees { Agrees (IsAt self.new.table)
            (signed_operand_by_rules from sign (value_at self.old.table value)) result }
        ensures kept { KeepsAll self.old self.new }
    {
        c_types_operators::signed_operand(&mut self.table, from, sign, value)
    }

    /// What an operator before its operand makes of it (C11 6.5.3).
    pub fn prefixed(&mut self, from: u32, sign: Sign, operand: NodeId) -> Result<NodeId, TypeError>
        requires operand { IsNode self.old.table operand }
        ensures agrees { Agrees (StandsAt self.new.table)
            (prefixed_by_rules (extents self.old.env) from sign (node_at self.old.table operand)) result }
        ensures kept { KeepsAll self.old self.new }
    {
        c_types_operators::prefixed(&mut self.table, self.structs.extents(), from, sign, operand)
    }

    /// What `++` or `--` after its operand makes of it (C11 6.5.2.4).
    pub fn postfixed(&mut self, from: u32, sign: Sign, operand: NodeId) -> Result<NodeId, TypeError>
        requires operand { IsNode self.old.table operand }
        ensures agrees { Agrees (StandsAt self.new.table)
            (postfixed_by_rules (extents self.old.env) from sign (node_at self.old.table operand)) result }
        ensures kept { KeepsAll self.old self.new }
    {
        c_types_operators::postfixed(&mut self.table, self.structs.extents(), from, sign, operand)
    }

    /// What `++` or `--` makes of its operand: the value that is given is the new one where the sign stands before the operand, and
    /// the old one where it stands after (C11 6.5.2.4, 6.5.3.1).
    pub fn step(
        &mut self,
        from: u32,
        way: Way,
        given: Given,
        operand: NodeId,
    ) -> Result<NodeId, TypeError>
        requires operand { IsNode self.old.table operand }
        ensures agrees { Agrees (IsAt self.new.table)
            (step_by_rules (extents self.old.env) from (way_in way) (given_in given)
            (node_at self.old.table operand)) result }
        ensures kept { KeepsAll self.old self.new }
    {
        c_types_operators::step(
            &mut self.table,
            self.structs.extents(),
            from,
            way,
            given,
            operand,
        )
    }

    /// What an assignment makes of its left side and of the value of its right side (C11 6.5.16).
    pub fn assignment(
        &mut self,
        from: u32,
        sign: Sign,
        left: NodeId,
        value: NodeId,
    ) -> Result<NodeId, TypeError>
        requires left { IsNode self.old.table left }
        requires value { IsValueAt self.old.table value }
        ensures agrees { Agrees (IsAt self.new.table)
            (assignment_by_rules (extents self.old.env) from sign (node_at self.old.table left)
            (value_at self.old.table value)) result }
        ensures kept { KeepsAll self.old self.new }
    {
        c_types_operators::assignment(
            &mut self.table,
            self.structs.extents(),
            from,
            sign,
            left,
            value,
        )
    }

    /// What `? :` makes of its condition and its arms (C11 6.5.15).
    pub fn choice(
        &mut self,
        from: u32,
        condition: NodeId,
        a: NodeId,
        b: NodeId,
    ) -> Result<NodeId, TypeError>
        requires condition { IsValueAt self.old.table condition }
        requires a { IsValueAt self.old.table a }
        requires b { IsValueAt self.old.table b }
        ensures agrees { Agrees (IsAt self.new.table)
            (choice_by_rules from (value_at self.old.table condition) (value_at self.old.table a)
            (value_at self.old.table b)) result }
        ensures kept { KeepsAll self.old self.new }
    {
        c_types_operators::choice(&mut self.table, from, condition, a, b)
    }

    /// A value, cast to a type (C11 6.5.4).
    pub fn cast(&mut self, from: u32, ty: TypeId, value: NodeId) -> Result<NodeId, TypeError>
        requires ty { ty.0 < length self.old.table.types }
        requires value { IsValueAt self.old.table value }
        ensures agrees { Agrees (IsAt self.new.table)
            (cast_by_rules from (type_at self.old.table.types ty) (value_at self.old.table value)) result }
        ensures kept { KeepsAll self.old self.new }
    {
        c_types_operators::cast(&mut self.table, from, ty, value)
    }

    /// A value, converted as if by assignment to an object of this type (C11 6.5.16.1).
    pub fn assigned(&mut self, from: u32, ty: TypeId, value: NodeId) -> Result<NodeId, TypeError>
        requires ty { ty.0 < length self.old.table.types }
        requires value { IsValueAt self.old.table value }
        ensures agrees { Agrees (IsAt self.new.table)
            (assigned_by_rules from (type_at self.old.table.types ty) (value_at self.old.table value))
            result }
        ensures kept { KeepsAll self.old self.new }
    {
        c_types_operators::assigned(&mut self.table, from, ty, value)
    }
}
