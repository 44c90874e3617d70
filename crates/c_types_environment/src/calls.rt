//! Calls (C11 6.5.2.2). `from` is the offset of the node, and `Rule` names the rule that it breaks.

ghost use Rattle.std.specs.Prelude.{◌≡◌, ◌<◌, length};
ghost use Rattle.c_builtins.specs.Table.{params_of, prototype_of};
ghost use Rattle.c_types_rules.specs.Expressions.{called as called_by_rules};
ghost use Rattle.c_types_rules.specs.TypedTree.{AFunction, BuiltinFunction};
ghost use Rattle.c_types_table.specs.Tables.{type_at};
ghost use Rattle.c_types_nodes.specs.Tables.{IsNode, node_at};
ghost use Rattle.c_types_operators.specs.Answers.{Agrees};
ghost use Rattle.c_types_operators.specs.Calls.{IsCalled, IsParameter};
ghost use Rattle.c_types_environment.specs.States.{KeepsAll};

use crate::environment::Environment;
use c_builtins::Builtin;
use c_types_nodes::NodeId;
use c_types_operators::{CallTarget, TypeError};
use c_types_table::TypeId;

impl Environment {
    /// What a call of a node calls: a function, or what a pointer to one points to.
    pub fn called(&mut self, from: u32, node: NodeId) -> Result<CallTarget, TypeError>
        requires { IsNode self.old.table node }
        ensures agrees { Agrees (IsCalled self.new.table)
            (called_by_rules from (node_at self.old.table node)) result }
        ensures kept { KeepsAll self.old self.new }
    {
        c_types_operators::called(&mut self.table, from, node)
    }

    /// What a call of a builtin calls, whose name stands at `from`.
    pub fn builtin_called(&mut self, from: u32, builtin: Builtin) -> Result<CallTarget, TypeError>
        ensures agrees { Agrees (IsCalled self.new.table)
            (called_by_rules from (AFunction (BuiltinFunction from builtin) (prototype_of builtin))) result }
        ensures kept { KeepsAll self.old self.new }
    {
        c_types_operators::builtin_called(self.alloc, &mut self.table, from, builtin)
    }

    /// The type of the parameter of this number, from 0 on, of a function of this type; `None` where it has no more.
    pub fn parameter(&self, function: TypeId, number: usize) -> Option<TypeId>
        requires { function.0 < length self.now.table.types }
        ensures { IsParameter self.now.table.types (params_of (type_at self.now.table.types function))
            number result }
    {
        c_types_operators::parameter(&self.table, function, number)
    }
}
