//! Elements and lengths of arrays (C11 6.7.6.2). `from` is the offset of the node, and `Rule` names the rule that it breaks.

ghost use Rattle.std.specs.Prelude.{◌≡◌, ◌≢◌, ◌<◌, length, Err};
ghost use Rattle.c_types_rules.specs.Constants.{integer_constant};
ghost use Rattle.c_types_rules.specs.Environment.{extents};
ghost use Rattle.c_types_rules.specs.Expressions.{complete as complete_by_rules};
ghost use Rattle.c_types_table.specs.Tables.{type_at};
ghost use Rattle.c_types_nodes.specs.Tables.{IsValueAt, value_at};
ghost use Rattle.c_types_operators.specs.Answers.{Agrees, IsNothing};
ghost use Rattle.c_types_operators.specs.Lengths.{IsLength};

use crate::environment::Environment;
use c_types_nodes::NodeId;
use c_types_operators::TypeError;
use c_types_table::TypeId;

impl Environment {
    /// That the type is a complete object type, as that of an array's elements, a member or an object is.
    pub fn complete(&self, from: u32, ty: TypeId) -> Result<(), TypeError>
        requires { ty.0 < length self.now.table.types }
        ensures agrees { Agrees IsNothing (complete_by_rules (extents self.now.env) from
            (type_at self.now.table.types ty)) result }
        ensures memory { result ≢ Err TypeError.Memory }
    {
        c_types_operators::complete(&self.table, self.structs.extents(), from, ty)
    }

    /// The length of an array that an integer constant expression gives: 1 or more.
    pub fn length_of(&self, from: u32, value: NodeId) -> Result<u64, TypeError>
        requires { IsValueAt self.now.table value }
        ensures { IsLength from (integer_constant (value_at self.now.table value)) result }
    {
        c_types_operators::length_of(&self.table, from, value)
    }
}
