//! What is made of operands that are typed nodes: where a value is wanted they are converted (C11 6.3.2.1).

ghost use Rattle.std.specs.Prelude.{◌≡◌, ◌<◌, length, IfOk};
ghost use Rattle.c_types_table.specs.Tables.{type_at};
ghost use Rattle.c_types_rules.specs.TypedTree.{value_of};
ghost use Rattle.c_types_nodes.specs.Tables.{IsNode, node_at};
ghost use Rattle.c_types_operators.specs.Answers.{Agrees, IsAt, StandsAt};
ghost use Rattle.c_types_environment.specs.States.{KeepsAll};
ghost use Rattle.c_types_expressions.specs.Pieces.{argument, arrow_from, assignment_of, binary_of, cast_of, choice_of, subscript_of};

use c_lexer::Sign;
use c_types_environment::Environment;
use c_types_nodes::NodeId;
use c_types_operators::TypeError;
use c_types_table::TypeId;
use std::alloc::AllocError;

// The values of two operands.
fn values(
    env: &mut Environment,
    left: NodeId,
    right: NodeId,
) -> Result<(NodeId, NodeId), AllocError>
    requires left { IsNode env.old.table left }
    requires right { IsNode env.old.table right }
    ensures left { IfOk result (λ v. IsAt env.new.table (value_of (node_at env.old.table left)) v.0) }
    ensures right { IfOk result (λ v. IsAt env.new.table (value_of (node_at env.old.table right)) v.1) }
    ensures kept { KeepsAll env.old env.new }
{
    let left = env.value_of(left)?;
    let right = env.value_of(right)?;
    Ok((left, right))
}

/// An operator between two operands (C11 6.5.5 to 6.5.14, 6.5.17).
pub fn binary(
    env: &mut Environment,
    from: u32,
    sign: Sign,
    left: NodeId,
    right: NodeId,
) -> Result<NodeId, TypeError>
    requires left { IsNode env.old.table left }
    requires right { IsNode env.old.table right }
    ensures agrees { Agrees (StandsAt env.new.table)
        (binary_of env.old.env from sign (node_at env.old.table left) (node_at env.old.table right)) result }
    ensures kept { KeepsAll env.old env.new }
{
    let (left, right) = values(env, left, right)?;
    env.binary(from, sign, left, right)
}

/// An assignment (C11 6.5.16).
pub fn assignment(
    env: &mut Environment,
    from: u32,
    sign: Sign,
    left: NodeId,
    right: NodeId,
) -> Result<NodeId, TypeError>
    requires left { IsNode env.old.table left }
    requires right { IsNode env.old.table right }
    ensures agrees { Agrees (StandsAt env.new.table)
        (assignment_of env.old.env from sign (node_at env.old.table left) (node_at env.old.table right))
        result }
    ensures kept { KeepsAll env.old env.new }
{
    let right = env.value_of(right)?;
    env.assignment(from, sign, left, right)
}

/// `? :` (C11 6.5.15).
pub fn choice(
    env: &mut Environment,
    from: u32,
    condition: NodeId,
    left: NodeId,
    right: NodeId,
) -> Result<NodeId, TypeError>
    requires condition { IsNode env.old.table condition }
    requires left { IsNode env.old.table left }
    requires right { IsNode env.old.table right }
    ensures agrees { Agrees (StandsAt env.new.table)
        (choice_of from (node_at env.old.table condition) (node_at env.old.table left)
        (node_at env.old.table right)) result }
    ensures kept { KeepsAll env.old env.new }
{
    let condition = env.value_of(condition)?;
    let (left, right) = values(env, left, right)?;
    env.choice(from, condition, left, right)
}

/// A subscript (C11 6.5.2.1).
pub fn subscript(
    env: &mut Environment,
    from: u32,
    left: NodeId,
    right: NodeId,
) -> Result<NodeId, TypeError>
    requires left { IsNode env.old.table left }
    requires right { IsNode env.old.table right }
    ensures agrees { Agrees (StandsAt env.new.table)
        (subscript_of env.old.env from (node_at env.old.table left) (node_at env.old.table right)) result }
    ensures kept { KeepsAll env.old env.new }
{
    let (left, right) = values(env, left, right)?;
    env.subscript(from, left, right)
}

/// A cast to a type (C11 6.5.4).
pub fn cast(
    env: &mut Environment,
    from: u32,
    ty: TypeId,
    operand: NodeId,
) -> Result<NodeId, TypeError>
    requires ty { ty.0 < length env.old.table.types }
    requires operand { IsNode env.old.table operand }
    ensures agrees { Agrees (StandsAt env.new.table)
        (cast_of from (type_at env.old.table.types ty) (node_at env.old.table operand)) result }
    ensures kept { KeepsAll env.old env.new }
{
    let value = env.value_of(operand)?;
    env.cast(from, ty, value)
}

/// `->` and a name after an operand (C11 6.5.2.3).
pub fn arrow(
    env: &mut Environment,
    from: u32,
    operand: NodeId,
    name: &[u8],
) -> Result<NodeId, TypeError>
    requires { IsNode env.old.table operand }
    ensures agrees { Agrees (StandsAt env.new.table)
        (arrow_from env.old.env from (node_at env.old.table operand) name.now) result }
    ensures kept { KeepsAll env.old env.new }
{
    let value = env.value_of(operand)?;
    env.arrow(from, value, name)
}

/// An argument's value, converted as if by assignment to a parameter of this type (C11 6.5.2.2, 7).
pub fn converted(
    env: &mut Environment,
    from: u32,
    ty: TypeId,
    operand: NodeId,
) -> Result<NodeId, TypeError>
    requires ty { ty.0 < length env.old.table.types }
    requires operand { IsNode env.old.table operand }
    ensures agrees { Agrees (IsAt env.new.table)
        (argument from (type_at env.old.table.types ty) (node_at env.old.table operand)) result }
    ensures kept { KeepsAll env.old env.new }
{
    let value = env.value_of(operand)?;
    env.assigned(from, ty, value)
}
