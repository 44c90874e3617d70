//! Operators before and after an operand (C11 6.5.3, 6.5.2.4).

ghost use Rattle.std.specs.Prelude.{◌≡◌};
ghost use Rattle.c_types_rules.specs.Expressions.{a_value, pointed as pointed_by_rules, postfixed as postfixed_by_rules, prefixed as prefixed_by_rules};
ghost use Rattle.c_types_rules.specs.Operators.{signed_operand as signed_operand_by_rules, step as step_by_rules};
ghost use Rattle.c_types_rules.specs.TypedTree.{value_of};
ghost use Rattle.c_types_nodes.specs.Parts.{given_in, way_in};
ghost use Rattle.c_types_nodes.specs.Tables.{IsNode, Keeps, node_at};
ghost use Rattle.c_types_operators.specs.Answers.{Agrees, StandsAt};

use crate::addresses::address;
use crate::error::TypeError;
use crate::indirection::pointed;
use crate::steps::step;
use crate::unary::signed_operand;
use c_lexer::Sign;
use c_types_model::Extent;
use c_types_nodes::{Given, NodeId, TypedTable, Way};

// What `++` or `--` gives is a value.
fn step_value(
    table: &mut TypedTable,
    structs: &[Extent],
    from: u32,
    way: Way,
    given: Given,
    operand: NodeId,
) -> Result<NodeId, TypeError>
    requires { IsNode table.old operand }
    ensures agrees { Agrees (StandsAt table.new)
        (a_value (step_by_rules structs.now from (way_in way) (given_in given)
        (node_at table.old operand))) result }
    ensures kept { Keeps table.old table.new }
{
    step(table, structs, from, way, given, operand)
}

// `*` before what is converted to a value.
fn at_value(
    table: &mut TypedTable,
    structs: &[Extent],
    from: u32,
    operand: NodeId,
) -> Result<NodeId, TypeError>
    requires { IsNode table.old operand }
    ensures agrees { Agrees (StandsAt table.new)
        (pointed_by_rules structs.now from (value_of (node_at table.old operand))) result }
    ensures kept { Keeps table.old table.new }
{
    let value = table.value_of(operand)?;
    pointed(table, structs, from, value)
}

// `+`, `-`, `~` or `!` before what is converted to a value.
fn of_value(
    table: &mut TypedTable,
    from: u32,
    sign: Sign,
    operand: NodeId,
) -> Result<NodeId, TypeError>
    requires { IsNode table.old operand }
    ensures agrees { Agrees (StandsAt table.new)
        (a_value (signed_operand_by_rules from sign (value_of (node_at table.old operand)))) result }
    ensures kept { Keeps table.old table.new }
{
    let value = table.value_of(operand)?;
    signed_operand(table, from, sign, value)
}

/// What an operator before its operand makes of it (C11 6.5.3).
///
/// `structs` has the extents of the structs that are defined, by number. `Rule` names the rule that the node at `from`
/// breaks.
pub fn prefixed(
    table: &mut TypedTable,
    structs: &[Extent],
    from: u32,
    sign: Sign,
    operand: NodeId,
) -> Result<NodeId, TypeError>
    requires { IsNode table.old operand }
    ensures agrees { Agrees (StandsAt table.new)
        (prefixed_by_rules structs.now from sign (node_at table.old operand)) result }
    ensures kept { Keeps table.old table.new }
{
    match sign {
        Sign::Increment => step_value(table, structs, from, Way::Up, Given::New, operand),
        Sign::Decrement => step_value(table, structs, from, Way::Down, Given::New, operand),
        Sign::Ampersand => address(table, from, operand),
        Sign::Star => at_value(table, structs, from, operand),
        _ => of_value(table, from, sign, operand),
    }
}

/// What `++` or `--` after its operand makes of it (C11 6.5.2.4). `Rule` names the rule that the node at `from` breaks.
pub fn postfixed(
    table: &mut TypedTable,
    structs: &[Extent],
    from: u32,
    sign: Sign,
    operand: NodeId,
) -> Result<NodeId, TypeError>
    requires { IsNode table.old operand }
    ensures agrees { Agrees (StandsAt table.new)
        (postfixed_by_rules structs.now from sign (node_at table.old operand)) result }
    ensures kept { Keeps table.old table.new }
{
    match sign {
        Sign::Increment => step_value(table, structs, from, Way::Up, Given::Old, operand),
        Sign::Decrement => step_value(table, structs, from, Way::Down, Given::Old, operand),
        _ => Err(TypeError::Rule(from, 8)),
    }
}
