//! `? :` (C11 6.5.15).

ghost use Rattle.std.specs.Prelude.{◌≡◌, ◌<◌, length, IfOk};
ghost use Rattle.c_types_model.specs.Types.{PointerTo};
ghost use Rattle.c_types_rules.specs.Checked.{Fine};
ghost use Rattle.c_types_rules.specs.Constants.{is_null};
ghost use Rattle.c_types_rules.specs.Operators.{choice as choice_by_rules, is_settled as is_settled_types, pointers_chosen, unlike_chosen};
ghost use Rattle.c_types_rules.specs.TypedTree.{Choice, Convert, value_type};
ghost use Rattle.c_types_table.specs.Tables.{type_at};
ghost use Rattle.c_types_nodes.specs.Tables.{IsValueAt, Keeps, value_at};
ghost use Rattle.c_types_operators.specs.Answers.{Agrees, IsAt, if_kept};
ghost use Rattle.c_types_operators.specs.Arms.{integers_chosen};

use crate::arithmetic::to_kind;
use crate::error::TypeError;
use crate::queries::{are_equal, is_integer, is_scalar, kind_of, target_of};
use c_types_nodes::{Node, NodeId, TypedTable};
use c_types_table::{Ty, TypeId};
use r2_num::common;
use std::alloc::AllocError;

// The second arm is converted to the type of the first.
fn like_the_first(
    table: &mut TypedTable,
    condition: NodeId,
    a: NodeId,
    b: NodeId,
) -> Result<NodeId, AllocError>
    requires condition { IsValueAt table.old condition }
    requires a { IsValueAt table.old a }
    requires b { IsValueAt table.old b }
    ensures added { IfOk result (IsAt table.new
        (Choice (value_at table.old condition) (value_at table.old a)
        (Convert (value_type (value_at table.old a)) (value_at table.old b)))) }
    ensures kept { Keeps table.old table.new }
{
    let ty = table.type_of(a);
    let b = table.add(Node::Convert(ty, b))?;
    table.add(Node::Choice(condition, a, b))
}

// The first arm is converted to the type of the second.
fn like_the_second(
    table: &mut TypedTable,
    condition: NodeId,
    a: NodeId,
    b: NodeId,
) -> Result<NodeId, AllocError>
    requires condition { IsValueAt table.old condition }
    requires a { IsValueAt table.old a }
    requires b { IsValueAt table.old b }
    ensures added { IfOk result (IsAt table.new
        (Choice (value_at table.old condition)
        (Convert (value_type (value_at table.old b)) (value_at table.old a)) (value_at table.old b))) }
    ensures kept { Keeps table.old table.new }
{
    let ty = table.type_of(b);
    let a = table.add(Node::Convert(ty, a))?;
    table.add(Node::Choice(condition, a, b))
}

// Two pointers of unlike types, one of which must be to void.
fn pointers(
    table: &mut TypedTable,
    from: u32,
    targets: (TypeId, TypeId),
    condition: NodeId,
    a: NodeId,
    b: NodeId,
) -> Result<NodeId, TypeError>
    requires first_target { (targets.0.0 < length table.old.types) ×
        (value_type (value_at table.old a) ≡ PointerTo (type_at table.old.types targets.0)) }
    requires second_target { (targets.1.0 < length table.old.types) ×
        (value_type (value_at table.old b) ≡ PointerTo (type_at table.old.types targets.1)) }
    requires condition { IsValueAt table.old condition }
    requires a { IsValueAt table.old a }
    requires b { IsValueAt table.old b }
    ensures agrees { Agrees (IsAt table.new) (pointers_chosen from (value_at table.old condition)
        (value_at table.old a) (value_at table.old b) (type_at table.old.types targets.0)
        (type_at table.old.types targets.1)) result }
    ensures kept { Keeps table.old table.new }
{
    if matches!(table.types().get(targets.0), Ty::Void) {
        return Ok(like_the_first(table, condition, a, b)?);
    }
    if matches!(table.types().get(targets.1), Ty::Void) {
        return Ok(like_the_second(table, condition, a, b)?);
    }
    Err(TypeError::Rule(from, 20))
}

// A pointer, and what must be the constant 0.
fn null_on_the_right(
    table: &mut TypedTable,
    from: u32,
    condition: NodeId,
    a: NodeId,
    b: NodeId,
) -> Result<NodeId, TypeError>
    requires condition { IsValueAt table.old condition }
    requires a { IsValueAt table.old a }
    requires b { IsValueAt table.old b }
    ensures agrees { Agrees (IsAt table.new) (if_kept from 20 (is_null (value_at table.old b))
        (Fine (Choice (value_at table.old condition) (value_at table.old a)
        (Convert (value_type (value_at table.old a)) (value_at table.old b))))) result }
    ensures kept { Keeps table.old table.new }
{
    if !table.is_null(b) {
        return Err(TypeError::Rule(from, 20));
    }
    Ok(like_the_first(table, condition, a, b)?)
}

fn null_on_the_left(
    table: &mut TypedTable,
    from: u32,
    condition: NodeId,
    a: NodeId,
    b: NodeId,
) -> Result<NodeId, TypeError>
    requires condition { IsValueAt table.old condition }
    requires a { IsValueAt table.old a }
    requires b { IsValueAt table.old b }
    ensures agrees { Agrees (IsAt table.new) (if_kept from 20 (is_null (value_at table.old a))
        (Fine (Choice (value_at table.old condition)
        (Convert (value_type (value_at table.old b)) (value_at table.old a)) (value_at table.old b))))
        result }
    ensures kept { Keeps table.old table.new }
{
    if !table.is_null(a) {
        return Err(TypeError::Rule(from, 20));
    }
    Ok(like_the_second(table, condition, a, b)?)
}

// What must be two integers, which are converted to their common kind (C11 6.5.15, 5).
fn integers(
    table: &mut TypedTable,
    from: u32,
    condition: NodeId,
    a: NodeId,
    b: NodeId,
) -> Result<NodeId, TypeError>
    requires condition { IsValueAt table.old condition }
    requires a { IsValueAt table.old a }
    requires b { IsValueAt table.old b }
    ensures agrees { Agrees (IsAt table.new) (integers_chosen from (value_at table.old condition)
        (value_at table.old a) (value_at table.old b)) result }
    ensures kept { Keeps table.old table.new }
{
    let Some(left) = kind_of(table, a) else {
        return Err(TypeError::Rule(from, 20));
    };
    let Some(right) = kind_of(table, b) else {
        return Err(TypeError::Rule(from, 20));
    };
    let kind = common(left, right);
    let a = to_kind(table, kind, a)?;
    let b = to_kind(table, kind, b)?;
    Ok(table.add(Node::Choice(condition, a, b))?)
}

// Arms that don't stay as they are.
fn unlike(
    table: &mut TypedTable,
    from: u32,
    condition: NodeId,
    a: NodeId,
    b: NodeId,
) -> Result<NodeId, TypeError>
    requires condition { IsValueAt table.old condition }
    requires a { IsValueAt table.old a }
    requires b { IsValueAt table.old b }
    ensures agrees { Agrees (IsAt table.new) (unlike_chosen from (value_at table.old condition)
        (value_at table.old a) (value_at table.old b) (value_type (value_at table.old a))
        (value_type (value_at table.old b))) result }
    ensures kept { Keeps table.old table.new }
{
    match target_of(table, a) {
        Some(target) => match target_of(table, b) {
            Some(other) => pointers(table, from, (target, other), condition, a, b),
            None => null_on_the_right(table, from, condition, a, b),
        },
        None => match target_of(table, b) {
            Some(_) => null_on_the_left(table, from, condition, a, b),
            None => integers(table, from, condition, a, b),
        },
    }
}

// Whether arms stay as they are: those of equal type, but integers are converted to their common kind.
fn is_settled(table: &TypedTable, a: NodeId, b: NodeId) -> bool
    requires a { IsValueAt table.now a }
    requires b { IsValueAt table.now b }
    ensures { result ≡ is_settled_types (value_type (value_at table.now a))
        (value_type (value_at table.now b)) }
{
    are_equal(table, table.type_of(a), table.type_of(b)) && !is_integer(table, a)
}

/// What `? :` makes of its condition and its arms. `Rule` names the rule that the node at `from` breaks.
pub fn choice(
    table: &mut TypedTable,
    from: u32,
    condition: NodeId,
    a: NodeId,
    b: NodeId,
) -> Result<NodeId, TypeError>
    requires condition { IsValueAt table.old condition }
    requires a { IsValueAt table.old a }
    requires b { IsValueAt table.old b }
    ensures agrees { Agrees (IsAt table.new) (choice_by_rules from (value_at table.old condition)
        (value_at table.old a) (value_at table.old b)) result }
    ensures kept { Keeps table.old table.new }
{
    if !is_scalar(table, condition) {
        return Err(TypeError::Rule(from, 10));
    }
    if is_settled(table, a, b) {
        return Ok(table.add(Node::Choice(condition, a, b))?);
    }
    unlike(table, from, condition, a, b)
}
