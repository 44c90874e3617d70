//! Operators between two operands.

ghost use Rattle.std.specs.Prelude.{◌≡◌};
ghost use Rattle.c_types_rules.specs.Operators.{binary as binary_of};
ghost use Rattle.c_types_nodes.specs.Tables.{IsValueAt, Keeps, value_at};
ghost use Rattle.c_types_operators.specs.Answers.{Agrees, IsAt};

use crate::arithmetic::{arithmetic, shift};
use crate::comparison::comparison;
use crate::error::TypeError;
use crate::logic::{both, either, sequence};
use crate::pointers::{difference, sum};
use c_lexer::Sign;
use c_types_model::Extent;
use c_types_nodes::{NodeId, TypedTable};
use r2_num::Op;

/// What an operator between two operands makes of their values (C11 6.5.5 to 6.5.14, 6.5.17).
///
/// `structs` has the extents of the structs that are defined, by number, and `from` is the offset of the node. `Rule`
/// names the rule that the node breaks.
pub fn binary(
    table: &mut TypedTable,
    structs: &[Extent],
    from: u32,
    sign: Sign,
    left: NodeId,
    right: NodeId,
) -> Result<NodeId, TypeError>
    requires left { IsValueAt table.old left }
    requires right { IsValueAt table.old right }
    ensures agrees { Agrees (IsAt table.new) (binary_of structs.now from sign (value_at table.old left)
        (value_at table.old right)) result }
    ensures kept { Keeps table.old table.new }
{
    match sign {
        Sign::Comma => sequence(table, left, right),
        Sign::OrOr => either(table, from, left, right),
        Sign::AndAnd => both(table, from, left, right),
        Sign::Bar => arithmetic(table, from, Op::Or, left, right),
        Sign::Caret => arithmetic(table, from, Op::Xor, left, right),
        Sign::Ampersand => arithmetic(table, from, Op::And, left, right),
        Sign::Equal => comparison(table, from, Op::Eq, left, right),
        Sign::NotEqual => comparison(table, from, Op::Ne, left, right),
        Sign::Less => comparison(table, from, Op::Lt, left, right),
        Sign::Greater => comparison(table, from, Op::Gt, left, right),
        Sign::LessEqual => comparison(table, from, Op::Le, left, right),
        Sign::GreaterEqual => comparison(table, from, Op::Ge, left, right),
        Sign::ShiftLeft => shift(table, from, Op::Shl, left, right),
        Sign::ShiftRight => shift(table, from, Op::Shr, left, right),
        Sign::Plus => sum(table, structs, from, left, right),
        Sign::Minus => difference(table, structs, from, left, right),
        Sign::Star => arithmetic(table, from, Op::Mul, left, right),
        Sign::Slash => arithmetic(table, from, Op::Div, left, right),
        Sign::Percent => arithmetic(table, from, Op::Rem, left, right),
        _ => Err(TypeError::Rule(from, 5)),
    }
}
