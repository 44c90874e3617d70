//! Elements and lengths of arrays (C11 6.7.6.2).

ghost use Rattle.std.specs.Prelude.{◌≡◌, ◌≢◌, ◌<◌, length, Err};
ghost use Rattle.c_types_rules.specs.Constants.{integer_constant};
ghost use Rattle.c_types_rules.specs.Expressions.{complete as complete_by_rules, rule_of_incomplete as rule_by_type};
ghost use Rattle.c_types_table.specs.Tables.{type_at};
ghost use Rattle.c_types_nodes.specs.Tables.{IsValueAt, value_at};
ghost use Rattle.c_types_operators.specs.Answers.{Agrees, IsNothing};
ghost use Rattle.c_types_operators.specs.Lengths.{IsLength};

use crate::error::TypeError;
use crate::queries::size_of;
use c_types_model::Extent;
use c_types_nodes::{NodeId, TypedTable};
use c_types_table::{Ty, TypeId};

// The rule that an incomplete element breaks: 2 where it is a struct, and 3 where it is no object.
fn rule_of_incomplete(table: &TypedTable, ty: TypeId) -> u8
    requires { ty.0 < length table.now.types }
    ensures { result ≡ rule_by_type (type_at table.now.types ty) }
{
    match table.types().get(ty) {
        Ty::Struct(_) | Ty::UndefinedStruct(_) => 2,
        _ => 3,
    }
}

/// That an array may have elements of a type: it is a complete object type. `Rule` names the rule that it breaks elsewhere,
/// with `from`.
///
/// `structs` has the extents of the structs that are defined, by number.
pub fn complete(
    table: &TypedTable,
    structs: &[Extent],
    from: u32,
    ty: TypeId,
) -> Result<(), TypeError>
    requires { ty.0 < length table.now.types }
    ensures agrees { Agrees IsNothing (complete_by_rules structs.now from (type_at table.now.types ty))
        result }
    ensures memory { result ≢ Err TypeError.Memory }
{
    match size_of(table, structs, ty) {
        Some(_size) => Ok(()),
        None => Err(TypeError::Rule(from, rule_of_incomplete(table, ty))),
    }
}

/// The length of an array that an integer constant expression gives: 1 or more. `Rule` names the rule that anything else
/// breaks, with `from`.
pub fn length_of(table: &TypedTable, from: u32, value: NodeId) -> Result<u64, TypeError>
    requires { IsValueAt table.now value }
    ensures { IsLength from (integer_constant (value_at table.now value)) result }
{
    let Some(constant) = table.integer_constant(value) else {
        return Err(TypeError::Rule(from, 4));
    };
    if constant < 1 {
        return Err(TypeError::Rule(from, 4));
    }
    Ok(constant as u64)
}
