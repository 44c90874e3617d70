//! Sizes of types (C11 6.5.3.4), and arrays (C11 6.7.6.2).

ghost use Rattle.std.specs.Prelude.{◌≡◌, ◌<◌, length};
ghost use Rattle.c_types_table.specs.Tables.{type_at};
ghost use Rattle.c_types_rules.specs.Environment.{extents};
ghost use Rattle.c_types_rules.specs.Expressions.{is_small};
ghost use Rattle.c_types_rules.specs.TypedTree.{typed_type};
ghost use Rattle.c_types_rules.specs.TypeTests.{is_result as is_result_type};
ghost use Rattle.c_types_nodes.specs.Tables.{IsNode, node_at};
ghost use Rattle.c_types_operators.specs.Answers.{Agrees, IsNothing, StandsAt};
ghost use Rattle.c_types_environment.specs.States.{KeepsAll, notes_of};
ghost use Rattle.c_types_expressions.specs.Found.{Finds, IsType, Stays, size_noted};
ghost use Rattle.c_types_expressions.specs.Pieces.{array_by, array_of, parameter as parameter_by_rules, size_constant, size_of_operand as size_of_operand_by_rules, sized as sized_by_rules};

use c_types_environment::Environment;
use c_types_nodes::{Node, NodeId, Number};
use c_types_operators::TypeError;
use c_types_table::{Ty, TypeId};
use r2_num::IntKind;

/// That a type whose size is asked for is that of a complete object. `Rule` names the rule that another breaks, with `from`.
pub fn sized(env: &Environment, from: u32, ty: TypeId) -> Result<(), TypeError>
    requires { ty.0 < length env.now.table.types }
    ensures { Agrees IsNothing (sized_by_rules (extents env.now.env) from (type_at env.now.table.types ty))
        result }
{
    match env.size_of(ty) {
        Some(_size) => Ok(()),
        None => Err(TypeError::Rule(from, 15)),
    }
}

/// The size of a type in bytes, as a constant. `Rule` names the rule that an incomplete type breaks, with `from`.
pub fn size_of_type(env: &mut Environment, from: u32, ty: TypeId) -> Result<NodeId, TypeError>
    requires { ty.0 < length env.old.table.types }
    ensures agrees { Agrees (StandsAt env.new.table)
        (size_constant (extents env.old.env) from (type_at env.old.table.types ty)) result }
    ensures kept { KeepsAll env.old env.new }
{
    let Some(size) = env.size_of(ty) else {
        return Err(TypeError::Rule(from, 15));
    };
    Ok(env.add(Node::Constant(IntKind::U64, Number::from(size)))?)
}

// The size of what an operand is, before it is converted.
fn size_of_node(env: &mut Environment, from: u32, operand: NodeId) -> Result<NodeId, TypeError>
    requires { IsNode env.old.table operand }
    ensures agrees { Agrees (StandsAt env.new.table)
        (size_constant (extents env.old.env) from (typed_type (node_at env.old.table operand))) result }
    ensures kept { KeepsAll env.old env.new }
{
    let ty = env.type_of(operand);
    size_of_type(env, from, ty)
}

/// The size of an operand, which is noted as unevaluated.
pub fn size_of_operand(
    env: &mut Environment,
    from: u32,
    operand: NodeId,
) -> Result<NodeId, TypeError>
    requires { IsNode env.old.table operand }
    ensures agrees { Finds env.old env.new (StandsAt env.new.table)
        (size_of_operand_by_rules (extents env.old.env) from (node_at env.old.table operand)) result }
    ensures kept { Stays env.old env.new }
{
    env.note_unevaluated(operand)?;
    size_of_node(env, from, operand)
}

/// Notes that an object of a type is too large, where it is.
pub fn note_size(env: &mut Environment, ty: TypeId)
    requires { ty.0 < length env.old.table.types }
    ensures table { env.new.table ≡ env.old.table }
    ensures env { env.new.env ≡ env.old.env }
    ensures noted { notes_of env.new ≡
        size_noted (is_small (extents env.old.env) (type_at env.old.table.types ty)) (notes_of env.old) }
{
    if !env.is_small(ty) {
        env.note_large();
    }
}

// An array of elements of a type, with the length that the node `size` gives, which must be a constant of 1 or more.
fn array_of_length(
    env: &mut Environment,
    from: u32,
    element: TypeId,
    size: NodeId,
) -> Result<TypeId, TypeError>
    requires element { element.0 < length env.old.table.types }
    requires size { IsNode env.old.table size }
    ensures agrees { Agrees (IsType env.new.table)
        (array_by from (type_at env.old.table.types element) (node_at env.old.table size)) result }
    ensures kept { KeepsAll env.old env.new }
{
    let value = env.value_of(size)?;
    let count = env.length_of(from, value)?;
    Ok(env.add_type(Ty::Array(element, count))?)
}

/// The same, where the length is noted as unevaluated.
pub fn array_with_length(
    env: &mut Environment,
    from: u32,
    element: TypeId,
    size: NodeId,
) -> Result<TypeId, TypeError>
    requires element { element.0 < length env.old.table.types }
    requires size { IsNode env.old.table size }
    ensures agrees { Finds env.old env.new (IsType env.new.table)
        (array_of from (type_at env.old.table.types element) (node_at env.old.table size)) result }
    ensures kept { Stays env.old env.new }
{
    env.note_unevaluated(size)?;
    array_of_length(env, from, element, size)
}

/// Whether a function may give a value of this type, or nothing.
pub fn is_result(env: &Environment, ty: TypeId) -> bool
    requires { ty.0 < length env.now.table.types }
    ensures { result ≡ is_result_type (type_at env.now.table.types ty) }
{
    matches!(
        env.table().types().get(ty),
        Ty::Void | Ty::Int(_) | Ty::Pointer(_)
    )
}

/// The type that a parameter has which is declared with this one: that of an array is a pointer to its element. `Rule` names the
/// rule that it breaks where it isn't scalar, with `from`.
pub fn adjusted(env: &mut Environment, from: u32, ty: TypeId) -> Result<TypeId, TypeError>
    requires { ty.0 < length env.old.table.types }
    ensures agrees { Agrees (IsType env.new.table)
        (parameter_by_rules from (type_at env.old.table.types ty)) result }
    ensures kept { KeepsAll env.old env.new }
{
    match env.table().types().get(ty) {
        Ty::Int(_) | Ty::Pointer(_) => Ok(ty),
        Ty::Array(element, _) => {
            let element = *element;
            Ok(env.add_type(Ty::Pointer(element))?)
        }
        _ => Err(TypeError::Rule(from, 3)),
    }
}
