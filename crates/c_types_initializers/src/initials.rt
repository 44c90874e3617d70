//! The values of objects before a run (C11 6.7.9).

ghost use Rattle.std.specs.Prelude.{◌≡◌, ◌<◌, length};
ghost use Rattle.c_syntax.specs.Stands.{StandValues, Stands, StandsValue};
ghost use Rattle.c_syntax.specs.Syntax.{Braces, Expr, Value as Written, Values as Writtens};
ghost use Rattle.c_types_table.specs.Tables.{type_at};
ghost use Rattle.c_types_rules.specs.Initials.{elements as elements_by_rules, initial as initial_by_rules, members as members_by_rules, plain_initial as plain_by_rules, start_of_value as start_by_rules, types_in};
ghost use Rattle.c_types_expressions.specs.Found.{Finds, Stays};
ghost use Rattle.c_types_expressions.specs.Walks.{IsExpr};
ghost use Rattle.c_types_initializers.specs.Values.{AreInitials, AreValues, IsInitial, IsValue};

use crate::known::known;
use crate::strings::string_initial;
use c_syntax::{ExprId, Tree, Value};
use c_types_environment::Environment;
use c_types_operators::TypeError;
use c_types_program::Initial;
use c_types_table::{StructId, Ty, TypeId};
use std::alloc::AllocError;

/// What an object of a type has before a run, where the source gives it this value. What isn't given takes no memory.
///
/// `Rule` names the first rule that is broken in the value, with the offset of the node that breaks it. Notes where an array is too
/// large.
#[cycle(values)]
pub fn initial(
    env: &mut Environment,
    tree: &Tree,
    value: &Value,
    ty: TypeId,
) -> Result<Initial, TypeError>
    // The value is part of a source whose numbers are such as tokens are.
    requires value { IsValue tree.now value.now }
    requires ty { ty.0 < length env.old.table.types }
    // Where it stands for x, the answer is what the rules say of x.
    ensures agrees { (x : Written) → StandsValue tree.now value.now x →
        Finds env.old env.new IsInitial (initial_by_rules x env.old.env (type_at env.old.table.types ty))
        result }
    // What is declared, and what numbers stand for, is as before, also after an error.
    ensures kept { Stays env.old env.new }
{
    match value {
        Value::Plain(id) => plain_initial(env, tree, *id, ty),
        Value::Braces { from, values } => listed(env, tree, *from, values, ty),
    }
}

// What an object has that an expression gives.
fn plain_initial(
    env: &mut Environment,
    tree: &Tree,
    id: ExprId,
    ty: TypeId,
) -> Result<Initial, TypeError>
    requires id { IsExpr tree.now id }
    requires ty { ty.0 < length env.old.table.types }
    ensures agrees { (x : Expr) → Stands tree.now id x →
        Finds env.old env.new IsInitial (plain_by_rules env.old.env (type_at env.old.table.types ty) x)
        result }
    ensures kept { Stays env.old env.new }
{
    match env.table().types().get(ty) {
        Ty::Array(element, length) => string_initial(env, tree, id, *length, *element),
        Ty::Struct(_) => Err(TypeError::Rule(tree.expr(id).from, 16)),
        _ => Ok(Initial::Scalar(known(env, tree, id, ty)?)),
    }
}

// What an array or a struct has that values in braces give, which begin at an offset.
#[cycle(values)]
fn listed(
    env: &mut Environment,
    tree: &Tree,
    from: u32,
    values: &[Value],
    ty: TypeId,
) -> Result<Initial, TypeError>
    requires values { AreValues tree.now values.now }
    requires ty { ty.0 < length env.old.table.types }
    ensures agrees { (xs : Writtens) → StandValues tree.now values.now xs →
        Finds env.old env.new IsInitial (initial_by_rules (Braces from xs) env.old.env
        (type_at env.old.table.types ty)) result }
    ensures kept { Stays env.old env.new }
{
    match env.table().types().get(ty) {
        Ty::Array(element, length) => {
            let (element, length) = (*element, *length);
            Ok(Initial::Listed(elements(env, tree, values, element, length)?))
        }
        Ty::Struct(number) => {
            let number = *number;
            Ok(Initial::Listed(members(env, tree, values, number)?))
        }
        _ => Err(TypeError::Rule(from, 16)),
    }
}

// The offset of a value.
fn start_of_value(tree: &Tree, value: &Value) -> u32
    requires { IsValue tree.now value.now }
    ensures { (x : Written) → StandsValue tree.now value.now x → result ≡ start_by_rules x }
{
    match value {
        Value::Plain(id) => tree.expr(*id).from,
        Value::Braces { from, .. } => *from,
    }
}

// What the first elements of an array have, which has so many.
#[cycle(values)]
fn elements(
    env: &mut Environment,
    tree: &Tree,
    values: &[Value],
    element: TypeId,
    count: u64,
) -> Result<Vec<Initial>, TypeError>
    requires values { AreValues tree.now values.now }
    requires element { element.0 < length env.old.table.types }
    ensures agrees { (xs : Writtens) → StandValues tree.now values.now xs →
        Finds env.old env.new (λ ys v. AreInitials ys v.items)
        (elements_by_rules xs env.old.env count (type_at env.old.table.types element)) result }
    ensures kept { Stays env.old env.new }
{
    let mut found = Vec::with_capacity(env.alloc(), values.len())?;
    for (place, value) in values.iter().enumerate() {
        if place as u64 >= count {
            return Err(TypeError::Rule(start_of_value(tree, value), 16));
        }
        let one = initial(env, tree, value, element)?;
        found.push(one).map_err(AllocError::from)?;
    }
    Ok(found)
}

// What the first members of a struct have.
#[cycle(values)]
fn members(
    env: &mut Environment,
    tree: &Tree,
    values: &[Value],
    number: StructId,
) -> Result<Vec<Initial>, TypeError>
    requires values { AreValues tree.now values.now }
    ensures agrees { (xs : Writtens) → StandValues tree.now values.now xs →
        Finds env.old env.new (λ ys v. AreInitials ys v.items)
        (members_by_rules xs env.old.env (types_in env.old.env.structs number.0)) result }
    ensures kept { Stays env.old env.new }
{
    let mut found = Vec::with_capacity(env.alloc(), values.len())?;
    for (place, value) in values.iter().enumerate() {
        let Some(ty) = env.member_type(number, place) else {
            return Err(TypeError::Rule(start_of_value(tree, value), 16));
        };
        let one = initial(env, tree, value, ty)?;
        found.push(one).map_err(AllocError::from)?;
    }
    Ok(found)
}
