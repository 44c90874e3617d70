//! The functions of a source, as far as their annotations ask.

ghost use Rattle.std.specs.Prelude.{◌≡◌, ◌<◌, codes, is_some, length, map, IfOk};
ghost use Rattle.std.specs.List.{All};
ghost use Rattle.c_scopes.specs.Scopes.{same_name};
ghost use Rattle.c_types_table.specs.Tables.{type_at};
ghost use Rattle.c_types_program.specs.Declarations.{function_in};
ghost use Rattle.annot_reader.specs.Headings.{AreHeadings, IsHeading, IsHeadingOf};
ghost use Rattle.annot_reader_functions.specs.Seen.{declared_by};
ghost use Rattle.annot_reader.specs.Sources.{IsFunctionType, IsTypedFunction};

use crate::source::Heading;
use annot_reader_functions::FunctionKind;
use c_types_environment::Environment;
use c_types_program::Function;
use c_types_table::{Ty, TypeId, TypeIds};
use std::alloc::{AllocError, Global};

// The same numbers again.
fn copied(alloc: Global, types: &[TypeId]) -> Result<TypeIds, AllocError>
    ensures { IfOk result (λ ids. ids ≡ types.now) }
{
    let items: Vec<TypeId> = types.iter().copied().collect(alloc)?;
    Ok(TypeIds::from(items))
}

fn kind_of(function: &Function) -> FunctionKind
    ensures main { result.is_main ≡ same_name function.now.name (codes "main") }
    ensures body { result.has_body ≡ is_some function.now.body }
{
    FunctionKind {
        is_main: function.name.as_slice() == b"main".as_slice(),
        has_body: function.body.is_some(),
    }
}

// What is known of a function.
fn heading(alloc: Global, env: &Environment, function: &Function) -> Result<Heading, AllocError>
    requires inside { function.now.ty.0 < length env.now.table.types }
    requires ty { IsFunctionType (type_at env.now.table.types function.now.ty) }
    ensures number { IfOk result (IsHeading (declared_by env.now)) }
    ensures function { IfOk result (λ h. IsHeadingOf (declared_by env.now) h
        (function_in env.now.table function.now)) }
{
    let kind = kind_of(function);
    match env.table().types().get(function.ty) {
        Ty::Function { result, params } => Ok(Heading {
            kind,
            result: *result,
            params: copied(alloc, params.as_slice())?,
        }),
        _ => unreachable!("it has a function's type"),
    }
}

/// What is known of the functions of a source. `AllocError` where there is no memory for it.
pub(crate) fn headings_of(
    alloc: Global,
    env: &Environment,
    functions: &[Function],
) -> Result<Vec<Heading>, AllocError>
    requires { All (IsTypedFunction env.now.table) functions.now }
    ensures numbers { IfOk result (λ v. All (IsHeading (declared_by env.now)) v.items) }
    ensures functions { IfOk result (λ v. AreHeadings (declared_by env.now) v.items
        (map (function_in env.now.table) functions.now)) }
{
    let mut headings = Vec::new(alloc);
    for function in functions {
        headings.push(heading(alloc, env, function)?)?;
    }
    Ok(headings)
}
