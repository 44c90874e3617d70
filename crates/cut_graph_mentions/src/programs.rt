//! All that a program mentions.

ghost use Rattle.std.specs.Prelude.{◌≡◌, map, IfOk};
ghost use Rattle.std.specs.List.{All};
ghost use Rattle.c_types_rules.specs.Sources.{Program};
ghost use Rattle.c_types_program.specs.Declarations.{IsFunction, IsGlobal, function_in, global_in};
ghost use Rattle.c_types_program.specs.Programs.{IsProgram};
ghost use Rattle.cut_graph_rules.specs.Sources.{function_mentions, global_mentions, mentions_of};

use crate::bodies::{in_function, in_global};
use crate::by_number::Mentions;
use c_syntax::Seq;
use c_types_nodes::TypedTable;
use c_types_program::{Function, Global as GlobalObject, TypedProgram};
use cut_graph_rules::Mention;
use std::alloc::{AllocError, Global};

fn in_functions(
    alloc: Global,
    table: &TypedTable,
    functions: &[Function],
) -> Result<Vec<Seq<Mention>>, AllocError>
    requires { All (IsFunction table.now) functions.now }
    ensures { IfOk result (λ v. v.items ≡ map (λ f. function_mentions f.body)
        (map (function_in table.now) functions.now)) }
{
    let mut lists = Vec::with_capacity(alloc, functions.len())?;
    for function in functions {
        lists.push(in_function(alloc, table, function)?)?;
    }
    Ok(lists)
}

fn in_globals(
    alloc: Global,
    table: &TypedTable,
    globals: &[GlobalObject],
) -> Result<Vec<Seq<Mention>>, AllocError>
    requires { All (IsGlobal table.now) globals.now }
    ensures { IfOk result (λ v. v.items ≡ map global_mentions (map (global_in table.now) globals.now)) }
{
    let mut lists = Vec::with_capacity(alloc, globals.len())?;
    for global in globals {
        lists.push(in_global(alloc, table, global)?)?;
    }
    Ok(lists)
}

/// What the functions and globals of a program mention, in time linear in it.
///
/// `AllocError` where there is no memory for it.
pub fn mentions(alloc: Global, program: &TypedProgram) -> Result<Mentions, AllocError>
    ensures { (source : Program) → IsProgram program.now source →
        IfOk result (λ m. m ≡ mentions_of source) }
{
    let functions = in_functions(alloc, program.table(), program.functions())?;
    let globals = in_globals(alloc, program.table(), program.globals())?;
    Ok(Mentions::new(functions, globals))
}
