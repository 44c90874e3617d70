//! The types of builtins.

ghost use Rattle.std.specs.Prelude.{IfOk};
ghost use Rattle.c_builtins.specs.Table.{ctype_of, prototype_of, thread_function as thread_function_type};
ghost use Rattle.c_types_model.specs.Types.{PointerTo};
ghost use Rattle.c_types_nodes.specs.Tables.{Keeps, Names};
ghost use Rattle.c_types_operators.specs.Calls.{AreNamed};

use c_builtins::{Builtin, BuiltinType};
use c_types_nodes::TypedTable;
use c_types_table::{Ty, TypeId, TypeIds};
use r2_num::IntKind;
use std::alloc::{AllocError, Global};

// `int (*)(void *)`, what a thread may run.
fn thread_function(alloc: Global, table: &mut TypedTable) -> Result<TypeId, AllocError>
    ensures names { IfOk result (λ id. Names table.new.types id (PointerTo thread_function_type)) }
    ensures kept { Keeps table.old table.new }
{
    let void = table.void_type();
    let argument = table.add_type(Ty::Pointer(void))?;
    let result = table.kind_type(IntKind::I32);
    let params = TypeIds::from(vec![in alloc; argument]?);
    let function = table.add_type(Ty::Function { result, params })?;
    table.add_type(Ty::Pointer(function))
}

// Puts a type of a builtin's parameter or result into the table.
fn add_plain(alloc: Global, table: &mut TypedTable, ty: BuiltinType) -> Result<TypeId, AllocError>
    ensures names { IfOk result (λ id. Names table.new.types id (ctype_of ty)) }
    ensures kept { Keeps table.old table.new }
{
    match ty {
        BuiltinType::Void => Ok(table.void_type()),
        BuiltinType::Int => Ok(table.kind_type(IntKind::I32)),
        BuiltinType::UnsignedLong => Ok(table.kind_type(IntKind::U64)),
        BuiltinType::VoidPointer => {
            let void = table.void_type();
            table.add_type(Ty::Pointer(void))
        }
        BuiltinType::CharPointer => {
            let char = table.kind_type(IntKind::I8);
            table.add_type(Ty::Pointer(char))
        }
        BuiltinType::ThreadFunction => thread_function(alloc, table),
    }
}

// Puts the types of a builtin's parameters into the table.
fn add_parameters(
    alloc: Global,
    table: &mut TypedTable,
    types: &[BuiltinType],
) -> Result<TypeIds, AllocError>
    ensures names { IfOk result (λ ids. AreNamed table.new.types ids types.now) }
    ensures kept { Keeps table.old table.new }
{
    let mut params = Vec::new(alloc);
    for ty in types {
        let param = add_plain(alloc, table, *ty)?;
        params.push(param)?;
    }
    Ok(TypeIds::from(params))
}

/// Puts the type that a builtin is declared with into the table.
///
/// `AllocError` where there is no memory, or no number, for one more type.
pub fn add_prototype(
    alloc: Global,
    table: &mut TypedTable,
    builtin: Builtin,
) -> Result<TypeId, AllocError>
    ensures names { IfOk result (λ id. Names table.new.types id (prototype_of builtin)) }
    ensures kept { Keeps table.old table.new }
{
    let result = add_plain(alloc, table, builtin.result())?;
    let params = add_parameters(alloc, table, builtin.params())?;
    table.add_type(Ty::Function { result, params })
}
