//! The functions of a program that have no body.

ghost use Rattle.std.specs.Prelude.{◌≡◌, ℕ, ◌<◌, ◌≤◌, ◌-◌, List, length, IfOk, OnOk};
ghost use Rattle.sys_script_lines.specs.Externals.{external_named};
ghost use Rattle.c_types_table.specs.Tables.{type_at};
ghost use Rattle.sys_script.specs.Listing.{IsListed};
ghost use Rattle.sys_script.specs.Externals.{external_in, external_of, kind_range, pieces_of, range_of, result_range};

use annot_reader::Iface;
use annot_reader_words::Annots;
use c_builtins::FIRST_SOURCE_FUNCTION;
use c_types_program::{Function, TypedProgram};
use c_types_table::{Ty, TypeId, Types};
use r2_num::IntKind;
use std::alloc::{AllocError, Global};
use sys_script_lines::{External, Externals};

/// How far below 0 the values of a kind lie, and the greatest one.
fn kind_range(kind: IntKind) -> (u64, u64)
    ensures { result ≡ kind_range kind }
{
    match kind {
        IntKind::I8 => (0x80, 0x7f),
        IntKind::U8 => (0, 0xff),
        IntKind::I16 => (0x8000, 0x7fff),
        IntKind::U16 => (0, 0xffff),
        IntKind::I32 => (0x8000_0000, 0x7fff_ffff),
        IntKind::U32 => (0, 0xffff_ffff),
        IntKind::I64 => (0x8000_0000_0000_0000, 0x7fff_ffff_ffff_ffff),
        IntKind::U64 => (0, 0xffff_ffff_ffff_ffff),
    }
}

/// The same of a type; of one that has no values it is 0 alone.
fn range_of(types: &Types, ty: TypeId) -> (u64, u64)
    requires { ty.0 < length types.now }
    ensures { result ≡ range_of (type_at types.now ty) }
{
    match types.get(ty) {
        Ty::Int(kind) => kind_range(*kind),
        Ty::Pointer(_) => (0, u64::MAX),
        _ => (0, 0),
    }
}

/// The same of the result of a function of this type.
fn result_range(types: &Types, function: TypeId) -> (u64, u64)
    requires { function.0 < length types.now }
    ensures { result ≡ result_range (type_at types.now function) }
{
    match types.get(function) {
        Ty::Function { result, .. } => range_of(types, *result),
        _ => (0, 0),
    }
}

/// How many pieces of bytes an answer of a function has.
fn pieces_of(annots: &Annots) -> usize
    ensures { result ≡ pieces_of annots.now }
{
    let written = annots
        .params
        .as_slice()
        .iter()
        .filter(|param| param.writes.is_some())
        .count();
    if annots.commit.is_some() {
        written + 1
    } else {
        written
    }
}

/// What an answer of a function looks like that has this number.
fn external(types: &Types, iface: &Iface, func: u16, function: &Function) -> External
    requires { function.now.ty.0 < length types.now }
    ensures { result ≡ external_of types.now iface.now func function.now }
{
    let (below, most) = result_range(types, function.ty);
    External {
        func,
        below,
        most,
        pieces: pieces_of(iface.declared(func)),
    }
}

/// Puts a function in that has no body; one that has a body is passed over.
fn list_function(
    externals: &mut Externals,
    types: &Types,
    iface: &Iface,
    func: u16,
    function: &Function,
) -> Result<(), AllocError>
    requires { function.now.ty.0 < length types.now }
    ensures { OnOk result (IsListed types.now iface.now func function.now externals.old externals.new) }
{
    if function.body.is_some() {
        return Ok(());
    }
    let external = external(types, iface, func, function);
    externals.add(function.name.as_slice(), external)
}

/// The functions without a body.
pub(crate) fn externals_of(
    alloc: Global,
    program: &TypedProgram,
    iface: &Iface,
) -> Result<Externals, AllocError>
    requires { length program.now.functions ≤ 1000 }
    ensures { IfOk result (λ es. (name : List ℕ)
        → external_named name es ≡ external_in program.now iface.now name) }
{
    let types = program.table().types();
    let functions = program.functions();
    let mut externals = Externals::new(alloc);
    for (place, function) in functions.iter().enumerate() {
        let func = FIRST_SOURCE_FUNCTION + place as u16;
        list_function(&mut externals, types, iface, func, function)?;
    }
    Ok(externals)
}
