//! What callers know of functions.

ghost use Rattle.std.specs.Prelude.{◌≡◌, ◌<◌, ◌≤◌, ◌^◌, ◌++◌, length, map, Option, IfOk, OnOk};
ghost use Rattle.std.specs.List.{All};
ghost use Rattle.source_limits.specs.Limits.{greatest_frame};
ghost use Rattle.c_builtins.specs.Table.{prototype_of};
ghost use Rattle.c_types_program.specs.Declarations.{Declared, IsFunction};
ghost use Rattle.c_lower_layout.specs.Sources.{sig_in};
ghost use Rattle.c_lower_bodies.specs.Short.{IsShort};
ghost use Rattle.c_lower.specs.Lowered.{builtin_info as builtin_info_of, code_of, frame_of, info_of, known_info};

use crate::shapes::{builtin_shape, builtin_shapes, params, result_shape};
use c_builtins::{BUILTINS, Builtin};
use c_code::{FuncInfo, Instr};
use c_lower_bodies::Emitter;
use c_lower_layout::Index;
use c_types_program::Function;
use memory_map::Bytes8;
use std::alloc::{AllocError, Global};

// The number of the type of a builtin.
fn builtin_sig(builtin: Builtin) -> u32
    ensures { (p : Declared) → result ≡ sig_in p (prototype_of builtin) }
{
    match builtin {
        Builtin::Malloc => 1,
        Builtin::Free => 2,
        Builtin::Spawn => 3,
        Builtin::Join | Builtin::Lock | Builtin::Unlock => 4,
        Builtin::Print => 7,
    }
}

fn name(alloc: Global, bytes: &[u8]) -> Result<Bytes8, AllocError>
    ensures { IfOk result (λ n. n ≡ bytes.now) }
{
    Ok(Bytes8::from(Vec::from_slice(alloc, bytes)?))
}

fn builtin_info(alloc: Global, builtin: Builtin) -> Result<FuncInfo, AllocError>
    ensures { IfOk result (λ i. (p : Declared) → i ≡ builtin_info_of p builtin) }
{
    Ok(FuncInfo {
        name: name(alloc, builtin.name())?,
        params: builtin_shapes(alloc, builtin.params())?,
        result: builtin_shape(builtin.result()),
        sig: builtin_sig(builtin),
        frame: 0,
        entry: None,
    })
}

/// What callers know of the builtins, by number.
pub fn builtin_infos(alloc: Global) -> Result<Vec<FuncInfo>, AllocError>
    ensures { IfOk result (λ is. (p : Declared) → is.items ≡ map (builtin_info_of p) BUILTINS) }
{
    let mut infos = Vec::with_capacity(alloc, BUILTINS.len())?;
    for builtin in &BUILTINS {
        infos.push(builtin_info(alloc, *builtin)?)?;
    }
    Ok(infos)
}

// What callers know of a function with such a frame, which begins there.
fn info(
    alloc: Global,
    index: &Index,
    function: &Function,
    frame: u64,
    entry: Option<usize>,
) -> Result<FuncInfo, AllocError>
    requires { function.now.ty.0 < length index.now.table.types }
    ensures { IfOk result (λ i. i ≡ known_info index.now function.now frame entry) }
{
    let types = index.types();
    Ok(FuncInfo {
        name: name(alloc, function.name.as_slice())?,
        params: params(alloc, types, function.ty)?,
        result: result_shape(types, function.ty),
        sig: index.sig(function.ty),
        frame,
        entry,
    })
}

/// Puts the code of a function at the end of the other, and gives what callers know of it. `AllocError` only where there is no
/// memory.
pub fn function_info(
    alloc: Global,
    index: &Index,
    function: &Function,
    instrs: &mut Vec<Instr>,
) -> Result<FuncInfo, AllocError>
    requires inside { IsFunction index.now.table function.now }
    requires frame { frame_of index.now function.now.body ≤ greatest_frame }
    requires short { All IsShort (code_of index.now function.now.body) }
    ensures info { IfOk result (λ i. i ≡ info_of index.now (length instrs.old.items) function.now) }
    ensures code { OnOk result (instrs.new.items ≡ instrs.old.items ++
        code_of index.now function.now.body) }
{
    match &function.body {
        None => info(alloc, index, function, 0, None),
        Some(body) => {
            let entry = instrs.len();
            let frame = index.frame(alloc, body.locals.as_slice())?;
            let code = Emitter::new(index, &frame.offsets).body(alloc, body)?;
            code.append_to(instrs)?;
            info(alloc, index, function, frame.size, Some(entry))
        }
    }
}
