//! The bytes of a new frame.

ghost use Rattle.std.specs.Prelude.{◌≡◌, ◌++◌, ◌-◌, ◌≤◌, length, replicate, IfOk, OnOk};
ghost use Rattle.std.specs.Int.{next_multiple_of};
ghost use Rattle.c_code.specs.Frames.{frame_bytes as bytes_of_frame, params_bytes, size_of as shape_size};
ghost use Rattle.c_code.specs.Machine.{Laid, frame_of};
ghost use Rattle.reference_recorder_acts.specs.Bytes.{with_param};

use crate::bytes::push_number;
use c_code::{FuncInfo, Shape};
use c_code_fused::FusedCode;
use r2_num::IntKind;
use std::alloc::{AllocError, Global};

// The bytes of a new frame of the function with these arguments: each where its parameter lies, and zeros.
pub(crate) fn frame_bytes(
    alloc: Global,
    code: &FusedCode,
    func: u16,
    args: &[u64],
) -> Result<Vec<u8>, AllocError>
    ensures { (l : Laid) → l.code ≡ code.now → IfOk result (λ bytes. bytes.items ≡ frame_of l func args.now) }
{
    match code.func(func) {
        Some(info) => filled_frame(alloc, info, args),
        None => Ok(Vec::new(alloc)),
    }
}

fn filled_frame(alloc: Global, info: &FuncInfo, args: &[u64]) -> Result<Vec<u8>, AllocError>
    ensures { IfOk result (λ bytes. bytes.items ≡ bytes_of_frame info.now args.now) }
{
    let mut bytes = Vec::new(alloc);
    push_params(&mut bytes, info.params.as_slice(), args)?;
    let filled = bytes.len() as u64;
    push_zeros(&mut bytes, info.frame.saturating_sub(filled))?;
    Ok(bytes)
}

// Adds the arguments of parameters of these types.
fn push_params(bytes: &mut Vec<u8>, params: &[Shape], args: &[u64]) -> Result<(), AllocError>
    ensures { OnOk result (bytes.new.items ≡
        bytes.old.items ++ params_bytes (length bytes.old.items) params.now args.now) }
{
    let [shape, shapes @ ..] = params else {
        return Ok(());
    };
    let [arg, rest @ ..] = args else {
        return Ok(());
    };
    push_param(bytes, *shape, *arg)?;
    push_params(bytes, shapes, rest)
}

fn push_param(bytes: &mut Vec<u8>, shape: Shape, value: u64) -> Result<(), AllocError>
    ensures { OnOk result (bytes.new.items ≡ with_param bytes.old.items shape value) }
{
    let width = size_of(shape);
    let filled = bytes.len() as u64;
    push_zeros(bytes, zeros_before(filled, width))?;
    push_number(bytes, width, value)
}

fn push_zeros(bytes: &mut Vec<u8>, count: u64) -> Result<(), AllocError>
    ensures { OnOk result (bytes.new.items ≡ bytes.old.items ++ replicate count 0) }
{
    for _zero in 0..count {
        bytes.push(0)?;
    }
    Ok(())
}

// How many zeros come before a parameter of so many bytes, where so many lie before it.
fn zeros_before(end: u64, width: u8) -> u64
    ensures { result ≡ next_multiple_of end width - end }
{
    if width == 0 {
        return 0;
    }
    let width = u64::from(width);
    (width - end % width) % width
}

// The size of a type in bytes.
fn size_of(shape: Shape) -> u8
    ensures { result ≡ shape_size shape }
{
    match shape {
        Shape::Void => 0,
        Shape::Int(kind) => bytes_of(kind),
        Shape::Pointer => 8,
    }
}

fn bytes_of(kind: IntKind) -> u8
    ensures { result ≡ shape_size (Shape.Int kind) }
{
    match kind {
        IntKind::I8 | IntKind::U8 => 1,
        IntKind::I16 | IntKind::U16 => 2,
        IntKind::I32 | IntKind::U32 => 4,
        IntKind::I64 | IntKind::U64 => 8,
    }
}
