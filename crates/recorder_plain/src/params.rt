//! Where the arguments of a call lie in the frame of its function.

ghost use Rattle.std.specs.Prelude.{◌≡◌, ◌+◌, ◌≤◌, length};
ghost use Rattle.std.specs.Int.{next_multiple_of};
ghost use Rattle.source_limits.specs.Limits.{most_params};
ghost use Rattle.c_code.specs.Frames.{param_offsets, param_widths, size_of as shape_size};
ghost use Rattle.c_code.specs.Machine.{func_of};
ghost use Rattle.c_code.specs.Valid.{IsValid};
ghost use Rattle.recorder_plain.specs.Params.{params_of};

use arrayvec::ArrayVec;
use c_code::Shape;
use c_code_fused::FusedCode;
use r2_num::IntKind;

/// Where the arguments of a call lie in the frame of its function, in order: how far each lies from the frame's first byte, and how
/// many bytes it has.
#[derive(Drop)]
pub struct ParamPlaces {
    pub offsets: ArrayVec<u64, 8>,
    pub widths: ArrayVec<u8, 8>,
}

impl ParamPlaces {
    /// The places of the function's parameters.
    #[inline(always)]
    pub fn of(code: &FusedCode, func: u16) -> ParamPlaces
        ensures offsets { result.offsets.items ≡ param_offsets 0 (params_of (func_of code.now func)) }
        ensures widths { result.widths.items ≡ param_widths (params_of (func_of code.now func)) }
    {
        check(code);
        match code.func(func) {
            Some(info) => places_of(info.params.as_slice()),
            None => places_of(&[]),
        }
    }
}

// What is known of all code.
fn check(code: &FusedCode)
    ensures { IsValid code.now }
{
    let _instrs = code.instrs();
}

// The places of parameters of these types.
#[inline(always)]
fn places_of(params: &[Shape]) -> ParamPlaces
    requires { length params.now ≤ most_params }
    ensures offsets { result.offsets.items ≡ param_offsets 0 params.now }
    ensures widths { result.widths.items ≡ param_widths params.now }
{
    let mut places = ParamPlaces {
        offsets: ArrayVec::new(),
        widths: ArrayVec::new(),
    };
    let mut end = 0;
    for shape in params {
        let width = size_of(*shape);
        let offset = place_after(end, width);
        places.offsets.push(offset);
        places.widths.push(width);
        end = offset + u64::from(width);
    }
    places
}

// The size of a type in bytes.
fn size_of(shape: Shape) -> u8
    ensures size { result ≡ shape_size shape }
    ensures few { result ≤ 8 }
{
    match shape {
        Shape::Void => 0,
        Shape::Int(kind) => bytes_of(kind),
        Shape::Pointer => 8,
    }
}

fn bytes_of(kind: IntKind) -> u8
    ensures size { result ≡ shape_size (Shape.Int kind) }
    ensures few { result ≤ 8 }
{
    match kind {
        IntKind::I8 | IntKind::U8 => 1,
        IntKind::I16 | IntKind::U16 => 2,
        IntKind::I32 | IntKind::U32 => 4,
        IntKind::I64 | IntKind::U64 => 8,
    }
}

// Where a parameter of so many bytes lies, where those before it end here.
fn place_after(end: u64, width: u8) -> u64
    requires near { end ≤ 128 }
    requires few { width ≤ 8 }
    ensures place { result ≡ next_multiple_of end width }
    ensures near { result ≤ end + width }
{
    if width == 0 {
        return end;
    }
    end.next_multiple_of(u64::from(width))
}
