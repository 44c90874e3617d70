//! Values, sizes and addresses of a call.

ghost use Rattle.std.specs.Prelude.{◌≡◌, ◌==◌, if◌then◌else◌, get_or, option_to_list, OnOk};
ghost use Rattle.std.specs.List.{All};
ghost use Rattle.r2_num.specs.Operations.{IsAnyValue};
ghost use Rattle.c_code.specs.Valid.{IsValid};
ghost use Rattle.stub_core.specs.Sizes.{size_of};
ghost use Rattle.stub_calls.specs.Calls.{is_within as within};
ghost use Rattle.stub_meaning.specs.Calls.{counted as counted_of, function_at as functions_at, number as number_of, numbers as numbers_of};

use c_code::{Code, Shape};
use marks::function_address;
use r2_num::wrap;
use std::alloc::AllocError;
use stub_core::{Size, Term, size};

/// Functions of a source have the numbers from it on.
const FIRST_SOURCE: u16 = 16;

/// The number that a value is.
pub fn number(shape: Shape, value: u64) -> i128
    ensures value { result ≡ number_of shape value }
    ensures range { IsAnyValue result }
{
    match shape {
        Shape::Void => 0,
        Shape::Int(kind) => wrap(kind, value as i128),
        Shape::Pointer => value as i128,
    }
}

/// The numbers that arguments are, as far as there are types for them.
pub fn read_numbers(
    numbers: &mut Vec<i128>,
    params: &[Shape],
    args: &[u64],
) -> Result<(), AllocError>
    ensures numbers { OnOk result (numbers.new.items ≡ numbers_of params.now args.now) }
    ensures range { OnOk result (All IsAnyValue numbers.new.items) }
{
    numbers.clear();
    for at in 0..params.len().min(args.len()) {
        numbers.push(number(params[at], args[at]))?;
    }
    Ok(())
}

/// The argument at a place, 0 where there is none.
pub fn argument(args: &[u64], param: u8) -> u64
    ensures { result ≡ get_or args.now param 0 }
{
    args.get(usize::from(param)).copied().unwrap_or(0)
}

/// Whether a term is no parameter, or one of so many.
fn is_within(term: Term, count: usize) -> bool
    ensures { result ≡ within count term }
{
    match term {
        Term::Const(_) => true,
        Term::Param(place) => usize::from(place) < count,
        Term::Return => true,
    }
}

/// The size for these numbers. A parameter without an argument counts as 0.
pub fn size_in(written: &Size, numbers: &[i128], outcome: i128) -> i128
    requires numbers { All IsAnyValue numbers.now }
    requires outcome { IsAnyValue outcome }
    ensures { result ≡ size_of written.now numbers.now outcome }
{
    if !is_within(written.a, numbers.len()) {
        return 0;
    }
    if let Some(term) = written.b {
        if !is_within(term, numbers.len()) {
            return 0;
        }
    }
    size(written, numbers, outcome)
}

/// How many bytes a size is: none where it is negative, and no more than a word can say.
pub fn counted(size: i128) -> u64
    ensures { result ≡ counted_of size }
{
    if size < 0 {
        0
    } else if size > u64::MAX as i128 {
        u64::MAX
    } else {
        size as u64
    }
}

/// How many bytes the region at an address has. NULL has none.
pub fn extent(addr: u64, size: i128) -> u64
    ensures { result ≡ (if addr == 0 then 0 else counted_of size) }
{
    if addr == 0 { 0 } else { counted(size) }
}

/// The function of the source at an address.
pub fn function_at(code: &Code, address: u64) -> Option<u16>
    requires { IsValid code.now }
    ensures { option_to_list result ≡ functions_at code.now address }
{
    let number = address.saturating_sub(function_address(0)) / 16;
    let func = u16::try_from(number).ok()?;
    if func < FIRST_SOURCE || address != function_address(func) {
        return None;
    }
    code.func(func)?;
    Some(func)
}
