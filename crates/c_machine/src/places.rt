// Places of code and of objects.

ghost use Rattle.std.specs.Prelude.{◌≡◌, ◌+◌, ◌<◌, ◌^◌, slice_get};
ghost use Rattle.c_code.specs.Machine.{Flat, next, at_place, address_of, in_frame as frame_address, push as pushed};
ghost use Rattle.c_machine.specs.Positions.{laid};

use c_code::{Activation, Place, Placed, Push};

// What is put on top.
#[inline(always)]
pub(crate) fn push_value(what: &Push, a: &Activation, placed: &Placed) -> u64
    ensures { (code : Flat) → result ≡ pushed (laid code placed.now) what.now a.now }
{
    match what {
        Push::Number(n) => *n,
        Push::Local(offset) => in_frame(a, *offset),
        Push::Global(g) => address(placed.globals.as_slice(), *g),
        Push::Text(s) => address(placed.strings.as_slice(), *s),
    }
}

// The address of the byte so far after the first byte of the frame.
#[inline(always)]
pub(crate) fn in_frame(a: &Activation, offset: u64) -> u64
    ensures { result ≡ frame_address a.now offset }
{
    a.base.wrapping_add(offset)
}

// The address of the object with the number; 0 where there is none.
#[inline(always)]
fn address(objects: &[Place], number: u32) -> u64
    ensures { result ≡ address_of (slice_get objects.now number) }
{
    match objects.get(number as usize) {
        Some(object) => object.addr,
        None => 0,
    }
}

// The next instruction.
#[inline(always)]
pub(crate) fn next(a: Activation) -> Activation
    requires { a.at + 1 < 2 ^ 64 }
    ensures { result ≡ next a }
{
    at_place(a, a.at + 1)
}

// The same activation at another instruction.
#[inline(always)]
pub(crate) fn at_place(a: Activation, at: usize) -> Activation
    ensures { result ≡ at_place at a }
{
    Activation {
        at,
        base: a.base,
        size: a.size,
        side: a.side,
    }
}
