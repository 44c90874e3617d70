// The arguments on top of the values, and what is known of the functions that are called with them.

ghost use Rattle.std.specs.Prelude.{◌≡◌, ℕ, ◌+◌, ◌<◌, ◌≤◌, List, [], length, take, drop, reverse, IsTrue, IsFalse, Some, None};
ghost use Rattle.memory_map.specs.declared.placed.Placed.{Placed as Places};
ghost use Rattle.c_code.specs.declared.activation.Activation.{Activation};
ghost use Rattle.c_code.specs.declared.activation.Waiting.{Waiting};
ghost use Rattle.c_code.specs.Valid.{IsValid};
ghost use Rattle.c_code.specs.Machine.{Flat, Laid, take_args, with_args, pointer_act, to_callee, is_pool as pool_of, is_face as face_of, callee as callee_of, func_of, entry_of, has_sig as has_type};
ghost use Rattle.c_code.specs.MarkLists.{result_shape as shape_of};
ghost use Rattle.c_machine_stack.specs.Stacks.{held};
ghost use Rattle.c_machine.specs.Positions.{laid};
ghost use Rattle.c_machine.specs.Wants.{frame_size as size_of};

use c_code::{Placed, Shape, Side};
use c_code_fused::FusedCode;
use c_machine_stack::Stack;
use marks::function_address;

// Whether there are so many values.
pub(crate) fn has_args(values: &Stack<u64>, n: u8) -> bool
    ensures yes { IsTrue result → take_args n [] (held values.now) ≡
        Some (reverse (take n (held values.now)), drop n (held values.now)) }
    ensures no { IsFalse result → take_args n [] (held values.now) ≡ None }
    ensures enough { IsTrue result → n ≤ length (held values.now) }
{
    if n as usize <= values.len() {
        true
    } else {
        false
    }
}

// The value below so many arguments.
pub(crate) fn address_below(values: &Stack<u64>, n: u8) -> u64
    requires { n < length (held values.now) }
    ensures { (l : Laid) (sig : ℕ) (a : Activation) (ws : List Waiting) →
        with_args (take_args n [] (held values.now)) (pointer_act l sig a (held values.now) ws) ≡
        to_callee (callee_of l sig result) a (reverse (take n (held values.now))) (held values.now)
        (drop (n + 1) (held values.now)) ws }
{
    let top = values.top_slice(n as usize + 1);
    top[0]
}

// The function of the source at the address, where it is of the type.
pub(crate) fn callee(code: &FusedCode, sig: u32, address: u64) -> Option<u16>
    requires { IsValid code.now }
    ensures { (placed : Places) → result ≡ callee_of (laid code.now placed) sig address }
{
    let number = address.saturating_sub(function_address(0)) / 16;
    if number >= 0x1_0000 {
        return None;
    }
    let func = number as u16;
    if address == function_address(func) && func >= 16 && has_sig(code, sig, func) {
        Some(func)
    } else {
        None
    }
}

// Whether the function is of the type.
fn has_sig(code: &FusedCode, sig: u32, func: u16) -> bool
    ensures { result ≡ has_type sig (func_of code.now func) }
{
    match code.func(func) {
        Some(info) => info.sig == sig,
        None => false,
    }
}

// Whether a call of the function from this side is an event of the pool.
pub(crate) fn is_pool(side: Side, func: u16) -> bool
    ensures { result ≡ pool_of side func }
{
    match side {
        Side::Replay => func < 2,
        Side::System => false,
    }
}

// Whether the function is in the interface.
pub(crate) fn is_face(placed: &Placed, func: u16) -> bool
    ensures { (code : Flat) → result ≡ face_of (laid code placed.now) func }
{
    match placed.faces.as_slice().get(func as usize) {
        Some(flag) => *flag,
        None => false,
    }
}

// The type of the function's result.
pub(crate) fn result_shape(code: &FusedCode, func: u16) -> Shape
    ensures { result ≡ shape_of (func_of code.now func) }
{
    match code.func(func) {
        Some(info) => info.result,
        None => Shape::Void,
    }
}

// The first instruction of the function, where it has a body.
pub(crate) fn first_at(code: &FusedCode, func: u16) -> Option<usize>
    ensures { result ≡ entry_of (func_of code.now func) }
{
    match code.func(func) {
        Some(info) => info.entry,
        None => None,
    }
}

// The bytes of the function's frame.
pub(crate) fn frame_size(code: &FusedCode, func: u16) -> u64
    ensures { result ≡ size_of (func_of code.now func) }
{
    match code.func(func) {
        Some(info) => info.frame,
        None => 0,
    }
}

// What is known of all code.
pub(crate) fn check(code: &FusedCode)
    ensures { IsValid code.now }
{
    let _instrs = code.instrs();
}
