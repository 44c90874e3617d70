// What a call does.

ghost use Rattle.std.specs.Prelude.{◌≡◌, ◌+◌, ◌^◌, ◌<◌, ◌≤◌, true, length};
ghost use Rattle.memory_map.specs.declared.placed.Placed.{Placed as Places};
ghost use Rattle.c_code.specs.declared.instr.Instr.TheVariants as instrs;
ghost use Rattle.c_code.specs.Machine.{Laid, first, is_pool as is_pool_of};
ghost use Rattle.c_code.specs.Valid.{IsValid};
ghost use Rattle.c_machine_stack.specs.Stacks.{held};
ghost use Rattle.c_machine.specs.Acts.{IsOutcome};
ghost use Rattle.c_machine.specs.Positions.{laid};

use crate::outcome::{Edit, Heard, Outcome};
use crate::places::next;
use crate::tops::{address_below, callee, is_pool};
use crate::wants::Want;
use c_code::{Activation, Call};
use c_code_fused::FusedCode;
use c_machine_stack::Stack;
use marks::FaultKind;

// A call of a function by its number; of one of the pool by replay code it is an event.
pub(crate) fn call(func: u16, n: u8, a: Activation, values: &Stack<u64>) -> Outcome
    requires enough { n ≤ length (held values.now) }
    requires place { a.at + 1 < 2 ^ 64 }
    ensures { (l : Laid) → IsOutcome l (instrs.Call func n) a (held values.now) result }
{
    if is_pool(a.side, func) {
        return pool(func, n, a, values);
    }
    Outcome::Pends(Call {
        func,
        args: n,
        indirect: false,
        then: next(a),
    })
}

// An event of the pool: what it gives takes the place of the argument.
fn pool(func: u16, n: u8, a: Activation, values: &Stack<u64>) -> Outcome
    requires enough { n ≤ length (held values.now) }
    requires place { a.at + 1 < 2 ^ 64 }
    requires pool { is_pool_of a.side func ≡ true }
    ensures { (l : Laid) → IsOutcome l (instrs.Call func n) a (held values.now) result }
{
    let first = first_of(values.top_slice(n as usize));
    if func == 0 {
        Outcome::Asks(Want::Alloc { size: first }, Heard::Takes(n, a.at + 1))
    } else {
        Outcome::Asks(
            Want::Free { addr: first },
            Heard::Goes(Edit::Give(n, 0), a.at + 1),
        )
    }
}

// A call through an address. That of no function of the type is a fault.
pub(crate) fn call_through(
    sig: u32,
    n: u8,
    a: Activation,
    values: &Stack<u64>,
    code: &FusedCode,
) -> Outcome
    requires valid { IsValid code.now }
    requires enough { n < length (held values.now) }
    requires place { a.at + 1 < 2 ^ 64 }
    ensures { (placed : Places) → IsOutcome (laid code.now placed) (instrs.CallPointer sig n) a
        (held values.now) result }
{
    match callee(code, sig, address_below(values, n)) {
        Some(func) => Outcome::Pends(Call {
            func,
            args: n,
            indirect: true,
            then: next(a),
        }),
        None => Outcome::Asks(Want::Fault(FaultKind::BadCall.number()), Heard::Nothing),
    }
}

// The first argument, where there is one.
fn first_of(args: &[u64]) -> u64
    ensures { result ≡ first args.now }
{
    match args.first() {
        Some(value) => *value,
        None => 0,
    }
}
