// What the answer to an instruction's mark does.

ghost use Rattle.std.specs.Prelude.{◌≡◌, ◌+◌, ◌^◌, ◌%◌, ◌<◌, ◌≤◌, ℕ, List, if◌then◌else◌, length};
ghost use Rattle.c_code.specs.declared.instr.Instr.TheVariants as instrs;
ghost use Rattle.c_code.specs.Machine.{Laid};
ghost use Rattle.c_code.specs.Valid.{needs};
ghost use Rattle.c_code.specs.Values.{converted};
ghost use Rattle.c_machine_stack.specs.Stacks.{held};
ghost use Rattle.c_machine.specs.Acts.{IsHearing};

use crate::operators::convert;
use crate::outcome::{Edit, Heard};
use crate::tops::is_pool;
use c_code::{Activation, Instr};
use c_machine_stack::Stack;
use r2_num::IntKind;

// What the answer to the instruction's mark does; nothing leads on where it makes none.
#[inline(always)]
pub(crate) fn hearing(instr: &Instr, a: &Activation, values: &Stack<u64>) -> Heard
    requires enough { needs instr.now ≤ length (held values.now) }
    requires place { a.now.at + 1 < 2 ^ 64 }
    ensures { (l : Laid) → IsHearing l instr.now a.now (held values.now) result }
{
    let next = a.at + 1;
    match instr {
        Instr::Load(kind, _) => Heard::Loads(*kind, next),
        Instr::LoadKeep(kind, _) => Heard::LoadsAbove(*kind, next),
        Instr::Store(_, _) => Heard::Goes(Edit::Join(values.peek()), next),
        Instr::StoreLocal(_, _) => Heard::Goes(Edit::Drop, next),
        Instr::StoreStep(kind, by, old, _) => {
            Heard::Goes(Edit::Join(kept(*kind, *by, *old, values.peek())), next)
        }
        Instr::Turn => Heard::Goes(Edit::Keep, next),
        Instr::GoBack(n) => Heard::Goes(Edit::Keep, a.at.saturating_sub(*n)),
        Instr::Call(func, n) => hearing_call(*func, *n, a),
        Instr::Finish => Heard::Ends,
        Instr::Push(_) => Heard::Nothing,
        Instr::Change(_) => Heard::Nothing,
        Instr::Combine(_) => Heard::Nothing,
        Instr::EndIfZero(_) => Heard::Nothing,
        Instr::EndUnlessZero(_) => Heard::Nothing,
        Instr::SkipIfZero(_) => Heard::Nothing,
        Instr::GoOn(_) => Heard::Nothing,
        Instr::CallPointer(_, _) => Heard::Nothing,
        Instr::Drop => Heard::Nothing,
    }
}

// What a step of a stored value leaves: the value before it, or the one after it.
#[inline(always)]
fn kept(kind: IntKind, by: u64, old: bool, value: u64) -> u64
    ensures { result ≡ (if old then value else converted kind ((value + by) % 2 ^ 64)) }
{
    if old {
        value
    } else {
        convert(kind, value.wrapping_add(by))
    }
}

// The same of a call, which makes a mark where it is an event of the pool.
#[inline(never)]
fn hearing_call(func: u16, n: u8, a: &Activation) -> Heard
    requires place { a.now.at + 1 < 2 ^ 64 }
    ensures { (l : Laid) (vs : List ℕ) → n ≤ length vs → IsHearing l (instrs.Call func n) a.now vs result }
{
    if !is_pool(a.side, func) {
        return Heard::Nothing;
    }
    if func == 0 {
        Heard::Takes(n, a.at + 1)
    } else {
        Heard::Goes(Edit::Give(n, 0), a.at + 1)
    }
}
