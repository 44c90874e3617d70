//! Instructions as they are put, before it is known that all fit.

ghost use Rattle.std.specs.Prelude.{◌≡◌};
ghost use Rattle.c_lower_bodies.specs.Short.{IsShort};
ghost use Rattle.c_lower_bodies.specs.Steps.{instr_in};

use c_code::Instr;

/// An instruction. That the number of a function and the count of its arguments fit is known once the code is whole, so till then a
/// call has room for any.
#[derive(Clone, Copy)]
pub(crate) enum Step {
    Instr(Instr),
    Call(u32, usize),
    CallPointer(u32, usize),
}

impl Step {
    /// The instruction.
    pub(crate) fn instr(self) -> Instr
        requires { IsShort (instr_in self) }
        ensures { result ≡ instr_in self }
    {
        match self {
            Step::Instr(instr) => instr,
            Step::Call(number, count) => Instr::Call(number as u16, count as u8),
            Step::CallPointer(sig, count) => Instr::CallPointer(sig, count as u8),
        }
    }
}
