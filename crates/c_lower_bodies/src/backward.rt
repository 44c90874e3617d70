//! Code that is made from its end.

ghost use Rattle.std.specs.Prelude.{◌≡◌, ◌∷◌, ◌++◌, ◌<◌, [], List, length, OnOk};
ghost use Rattle.std.specs.List.{All};
ghost use Rattle.c_code.specs.declared.instr.Instr.{Instr};
ghost use Rattle.c_lower_bodies.specs.Short.{IsShort};
ghost use Rattle.c_lower_bodies.specs.Steps.{instr_in};

use crate::step::Step;
use c_code::Instr;
use std::alloc::{AllocError, Global};
use std::marker::Model;

/// Instructions, of which the last was put first. So how far a jump leads forward is known where it is put. Contracts see
/// the instructions in the order in which they are run.
#[derive(Drop)]
pub struct Backward {
    reversed: Vec<Step>,
}

impl Model for Backward {
    ghost use Rattle.std.specs.Prelude.{List};
    ghost use Rattle.c_code.specs.declared.instr.Instr.{Instr};
    ghost use Rattle.c_lower_bodies.specs.Steps.{code_in};

    ghost Value = { List Instr };

    ghost view = { λ c. code_in c.reversed.items };
}

impl Backward {
    /// No instructions.
    pub(crate) fn new(alloc: Global) -> Backward
        ensures { result ≡ [] }
    {
        Backward {
            reversed: Vec::new(alloc),
        }
    }

    /// Puts an instruction before the others. `AllocError` only where there is no memory for it.
    pub(crate) fn put(&mut self, instr: Instr) -> Result<(), AllocError>
        ensures { OnOk result (self.new ≡ instr ∷ self.old) }
    {
        self.put_step(Step::Instr(instr))
    }

    /// The same of a call whose numbers may not fit.
    pub(crate) fn put_step(&mut self, step: Step) -> Result<(), AllocError>
        ensures { OnOk result (self.new ≡ instr_in step ∷ self.old) }
    {
        self.reversed.push(step)?;
        Ok(())
    }

    /// How many there are.
    pub(crate) fn len(&self) -> usize
        ensures { result ≡ length self.now }
    {
        self.reversed.len()
    }

    /// Puts an instruction in the place of the one that so many follow.
    pub(crate) fn replace(&mut self, following: usize, instr: Instr)
        requires { following < length self.old }
        ensures { (before after : List Instr) (old : Instr) → self.old ≡ before ++ (old ∷ after) →
            length after ≡ following → self.new ≡ before ++ (instr ∷ after) }
    {
        self.reversed[following] = Step::Instr(instr);
    }

    /// Puts the instructions, whose numbers fit, at the end of others. `AllocError` only where there is no memory for them; some
    /// are then there.
    pub fn append_to(self, instrs: &mut Vec<Instr>) -> Result<(), AllocError>
        requires { All IsShort self }
        ensures { OnOk result (instrs.new.items ≡ instrs.old.items ++ self) }
    {
        let mut reversed = self.reversed;
        instrs.reserve(reversed.len())?;
        while let Some(step) = reversed.pop() {
            instrs.push(step.instr())?;
        }
        Ok(())
    }
}
