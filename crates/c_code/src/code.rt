//! Code: the functions of a program and their instructions.

use crate::instr::Instr;
use crate::lists::Shapes;
use crate::shape::Shape;
use memory_map::Bytes8;
use std::marker::Model;

// Functions with numbers below it are builtins.
const FIRST_SOURCE: u16 = 16;

/// What callers know of a function.
#[derive(Drop)]
pub struct FuncInfo {
    pub name: Bytes8,
    pub params: Shapes,
    pub result: Shape,
    /// The function's type: two functions have one number exactly where their types are equal. `int (void *)` has 0.
    pub sig: u32,
    /// The size of its frame in bytes.
    pub frame: u64,
    /// Its first instruction; `None` for a builtin or an external.
    pub entry: Option<usize>,
}

/// The code of a program. Each jump lands on an instruction, a backward one on a Turn. It is known at each
/// place the depth of the evaluation
/// stack, at most 64. A frame holds the parameters, and a call has one value per parameter.
#[derive(Drop)]
pub struct Code {
    builtins: Vec<FuncInfo>,
    sources: Vec<FuncInfo>,
    instrs: Vec<Instr>,
}

impl Model for Code {
    ghost use Rattle.c_code.specs.Machine.{Flat};
    ghost use Rattle.c_code.specs.Valid.{IsValid};

    ghost Value = { Flat };

    ghost view = { λ c. record {
      builtins = c.builtins.items;
      sources = c.sources.items;
      instrs =
          c.instrs.items;
    } };

    ghost invariant = { λ c. IsValid record {
      builtins = c.builtins.items;
      sources = c.sources.items;
      instrs = c.instrs.items;
    } };
}

impl Code {
    ghost use Rattle.std.specs.Prelude.{◌≡◌};
    ghost use Rattle.std.specs.Option.{option_copied};
    ghost use Rattle.c_code.specs.Machine.{func_of, flat};
    ghost use Rattle.c_code.specs.Valid.{IsValid};

    /// The code with these builtins, functions of the source and instructions.
    pub fn new(builtins: Vec<FuncInfo>, sources: Vec<FuncInfo>, instrs: Vec<Instr>) -> Code
        requires { IsValid (flat builtins.items sources.items instrs.items) }
        ensures { result ≡ flat builtins.items sources.items instrs.items }
    {
        Code {
            builtins,
            sources,
            instrs,
        }
    }

    /// The function with the number; `None` where no function has it.
    pub fn func(&self, number: u16) -> Option<&FuncInfo>
        ensures { option_copied result ≡ func_of self.now number }
    {
        if number < FIRST_SOURCE {
            self.builtins.get(number as usize)
        } else {
            self.sources.get((number - FIRST_SOURCE) as usize)
        }
    }

    /// The instructions.
    pub fn instrs(&self) -> &[Instr]
        ensures instrs { result.now ≡ self.now.instrs }
        ensures valid { IsValid self.now }
    {
        &self.instrs
    }
}
