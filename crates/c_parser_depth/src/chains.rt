// The longest chains of the pieces of a tree, on a stack.

ghost use Rattle.std.specs.Prelude.{◌≡◌, ◌∷◌, [], OnOk};
ghost use Rattle.c_parser_depth.specs.Chains.{top, rest, longest_of, rests, held_by};
ghost use Rattle.c_parser_depth.specs.Effects.{affected};
ghost use Rattle.c_parser_depth.specs.Seen.{seen};

use crate::chain::Chain;
use crate::effect::Effect;
use std::alloc::{AllocError, Global};

/// A longest chain of each piece on the stack.
#[derive(Drop)]
pub struct Chains {
    stack: Vec<Chain>,
}

impl Chains {
    pub fn new(alloc: Global) -> Self
        ensures { seen result ≡ [] }
    {
        Chains {
            stack: Vec::new(alloc),
        }
    }

    /// The chain of the piece at the top, which goes.
    pub fn pop(&mut self) -> Chain
        ensures top { result ≡ top (seen self.old) }
        ensures rest { seen self.new ≡ rest (seen self.old) }
    {
        self.stack.pop().unwrap_or(Chain::none())
    }

    fn push(&mut self, chain: Chain) -> Result<(), AllocError>
        ensures { OnOk result (seen self.new ≡ chain ∷ seen self.old) }
    {
        self.stack.push(chain)?;
        Ok(())
    }

    /// The longest chain of so many pieces at the top, which go.
    fn take(&mut self, count: u8) -> Chain
        ensures longest { result ≡ longest_of count (seen self.old) }
        ensures rest { seen self.new ≡ rests count (seen self.old) }
    {
        let mut longest = Chain::none();
        for _ in 0..count {
            longest = longest.longer(self.pop());
        }
        longest
    }

    /// The chains after an action.
    pub fn apply(&mut self, effect: Effect) -> Result<(), AllocError>
        ensures { OnOk result (seen self.new ≡ affected effect (seen self.old)) }
    {
        match effect {
            Effect::Join(count, node) => {
                let longest = self.take(count);
                self.push(node.map_or(longest, |from| longest.under(from)))
            }
            Effect::Declare(count) => {
                let longest = self.take(count);
                let specs = self.pop();
                self.push(specs)?;
                self.push(longest.longer(specs))
            }
            Effect::AddName => {
                let name = self.pop();
                let specs = self.pop();
                let names = self.pop();
                self.push(names.longer(name))?;
                self.push(specs)
            }
            Effect::EndSpecs => {
                self.pop();
                Ok(())
            }
            Effect::DropSpecs => {
                let name = self.pop();
                self.pop();
                self.push(name)
            }
        }
    }
}
