// How many nodes the pieces of a tree have, on a stack.

ghost use Rattle.std.specs.Prelude.{◌≡◌, ◌∷◌, [], OnOk};
ghost use Rattle.c_parser_nodes.specs.Effects.{affected};
ghost use Rattle.c_parser_nodes.specs.Tallies.{rest, rests, seen, sum_of, top};

use crate::effect::Effect;
use crate::tally::Tally;
use std::alloc::{AllocError, Global};

/// The tally of each piece on the stack.
#[derive(Drop)]
pub struct Tallies {
    stack: Vec<Tally>,
}

impl Tallies {
    pub fn new(alloc: Global) -> Self
        ensures { seen result ≡ [] }
    {
        Tallies {
            stack: Vec::new(alloc),
        }
    }

    /// The tally of the piece at the top, which goes.
    pub fn pop(&mut self) -> Tally
        ensures top { result ≡ top (seen self.old) }
        ensures rest { seen self.new ≡ rest (seen self.old) }
    {
        self.stack.pop().unwrap_or(Tally::none())
    }

    fn push(&mut self, tally: Tally) -> Result<(), AllocError>
        ensures { OnOk result (seen self.new ≡ tally ∷ seen self.old) }
    {
        self.stack.push(tally)?;
        Ok(())
    }

    /// How many nodes so many pieces at the top have, which go.
    fn take(&mut self, count: u8) -> usize
        ensures sum { result ≡ sum_of count (seen self.old) }
        ensures rest { seen self.new ≡ rests count (seen self.old) }
    {
        let mut nodes: usize = 0;
        for _ in 0..count {
            nodes = nodes.saturating_add(self.pop().nodes);
        }
        nodes
    }

    /// A piece of so many at the top, with as many nodes of its own.
    fn join(&mut self, count: u8, own: usize) -> Result<(), AllocError>
        ensures { OnOk result (seen self.new ≡ affected (Effect.Join count own) (seen self.old)) }
    {
        let nodes = self.take(count).saturating_add(own);
        self.push(Tally {
            nodes,
            once: 0,
            list: None,
        })
    }

    /// The tallies after an action.
    pub fn apply(&mut self, effect: Effect) -> Result<(), AllocError>
        ensures { OnOk result (seen self.new ≡ affected effect (seen self.old)) }
    {
        match effect {
            Effect::Join(count, own) => self.join(count, own),
            Effect::Keep => Ok(()),
            Effect::Annotation(from) => self.push(Tally::annotation(from)),
            Effect::Extend => {
                let last = self.pop();
                let list = self.pop();
                self.push(list.extended(last))
            }
            Effect::Declare(count) => {
                let nodes = self.take(count);
                let specs = self.pop();
                self.push(specs)?;
                self.push(specs.declared(nodes))
            }
            Effect::AddName => {
                let name = self.pop();
                let specs = self.pop();
                let names = self.pop();
                self.push(names.named(name))?;
                self.push(specs)
            }
            Effect::EndSpecs => {
                self.pop();
                Ok(())
            }
            Effect::DropSpecs => {
                let name = self.pop();
                self.pop();
                self.push(name)
            }
            Effect::AddStruct => {
                let members = self.pop();
                self.pop();
                let names = self.pop();
                self.push(names.with_struct(members))
            }
        }
    }
}
