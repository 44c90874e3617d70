// The tree that actions build.

ghost use Rattle.std.specs.Prelude.{IfOk, IfErr};
ghost use Rattle.c_parser_actions.specs.Builds.{Builds};
ghost use Rattle.c_syntax.specs.Stands.{Holds};
ghost use Rattle.c_syntax.specs.Syntax.{Decls};
ghost use Rattle.c_parser_tree.specs.Braced.{IsBraced};
ghost use Rattle.c_parser_tree.specs.Seen.{nodes_seen, stack_seen};
ghost use Rattle.c_parser_tree.specs.Stacked.{Steps, IsFinished};
ghost use Rattle.c_parser_tree.specs.Unfit.{IsUnfit};

use crate::builder::{BuildError, Builder};
use c_parser_moves::Action;
use c_syntax::{Tree, Value};
use std::alloc::Global;

impl Builder {
    /// Makes a value of the list of values on top.
    fn close_braces(&mut self, from: u32) -> Result<(), BuildError>
        ensures { IsBraced from (nodes_seen self.old) (stack_seen self.old) result self.new }
    {
        let values = self.pop_values()?.into_vec();
        self.put_value(Value::Braces { from, values })
    }

    /// Does an action.
    fn step(&mut self, action: Action) -> Result<(), BuildError>
        ensures { Steps action self.old result self.new }
    {
        match action {
            Action::Braces(from) => self.close_braces(from),
            other => self.make_leaf(other),
        }
    }

    /// The tree, whose declarations are the list that waits.
    fn finish(mut self) -> Result<Tree, BuildError>
        ensures { IsFinished result self }
    {
        match self.pop_decls() {
            Ok(tops) => Ok(Tree::new(self.decls, self.stmts, self.exprs, tops.into_vec())),
            Err(error) => Err(error),
        }
    }
}

/// The tree that these actions build.
///
/// `Memory` is also the answer where a tree would have more than 2^32 - 1 nodes of a kind, which the numbers
/// of nodes can't tell apart.
pub fn build(alloc: Global, actions: Vec<Action>) -> Result<Tree, BuildError>
    // The tree holds each source that they build.
    ensures built { IfOk result (λ t. (ds : Decls) → Builds actions.items ds → Holds t ds) }
    // Actions are unfit that build no source.
    ensures unfit { IfErr result (λ e. IsUnfit actions.items e) }
{
    let mut builder = Builder::new(alloc, actions.len() / 2)?;
    for action in actions {
        builder.step(action)?;
    }
    builder.finish()
}
