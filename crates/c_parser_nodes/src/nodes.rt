// The nodes of a whole source.

ghost use Rattle.std.specs.Prelude.{IfOk};
ghost use Rattle.c_parser_nodes.specs.Counts.{IsCount};

use crate::effect::effect_of;
use crate::tallies::Tallies;
use c_parser_moves::Action;
use std::alloc::{AllocError, Global};

/// How many nodes the source has that these actions build: its statements, expressions and values in braces, and of each declarator its
/// parts and its name, or the place where it lacks one. A list of annotations that stands before several names counts once. More than
/// 2^64 - 1 count as that.
///
/// Takes time and memory linear in the actions. Of actions that build no source the answer says nothing.
pub fn node_count(alloc: Global, actions: &[Action]) -> Result<usize, AllocError>
    ensures { IfOk result (IsCount actions.now) }
{
    let mut tallies = Tallies::new(alloc);
    for action in actions {
        tallies.apply(effect_of(action))?;
    }
    Ok(tallies.pop().once)
}
