// The depth of a whole source.

ghost use Rattle.std.specs.Prelude.{IfOk, IfSome, IfNone};
ghost use Rattle.c_parser_depth.specs.Deep.{OfBuilt, IsShallow, IsDeepAt};

use crate::chains::Chains;
use crate::effect::effect_of;
use c_parser_moves::Action;
use std::alloc::{AllocError, Global};

/// The offset of a node of the source that these actions build which more than 200 others hold, where there is one.
/// Takes time and memory linear in the actions. Of actions that build no source the answer says nothing.
pub fn too_deep(alloc: Global, actions: &[Action]) -> Result<Option<u32>, AllocError>
    // Where none is named, at most 200 nodes hold each.
    ensures shallow { IfOk result (λ found. IfNone found (OfBuilt actions.now IsShallow)) }
    // More than 200 hold the one that is named.
    ensures deep { IfOk result (λ found. IfSome found (λ o. OfBuilt actions.now (λ ds. IsDeepAt ds o))) }
{
    let mut chains = Chains::new(alloc);
    for action in actions {
        chains.apply(effect_of(action))?;
    }
    Ok(chains.pop().deep_end())
}
