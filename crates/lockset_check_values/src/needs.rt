//! The sets that functions need.

ghost use Rattle.std.specs.Prelude.{◌≡◌, ◌<◌, [], get_or, length, map, take, true, IfOk, OnOk};
ghost use Rattle.lockset_check_rules.specs.Mutexes.{locks_of};
ghost use Rattle.lockset_check_held.specs.HeldSets.{at_first, needing};

use c_syntax::SharedSeq;
use lockset_check_held::Held;
use std::alloc::{AllocError, Global};

// Whether two lists have the same mutexes, in the same order.
fn are_same(mutexes: &[i64], others: &[i64]) -> bool
    ensures { result ≡ true → mutexes.now ≡ others.now }
{
    mutexes == others
}

// The set of the list at a place more, after those of the lists before it. Where it is equal to the list before it, it isn't made again.
#[tactic(auto, using(crate::proofs::Lists::made_again))]
fn add_need(sets: &mut Held, lists: &[SharedSeq<i64>], place: usize) -> Result<(), AllocError>
    requires place { place < length lists.now }
    requires sets { sets.old.needs ≡ map locks_of (take place lists.now) }
    ensures { OnOk result (sets.new ≡ needing (locks_of (get_or lists.now place [])) sets.old) }
{
    let mutexes = lists[place].as_slice();
    if place > 0 && are_same(mutexes, lists[place - 1].as_slice()) {
        return sets.need_again(place - 1);
    }
    sets.need(mutexes)
}

/// Before the first function, where functions may need the sets of these lists.
#[tactic(auto, using(crate::proofs::Lists::one_more, crate::proofs::Lists::all_made))]
pub fn sets_for(alloc: Global, lists: &[SharedSeq<i64>]) -> Result<Held, AllocError>
    ensures { IfOk result (λ sets. sets ≡ record at_first { needs = map locks_of lists.now }) }
{
    let mut sets = Held::new(alloc);
    for i in 0..lists.len() {
        add_need(&mut sets, lists, i)?;
    }
    Ok(sets)
}
