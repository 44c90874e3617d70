//! Ways out of loops and functions.

ghost use Rattle.std.specs.Prelude.{◌≡◌, IfOk, OnOk};
ghost use Rattle.lockset_check_bodies.specs.Places.{WaysEnded, loop_checked, start_checked, way_ended};
ghost use Rattle.lockset_check_values.specs.Walks.{with_sets};

use lockset_check_rules::LockFinding;
use lockset_check_values::Walk;
use std::alloc::AllocError;

/// The end of a part of a loop that begins at this offset, or a way out of it.
#[tactic(auto, using(crate::proofs::Passing::loop_differs_here))]
pub(crate) fn check_loop(walk: &mut Walk, within: Option<u32>) -> Result<(), AllocError>
    ensures { OnOk result (walk.new ≡ loop_checked within walk.old) }
{
    match within {
        Some(from) => {
            if walk.is_as_at_loop() {
                return Ok(());
            }
            walk.find(LockFinding::LoopLocks(from))
        }
        None => Ok(()),
    }
}

/// A way out of the function, at this offset.
pub(crate) fn check_start(walk: &mut Walk, from: u32) -> Result<(), AllocError>
    ensures { OnOk result (walk.new ≡ start_checked from walk.old) }
{
    if walk.is_as_at_start() {
        return Ok(());
    }
    walk.find(LockFinding::ReturnLocks(from))
}

/// The end of a way that is left out otherwise, which goes on or doesn't.
pub(crate) fn end_way(walk: &mut Walk, goes: bool) -> Result<(), AllocError>
    ensures { OnOk result (walk.new ≡ with_sets (way_ended goes walk.old.sets) walk.old) }
{
    if goes {
        return walk.join();
    }
    walk.go_back()
}

/// The end of the second of two ways, each of which goes on or doesn't. Gives whether one does.
pub(crate) fn end_ways(walk: &mut Walk, first: bool, second: bool) -> Result<bool, AllocError>
    ensures { IfOk result (λ goes. WaysEnded first second goes walk.old walk.new) }
{
    if !first {
        walk.forget()?;
        return Ok(second);
    }
    if !second {
        walk.go_back()?;
        return Ok(true);
    }
    walk.join()?;
    Ok(true)
}
