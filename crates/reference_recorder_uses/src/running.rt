//! The modes in which functions may run.

ghost use Rattle.std.specs.Prelude.{◌≡◌, [], ◌∷◌, slice_get};
ghost use Rattle.c_code.specs.Machine.{is_true};
ghost use Rattle.replay_runs.specs.Checks.{Done, indirect_check, mode_checks};
ghost use Rattle.whole_runs.specs.World.{World, interface, may_run as may_run_in};
ghost use Rattle.reference_recorder_findings.specs.Findings.{IsFound};

use marks::{BreachKind, Side, function_address};
use memory_map::{Flags, Placed};
use reference_recorder_findings::Finding;

// Whether the function may run in the mode that has these flags.
fn is_set(flags: &Flags, func: u16) -> bool
    ensures { result ≡ is_true (slice_get flags.now func) }
{
    flags
        .as_slice()
        .get(usize::from(func))
        .copied()
        .unwrap_or(false)
}

// Whether the function may run in the mode.
fn may_run(placed: &Placed, side: Side, func: u16) -> bool
    ensures { result ≡ may_run_in placed.now side func }
{
    match side {
        Side::Replay => is_set(&placed.replay, func),
        Side::System => is_set(&placed.system, func),
    }
}

/// What is found where the function is to run in the mode.
pub fn mode(placed: &Placed, side: Side, func: u16) -> Option<Finding>
    ensures { (w : World) → w.laid.placed ≡ placed.now →
        IsFound (mode_checks (interface w) side (func ∷ []) Done) result }
{
    if may_run(placed, side, func) {
        return None;
    }
    let address = function_address(func);
    Some(Finding::Breach {
        kind: BreachKind::Mode,
        address,
        other: None,
    })
}

/// What is found where the functions are to run in the mode.
pub fn modes(placed: &Placed, side: Side, funcs: &[u16]) -> Option<Finding>
    ensures { (w : World) → w.laid.placed ≡ placed.now →
        IsFound (mode_checks (interface w) side funcs.now Done) result }
{
    for func in funcs {
        if let Some(found) = mode(placed, side, *func) {
            return Some(found);
        }
    }
    None
}

/// What is found where the function is called, through a pointer where `indirect`, and is to run in the mode.
pub fn indirect(placed: &Placed, indirect: bool, side: Side, func: u16) -> Option<Finding>
    ensures { (w : World) → w.laid.placed ≡ placed.now →
        IsFound (indirect_check (interface w) indirect side func Done) result }
{
    if indirect {
        mode(placed, side, func)
    } else {
        None
    }
}
