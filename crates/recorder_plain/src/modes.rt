//! The modes in which functions may run.

ghost use Rattle.std.specs.Prelude.{◌≡◌, ◌||◌, not, None, slice_get};
ghost use Rattle.marks.specs.declared.breach.BreachKind.TheVariants.{Mode};
ghost use Rattle.marks.specs.Places.{function_address as address_of};
ghost use Rattle.c_code.specs.Machine.{is_true};
ghost use Rattle.steps_above_memory.specs.declared.refusal.StepRefusal.TheVariants.{Breach};

use marks::{BreachKind, function_address};
use memory_map::Flags;
use steps_above_memory::StepRefusal;

/// Whether the function may run in the mode that has these flags, by number. A function of which they say nothing may not.
pub fn may_run(flags: &Flags, func: u16) -> bool
    ensures { result ≡ is_true (slice_get flags.now func) }
{
    flags
        .as_slice()
        .get(usize::from(func))
        .copied()
        .unwrap_or(false)
}

/// Whether a function keeps to these flags that is called through a pointer, where `indirect`. One that is called by its name does.
pub fn keeps_mode(flags: &Flags, indirect: bool, func: u16) -> bool
    ensures { result ≡ (not indirect || is_true (slice_get flags.now func)) }
{
    !indirect || may_run(flags, func)
}

/// The breach of a function that would run in a mode in which it may not. It is shown by the function's address.
pub fn mode_breach(func: u16) -> StepRefusal
    ensures { result ≡ Breach Mode (address_of func) None }
{
    StepRefusal::Breach {
        kind: BreachKind::Mode,
        addr: function_address(func),
        other: None,
    }
}
