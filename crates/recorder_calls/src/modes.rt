//! Functions that a Call registers.

ghost use Rattle.recorder_calls.specs.Calls.{IsFirstForbidden};

use memory_map::Flags;
use recorder_plain::may_run;

/// The first of the functions that may not run in the mode that has these flags.
pub fn first_forbidden(flags: &Flags, funcs: &[u16]) -> Option<u16>
    ensures { IsFirstForbidden flags.now funcs.now result }
{
    for func in funcs {
        if !may_run(flags, *func) {
            return Some(*func);
        }
    }
    None
}
