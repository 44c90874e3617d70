//! Whether a return gives what a record has.

ghost use Rattle.std.specs.Prelude.{◌≡◌, Some};
ghost use Rattle.marks.specs.Wants.{same_numbers};
ghost use Rattle.replay_runs.specs.Threads.{Returned, same_lists, same_return};
ghost use Rattle.steps_above_interface.specs.Returns.{HasReturn};

use run_events::{Bytes, Event};

/// Whether the record is that of a return of this value and these pieces.
pub fn is_return(event: &Event, value: u64, pieces: &[Bytes]) -> bool
    ensures { (gave : Returned) → HasReturn event.now gave →
        result ≡ same_return (Some gave) (record { result = value; bytes = pieces.now }) }
{
    match event {
        Event::Ret {
            same: _,
            result,
            outs,
        } => *result == value && same_pieces(outs.as_slice(), pieces),
        _ => false,
    }
}

fn same_pieces(a: &[Bytes], b: &[Bytes]) -> bool
    ensures { result ≡ same_lists a.now b.now }
{
    if a.len() != b.len() {
        return false;
    }
    for at in 0..a.len() {
        if !same_bytes(a[at].as_slice(), b[at].as_slice()) {
            return false;
        }
    }
    true
}

fn same_bytes(a: &[u8], b: &[u8]) -> bool
    ensures { result ≡ same_numbers a.now b.now }
{
    a == b
}
