//! The mark that comes next.

ghost use Rattle.std.specs.Prelude.{◌≡◌, ◌+◌, ◌<◌, ◌^◌, length};
ghost use Rattle.reference_recorder_acts.specs.Acts.{next_after};

use marks::Side;
use reference_recorder_marks::{Act, Mark};
use reference_recorder_stamps::{Link, count};

/// The mark after these, the oldest first, in which the thread does this on the side. It has the number of the thread's events.
pub fn next_mark(marks: &[Mark], thread: u8, side: Side, act: Act) -> Mark
    requires { length marks.now + 1 < 2 ^ 32 }
    ensures { result ≡ next_after marks.now thread side act }
{
    Mark {
        thread,
        side,
        index: count(marks, Link::Thread(thread)),
        act,
    }
}
