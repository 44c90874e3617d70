//! Whether there is room for an event.

ghost use Rattle.std.specs.Prelude.{◌≤◌};
ghost use Rattle.log_codec.specs.LogText.{IsBody};
ghost use Rattle.recorder_book.specs.Sizes.{in_full};
ghost use Rattle.recorder_events.specs.Room.{IsRoomOrEnd};

use recorder_book::{Book, Room, event_size};
use run_events::Event;
use whole_runs::{Ending, Halt};

/// How the run ends where the book has no room for an event with so many keys.
pub fn full(book: &Book, event: &Event, keys: usize) -> Option<Ending>
    requires keys { keys ≤ 16 }
    requires event { IsBody (in_full event.now) }
    ensures { IsRoomOrEnd book.now event.now keys result }
{
    match book.room(event_size(event, keys)) {
        Room::Free => None,
        Room::Events => Some(Ending::Halted(Halt::Events)),
        Room::Full => Some(Ending::Halted(Halt::Full)),
    }
}
