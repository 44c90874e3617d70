//! What events have in common: the thread that makes them, or a key.

ghost use Rattle.std.specs.Prelude.{◌≡◌};
ghost use Rattle.replay_runs.specs.Runs.{has};
ghost use Rattle.reference_recorder_marks.specs.Marks.{mark_of};
ghost use Rattle.reference_recorder_stamps.specs.Links.{link_of};

use reference_recorder_marks::{Mark, has_key, is_event};
use run_events::Key;

/// What ties events to each other.
#[derive(Clone, Copy)]
pub enum Link {
    /// The thread that makes them.
    Thread(u8),
    Key(Key),
}

/// Whether the mark is an event with the link.
pub fn has(mark: &Mark, link: Link) -> bool
    ensures { result ≡ has (mark_of mark.now) (link_of link) }
{
    match link {
        Link::Thread(thread) => is_event(&mark.act) && mark.thread == thread,
        Link::Key(key) => has_key(&mark.act, key),
    }
}
