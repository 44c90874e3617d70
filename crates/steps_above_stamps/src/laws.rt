//! What stamps have to do with marks, as contracts of functions that do nothing.

ghost use Rattle.steps_above_stamps.specs.Laws.{FaultsLeaveTheStamps, KeylessEventsFollowTheirThread, KeysOfEventsAreDistinct, PlainMarksAreStamped, StampsAreFew};

/// Stamps stand for a run with a fault as for the run without it: a fault is no step of its thread.
pub fn faults_leave_the_stamps()
    ensures { FaultsLeaveTheStamps }
{}

/// Of a mark that is no event the rules of runs ask no number but its index.
pub fn plain_marks_are_stamped()
    ensures { PlainMarksAreStamped }
{}

/// The clock of an event without keys, as a Stop, follows that of its thread's last event.
pub fn keyless_events_follow_their_thread()
    ensures { KeylessEventsFollowTheirThread }
{}

/// Events and steps that stamps count are at most as many as the run's marks.
pub fn stamps_are_few()
    ensures { StampsAreFew }
{}

/// The keys that an event has by the rules of runs, each once and in order, are distinct.
pub fn keys_of_events_are_distinct()
    ensures { KeysOfEventsAreDistinct }
{}
