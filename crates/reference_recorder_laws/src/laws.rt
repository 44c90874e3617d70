//! The laws, as contracts of functions that do nothing.

ghost use Rattle.std.specs.Prelude.{◌≡◌, ◌++◌, ◌≤◌, ℕ, List, length};
ghost use Rattle.whole_runs.specs.World.{World};
ghost use Rattle.whole_runs.specs.Ends.{bytes_of, events_of, most_bytes, most_events, stop_of, stops};
ghost use Rattle.reference_recorder_marks.specs.declared.mark.Mark.{Mark};
ghost use Rattle.reference_recorder_marks.specs.Marks.{past};
ghost use Rattle.reference_recorder_scans.specs.Found.{IsLow};
ghost use Rattle.reference_recorder_stamps.specs.Numbers.{ClocksFit, SeesEvents};
ghost use Rattle.reference_recorder_threads.specs.Telling.{IsPast};
ghost use Rattle.reference_recorder_laws.specs.AtEnd.{IsPastAtEnd, IsWholeRun};

/// No byte from 2^31 on lives.
pub fn bytes_are_low()
    ensures { (w : World) (marks : List Mark) → IsPast w marks → IsLow w (past marks) }
{}

/// Each event stands above the cut, and one more than each clock is a number of 32 bits; of the clocks it is so at the end too.
pub fn events_can_be_stamped()
    ensures seen { (w : World) (marks : List Mark) → IsPast w marks → SeesEvents (past marks) }
    ensures clocks { (w : World) (marks : List Mark) → IsPast w marks → ClocksFit (past marks) }
    ensures at_end { (w : World) (marks : List Mark) → IsPastAtEnd w marks → ClocksFit (past marks) }
{}

/// A run has no more marks, events, and bytes of the records of events than it may; at its end there is one more mark at most, and then
/// one Stop of each thread.
pub fn runs_are_short()
    ensures marks { (w : World) (marks : List Mark) → IsPast w marks → length marks ≤ 100_000_000 }
    ensures events { (w : World) (marks : List Mark) → IsPast w marks →
        length (events_of (past marks)) ≤ most_events }
    ensures bytes { (w : World) (marks : List Mark) → IsPast w marks → bytes_of (past marks) ≤ most_bytes }
    ensures at_end { (w : World) (marks : List Mark) → IsPastAtEnd w marks → length marks ≤ 100_000_001 }
    ensures whole { (w : World) (marks : List Mark) → IsWholeRun w marks → length marks ≤ 100_000_033 }
{}

/// At its end the Stop of a thread is the same, whether it is found from these marks or from the run; with the Stops of its threads the
/// run is whole.
pub fn stops_can_be_added()
    ensures same { (w : World) (marks : List Mark) (p : IsPastAtEnd w marks) (t : ℕ) →
        stop_of w (past marks) t ≡ stop_of w (p.last ++ p.past) t }
    ensures whole { (w : World) (marks added : List Mark) (p : IsPastAtEnd w marks) →
        past added ≡ stops w (p.last ++ p.past) → IsWholeRun w (marks ++ added) }
{}
