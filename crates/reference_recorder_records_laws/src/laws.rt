//! The law, as the contract of a function that does nothing.

ghost use Rattle.std.specs.Prelude.{List};
ghost use Rattle.whole_runs.specs.World.{World};
ghost use Rattle.whole_runs.specs.Steps.{Picked};
ghost use Rattle.reference_recorder_marks.specs.declared.mark.Mark.{Mark};
ghost use Rattle.reference_recorder_threads.specs.Telling.{IsPast};
ghost use Rattle.reference_recorder_rules.specs.Steps.{IsMadeAs};
ghost use Rattle.reference_recorder_records.specs.Recordable.{AreRecordable, IsRecordable};
ghost use Rattle.reference_recorder_laws.specs.AtEnd.{IsPastAtEnd, IsWholeRun};

/// Each event of a run has a record that can stand in a log in full; so has the mark that the next step makes, before it is known
/// whether there is room for it, and each event of a run at its end and of the whole run.
pub fn records_can_stand()
    ensures past { (w : World) (marks : List Mark) → IsPast w marks → AreRecordable marks }
    ensures next { (w : World) (marks : List Mark) (p : IsPast w marks) (s : Picked w p.run) (told : Mark) →
        IsMadeAs w p.run s told → IsRecordable told }
    ensures at_end { (w : World) (marks : List Mark) → IsPastAtEnd w marks → AreRecordable marks }
    ensures whole { (w : World) (marks : List Mark) → IsWholeRun w marks → AreRecordable marks }
{}
