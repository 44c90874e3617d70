//! Runs of several threads.

ghost use Rattle.std.specs.Prelude.{◌≡◌, ◌∷◌, [], length, Some};
ghost use Rattle.marks.specs.declared.breach.BreachKind.TheVariants.{Race};
ghost use Rattle.marks.specs.declared.side.Side.TheVariants.{Replay};
ghost use Rattle.marks.specs.Marks.{Alloc};
ghost use Rattle.whole_runs.specs.declared.ending.Ending.TheVariants as ending;
ghost use Rattle.whole_runs.specs.declared.ending.Halt.TheVariants as halt;
ghost use Rattle.whole_runs.specs.Ends.{breach_end};
ghost use Rattle.whole_runs.specs.Log.{log_of};
ghost use Rattle.whole_runs_examples.specs.Play.{IsNoStep, RunsTo, chunk_sizes, clocks, event_at, whole};
ghost use Rattle.whole_runs_examples.specs.Locks.{adding, chunking, crowded, neighbours, pooling, racing, reading_first, waiting};

/// Two threads count under a mutex: the run, with as many steps as the budget has, the clocks of its events,
/// and the length of its log.
pub fn adds()
    ensures run { RunsTo (adding 36) 36 ending.Done }
    ensures first { clocks 0 (whole (adding 36) 36) ≡ 1 ∷ 2 ∷ 3 ∷ 4 ∷ 5 ∷ 6 ∷ 9 ∷ 10 ∷ 11 ∷ 12 ∷ [] }
    ensures second { clocks 1 (whole (adding 36) 36) ≡ 3 ∷ 4 ∷ 5 ∷ 6 ∷ 7 ∷ 8 ∷ [] }
    ensures third { clocks 2 (whole (adding 36) 36) ≡ 5 ∷ 6 ∷ 7 ∷ 8 ∷ 9 ∷ 10 ∷ [] }
    ensures bytes { length (log_of (adding 36) (whole (adding 36) 36)) ≡ 658 }
{}

/// With one step less it is cut short.
pub fn is_cut_short()
    ensures { RunsTo (adding 35) 35 (ending.Halted halt.Budget) }
{}

/// Without the mutex the load of one thread would race with the store of the other. Both have a Stop, and
/// the thread below a Call has none.
pub fn races()
    ensures run { RunsTo racing 17 (breach_end Race 2 0x10000000 (Some 1)) }
    ensures first { clocks 0 (whole racing 17) ≡ 1 ∷ 2 ∷ 3 ∷ 4 ∷ 5 ∷ 6 ∷ [] }
    ensures second { clocks 1 (whole racing 17) ≡ 3 ∷ 4 ∷ [] }
    ensures third { clocks 2 (whole racing 17) ≡ 5 ∷ 6 ∷ [] }
{}

/// Of two threads with which a step would race the least is named, also where the other one wrote last.
pub fn names_the_least()
    ensures { RunsTo crowded 28 (breach_end Race 3 0x10000000 (Some 1)) }
{}

/// A write races with a read before it.
pub fn races_with_reads()
    ensures { RunsTo reading_first 16 (breach_end Race 2 0x10000000 (Some 1)) }
{}

/// Two threads write two bytes side by side without a race.
pub fn keeps_bytes_apart()
    ensures { RunsTo neighbours 12 ending.Done }
{}

/// A thread that holds a mutex waits for it as others do, and has no Stop below its Call.
pub fn waits()
    ensures run { RunsTo waiting 5 (ending.Halted halt.Blocked) }
    ensures none { clocks 0 (whole waiting 5) ≡ 1 ∷ 2 ∷ 3 ∷ 4 ∷ [] }
{}

/// Two threads use one block one after the other without a race: the pool orders them. A block that isn't at
/// the least place is refused.
pub fn shares_the_pool()
    ensures run { RunsTo pooling 18 ending.Done }
    ensures clocks { clocks 0 (whole pooling 18) ≡ 1 ∷ 2 ∷ 3 ∷ 6 ∷ 7 ∷ 8 ∷ [] }
    ensures refused { IsNoStep pooling 12 0 Replay (event_at pooling 12 0 (Alloc 0x30000010 16)) }
{}

/// A Stop that makes a chunk full puts it out, before what other threads kept back.
pub fn puts_out_chunks()
    ensures run { RunsTo chunking 6 (ending.Halted halt.Budget) }
    ensures chunks { chunk_sizes chunking (whole chunking 6) ≡ (0, 2) ∷ (0, 2) ∷ (1, 2) ∷ (0, 1) ∷ [] }
{}
