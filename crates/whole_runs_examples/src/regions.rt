//! Runs in which calls hand down regions.

ghost use Rattle.std.specs.Prelude.{◌≡◌, ◌∷◌, [], length, Some, None, true, false, codes};
ghost use Rattle.marks.specs.declared.breach.BreachKind.TheVariants.{KeyInUse, NoKey, Pending, Size};
ghost use Rattle.marks.specs.declared.side.Side.TheVariants.{Replay};
ghost use Rattle.marks.specs.Marks.{Load};
ghost use Rattle.whole_runs.specs.declared.ending.Ending.TheVariants as ending;
ghost use Rattle.whole_runs.specs.declared.ending.Halt.TheVariants as halt;
ghost use Rattle.whole_runs.specs.Ends.{breach_end};
ghost use Rattle.whole_runs.specs.Log.{log_of};
ghost use Rattle.whole_runs_examples.specs.Play.{IsNoStep, RunsTo, byte_after, whole};
ghost use Rattle.whole_runs_examples.specs.Regions.{caching, caching_twice, committing_below, hello_in_full, leaving, now_ret, preparing_below, preparing_none, preparing_twice, reading, received, receiving, receiving_hello, restoring, taking_none, too_long, too_much, withheld};

/// An answer of five bytes for a region of eight: the Ret brings up five. One that uses nine is a breach at
/// the region, and where the file has none the run is halted.
pub fn receives()
    ensures run { RunsTo receiving_hello 6 ending.Done }
    ensures too_large { RunsTo (receiving (received 9 [])) 3 (breach_end Size 0 0x10000000 None) }
    ensures none { RunsTo (receiving []) 3 (ending.Halted (halt.Script 16)) }
    ensures whole_region { IsNoStep receiving_hello 3 0 Replay hello_in_full }
{}

/// Where a piece is shorter than the used size, what stood there comes up with it.
pub fn reads()
    ensures short { RunsTo (reading 0x10000000 (received 3 (codes "A"))) 6 ending.Done }
    ensures kept { byte_after (reading 0x10000000 (received 3 (codes "A"))) 4 0x10000001 ≡ Some 2 }
{}

/// A piece for NULL has no room, and its used size is 0.
pub fn reads_nothing()
    ensures null { RunsTo (reading 0 (received 9 [])) 6 ending.Done }
    ensures no_room { RunsTo (reading 0 (received 1 (codes "A"))) 3 (breach_end Size 0 0 None) }
{}

/// Of two regions the first that is wrong is named, be it by its piece or by its used size.
pub fn names_the_first()
    ensures first { RunsTo too_long 3 (breach_end Size 0 0x10000000 None) }
    ensures second { RunsTo too_much 3 (breach_end Size 0 0x10000004 None) }
{}

/// Code below the cut writes past the used size of a prepared region, and the answer that commits it brings
/// back what stood there: above the cut the old byte is seen.
pub fn restores()
    ensures run { RunsTo restoring 15 ending.Done }
    ensures poked { byte_after restoring 11 0x10000003 ≡ Some 9 }
    ensures restored { byte_after restoring 12 0x10000003 ≡ Some 0 }
    ensures unseen { IsNoStep restoring 12 0 Replay (Load (Some 0) 0x10000003 (9 ∷ [])) }
{}

/// An answer that doesn't bring it back is a breach.
pub fn leaves_no_change()
    ensures { RunsTo leaving 11 (breach_end Size 0 0x10000000 None) }
{}

/// A commit with a negative used size writes nothing and releases nothing. One under a key that isn't in
/// use is a breach.
pub fn commits()
    ensures run { RunsTo withheld 10 ending.Done }
    ensures unwritten { byte_after withheld 6 0x10000000 ≡ Some 0 }
    ensures committed { byte_after withheld 8 0x10000001 ≡ Some 0x44 }
    ensures no_key { RunsTo taking_none 3 (breach_end NoKey 0 9 None) }
{}

/// A second region under a key in use is a breach, also where it has no bytes. Bytes are tested first: where
/// they are pending that is found.
pub fn prepares()
    ensures key { RunsTo (preparing_twice 0x10000004) 4 (breach_end KeyInUse 0 9 None) }
    ensures empty { RunsTo preparing_none 4 (breach_end KeyInUse 0 9 None) }
    ensures bytes { RunsTo (preparing_twice 0x10000002) 4 (breach_end Pending 0 0x10000002 None) }
{}

/// Of two regions that externals prepare under one key below the cut the last one is written.
pub fn prepares_below()
    ensures run { RunsTo preparing_below 11 ending.Done }
    ensures first { byte_after preparing_below 7 0x50000000 ≡ Some 0 }
    ensures last { byte_after preparing_below 7 0x50000004 ≡ Some 7 }
{}

/// A commit below the cut writes the region that a Call prepared and releases it not, so that the next Ret is
/// held to it.
pub fn commits_below()
    ensures run { RunsTo (committing_below 3) 13 ending.Done }
    ensures changed { RunsTo (committing_below 2) 10 (breach_end Size 0 0x10000000 None) }
{}

/// The second of two equal returns has the form `same`, and none of two that differ.
pub fn repeats()
    ensures run { RunsTo (caching 7 7) 8 ending.Done }
    ensures bytes { length (log_of (caching 7 7) (whole (caching 7 7) 8)) ≡ 129 }
    ensures in_full { IsNoStep (caching 7 7) 5 0 Replay (now_ret (caching 7 7) 5 0 7 false) }
    ensures differs { IsNoStep (caching 7 8) 5 0 Replay (now_ret (caching 7 8) 5 0 8 true) }
{}

/// Each thread's returns are compared with its own.
pub fn repeats_its_own()
    ensures run { RunsTo caching_twice 16 ending.Done }
    ensures other { IsNoStep caching_twice 9 1 Replay (now_ret caching_twice 9 1 7 true) }
    ensures again { IsNoStep caching_twice 11 0 Replay (now_ret caching_twice 11 0 7 false) }
{}
