//! Small cases, computed.

ghost use Rattle.std.specs.Prelude.{◌≡◌, ℕ, Bool, false, true, [], List, None};
ghost use Rattle.marks.specs.declared.side.Side.{Side};
ghost use Rattle.marks.specs.declared.side.Side.TheVariants.{Replay, System};
ghost use Rattle.marks.specs.Wants.{Below, CalledBack, Calls, CallsBack, Enters, Frame, Go, Outside, Steps, Stopped, Value};
ghost use Rattle.cut_graph_reached.specs.Reached.{by_pointer, reach, reached};

/// A frame is that of a function which runs on the side of the call, and of one that system code calls indirectly below the cut.
pub fn frames_are_entered()
    ensures same_side { (side : Side) (i : Bool) (f at : ℕ) →
        reached side (Enters i f [] []) (Frame at) ≡ reach side f }
    ensures indirect { (f at : ℕ) → reached System (CallsBack f [] []) (Frame at) ≡ reach System f }
    ensures named { (f : ℕ) → by_pointer (Enters false f [] []) ≡ false }
    ensures pointed { (f : ℕ) → by_pointer (Enters true f [] []) ≡ true }
{}

/// What replay code calls of the interface runs below the cut.
pub fn calls_cross_the_cut()
    ensures called { (i : Bool) (f : ℕ) → reached Replay (Calls i f []) Go ≡ reach System f }
    ensures returns { (f v : ℕ) → reached Replay (Below f []) (Value v) ≡ None }
{}

/// Code below the cut calls functions back above it: below a Call, by an indirect call, and where no call is open.
pub fn code_below_calls_back()
    ensures call { (f g : ℕ) → reached Replay (Below f []) (CalledBack g []) ≡ reach Replay g }
    ensures indirect { (f : ℕ) → reached System (CallsBack f [] []) (CalledBack f []) ≡ reach Replay f }
    ensures thread { (g : ℕ) → reached Replay Outside (CalledBack g []) ≡ reach Replay g }
    ensures pointed { by_pointer Outside ≡ true }
{}

/// A builtin or external that makes no event runs on the side of its caller.
pub fn steps_keep_the_side()
    ensures { (side : Side) (i : Bool) (f v : ℕ) → reached side (Steps i f []) (Value v) ≡ reach side f }
{}

/// A fault in place of a call reaches nothing.
pub fn faults_reach_nothing()
    ensures enters { (f : ℕ) → reached Replay (Enters true f [] []) Stopped ≡ None }
    ensures calls { (f : ℕ) → reached Replay (Calls true f []) Stopped ≡ None }
    ensures steps { (f : ℕ) → reached System (Steps true f []) Stopped ≡ None }
{}
