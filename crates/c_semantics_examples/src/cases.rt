//! Whole calls of `main`.

ghost use Rattle.std.specs.Prelude.{◌≡◌, false, [], ◌∷◌, ◌++◌, Some};
ghost use Rattle.marks.specs.declared.fault.FaultKind.TheVariants.{BadCall, Divide};
ghost use Rattle.marks.specs.declared.side.Side.TheVariants.{Replay, System};
ghost use Rattle.marks.specs.Marks.{Alloc, Fault, Free, Nowhere, Up, UpRet};
ghost use Rattle.marks.specs.Places.{function_address};
ghost use Rattle.marks.specs.Wants.{Loads};
ghost use Rattle.c_code.specs.MarkLists.{Above, Ended, Expects, Open, Split, Wrong, replay_part};
ghost use Rattle.c_semantics.specs.Calls.{behaviour, thread_behaviour};
ghost use Rattle.c_semantics_examples.specs.Programs.{applied, applying, asking, below, call, called_back, compound, crossed, crossing, dividing, doubles_below, enter, enter_below, event, fault, freeing, jumped, leave, leave_below, load, loop, pointing, polling, reads, ret, step, store, sum, thread_type, turn, turned, working, works};

/// A sum of two globals has two loads, of whatever memory has there.
pub fn loads_are_free()
    ensures two_and_three { behaviour Split sum Replay 16 [] (enter 16 ∷ load 0 0x10000000 2 ∷
        load 1 0x10000004 3 ∷ leave ∷ []) ≡ Ended 5 }
    ensures others { behaviour Split sum Replay 16 [] (enter 16 ∷ load 0 0x10000000 7 ∷
        load 1 0x10000004 1 ∷ leave ∷ []) ≡ Ended 8 }
    ensures cut_short { behaviour Split sum Replay 16 [] (enter 16 ∷ load 0 0x10000000 2 ∷ []) ≡
        Expects Replay (Loads (Some 1) 0x10000004 4) }
    ensures in_order { behaviour Split sum Replay 16 [] (enter 16 ∷ load 1 0x10000004 3 ∷ []) ≡ Wrong }
{}

/// `g += g++` loads and stores twice: the left side's value is taken before the right side is evaluated.
pub fn a_compound_assignment()
    ensures { behaviour Split compound Replay 16 [] (enter 16 ∷ load 0 0x10000000 0 ∷ load 0 0x10000000 0 ∷
        store 0 0x10000000 1 ∷ store 0 0x10000000 0 ∷ load 0 0x10000000 0 ∷ leave ∷ []) ≡ Ended 0 }
{}

/// The global that `0[g]` begins with is `g`, as that of `g[0]` is (C11 6.5.2.1).
pub fn a_subscript_before_its_array()
    ensures { behaviour Split turned Replay 16 [] (enter 16 ∷ store 0 0x10000000 1 ∷ leave ∷ []) ≡ Ended 0 }
{}

/// A `for` has a Turn before its condition in each round; its last part follows a `continue`.
pub fn a_loop_goes_on()
    ensures { behaviour Split loop Replay 16 [] (enter 16 ∷ store 0 0x10000000 0 ∷ turn ∷
        load 0 0x10000000 0 ∷ load 0 0x10000000 0 ∷ store 0 0x10000000 1 ∷ turn ∷ load 0 0x10000000 1 ∷
        leave ∷ []) ≡ Ended 7 }
{}

/// A call of the interface above the cut is two events, and its result is any value of its type.
pub fn a_call_of_the_interface()
    ensures split { behaviour Split asking Replay 17 [] (enter 17 ∷ call 16 ∷ ret 16 9 ∷ leave ∷ []) ≡
        Ended 9 }
    ensures above { behaviour Above asking Replay 17 [] (enter 17 ∷ call 16 ∷ ret 16 9 ∷ leave ∷ []) ≡
        Ended 9 }
    ensures too_large { behaviour Split asking Replay 17 [] (enter 17 ∷ call 16 ∷ ret 16 2147483648 ∷ []) ≡
        Wrong }
{}

/// The return of a function of the interface has the arguments of its call. What stands above the cut is right where the code below
/// it may be any.
pub fn a_return_has_its_arguments()
    ensures split { behaviour Split crossing Replay 17 [] (crossed (4 ∷ []) 5) ≡ Ended 5 }
    ensures others { behaviour Split crossing Replay 17 [] (crossed (3 ∷ []) 5) ≡ Wrong }
    ensures above { behaviour Above crossing Replay 17 [] (replay_part (crossed (4 ∷ []) 5)) ≡ Ended 5 }
{}

/// System code calls a function of the interface as any other: its body runs, and that is no event.
pub fn system_code_runs()
    ensures runs { behaviour Split polling System 17 [] (enter_below 17 ∷ (reads 5 ++ leave_below ∷ [])) ≡
        Ended 5 }
    ensures no_event { behaviour Split polling System 17 [] (enter_below 17 ∷ call 16 ∷
        (reads 5 ++ ret 16 5 ∷ leave_below ∷ [])) ≡ Wrong }
    ensures not_above { behaviour Split polling System 17 [] (enter 17 ∷ []) ≡ Wrong }
{}

/// Code below the cut that calls through a pointer calls the function back, or runs it below. An Up has the arguments of the call,
/// and its return the result.
pub fn code_below_calls_back()
    ensures above { behaviour Split applying Replay 18 [] (applied (called_back 3 6)) ≡ Ended 6 }
    ensures below { behaviour Split applying Replay 18 [] (applied (doubles_below 3)) ≡ Ended 6 }
    ensures other_arguments { behaviour Split applying Replay 18 [] (applied (called_back 4 6)) ≡ Wrong }
    ensures other_result { behaviour Split applying Replay 18 [] (applied (called_back 3 7)) ≡ Wrong }
{}

/// A call through a pointer that is no function of its type is a fault, after which nothing follows.
pub fn a_bad_call()
    ensures no_function { behaviour Split pointing Replay 17 [] (jumped 7 (fault BadCall ∷ [])) ≡ Open }
    ensures other_type { behaviour Split pointing Replay 17 [] (jumped (function_address 16)
        (fault BadCall ∷ [])) ≡ Open }
    ensures of_its_type { behaviour Split pointing Replay 17 [] (jumped (function_address 17)
        (fault BadCall ∷ [])) ≡ Wrong }
    ensures goes_on { behaviour Split pointing Replay 17 [] (jumped 7 (fault BadCall ∷ leave ∷ [])) ≡ Wrong }
{}

/// A division by zero is a fault and has no value (C11 6.5.5); one by two is none.
pub fn a_zero_divisor()
    ensures zero { behaviour Split dividing Replay 16 [] (enter 16 ∷ load 0 0x10000000 0 ∷
        fault Divide ∷ []) ≡ Open }
    ensures two { behaviour Split dividing Replay 16 [] (enter 16 ∷ load 0 0x10000000 2 ∷ leave ∷ []) ≡
        Ended 3 }
    ensures no_fault { behaviour Split dividing Replay 16 [] (enter 16 ∷ load 0 0x10000000 0 ∷ leave ∷ []) ≡
        Wrong }
    ensures needless { behaviour Split dividing Replay 16 [] (enter 16 ∷ load 0 0x10000000 2 ∷
        fault Divide ∷ []) ≡ Wrong }
{}

/// An external or builtin that system code calls is one Step, which gives any value of its type, and is no event.
pub fn a_step_below_the_cut()
    ensures external { behaviour Split asking System 17 [] (enter_below 17 ∷ step 16 [] 9 ∷ leave_below ∷
        []) ≡ Ended 9 }
    ensures too_large { behaviour Split asking System 17 [] (enter_below 17 ∷ step 16 [] 2147483648 ∷
        leave_below ∷ []) ≡ Wrong }
    ensures no_event { behaviour Split asking System 17 [] (enter_below 17 ∷ call 16 ∷ ret 16 9 ∷
        leave_below ∷ []) ≡ Wrong }
    ensures builtins { behaviour Split freeing System 16 [] (enter_below 16 ∷
        step 0 (4 ∷ []) 0x70000000 ∷ step 1 (0x70000000 ∷ []) 0 ∷ leave_below ∷ []) ≡ Ended 1 }
    ensures no_pool { behaviour Split freeing System 16 [] (enter_below 16 ∷ event (Alloc 0x70000000 4) ∷
        []) ≡ Wrong }
    ensures pool_above { behaviour Split freeing Replay 16 [] (enter 16 ∷ event (Alloc 0x30000000 4) ∷
        event (Free 0x30000000 4) ∷ leave ∷ []) ≡ Ended 1 }
{}

/// A thread begins with a call through an address by system code: an Up of a function of the thread's type, or a fault.
pub fn a_thread_begins()
    ensures above { thread_behaviour working thread_type (function_address 16) (0 ∷ [])
        (event (Up 16 (0 ∷ [])) ∷ (works ++ event (UpRet 16 5) ∷ [])) ≡ Ended 5 }
    ensures no_up { thread_behaviour working thread_type (function_address 16) (0 ∷ []) works ≡ Wrong }
    ensures other_type { thread_behaviour working thread_type (function_address 17) (0 ∷ [])
        (below (Fault BadCall false [] [] Nowhere) ∷ []) ≡ Open }
    ensures no_function { thread_behaviour working thread_type (function_address 17) (0 ∷ [])
        (event (Up 17 (0 ∷ [])) ∷ []) ≡ Wrong }
{}
