//! What operations do in calls, by computation.

ghost use Rattle.std.specs.Prelude.{◌≡◌, ◌-◌, ◌^◌, [], ◌∷◌, true, Some, None};
ghost use Rattle.run_events.specs.declared.key.Class.TheVariants.{User, Async, Out, Mutex, Thread};
ghost use Rattle.marks.specs.Ranges.{range};
ghost use Rattle.c_builtins.specs.declared.builtin.Builtin.TheVariants as builtins;
ghost use Rattle.stub_operations.specs.Builtins.{builtin_operations};
ghost use Rattle.replay_runs.specs.Keys.{key};
ghost use Rattle.c_code.specs.Builtins.{int, prototype, size};
ghost use Rattle.c_code.specs.declared.shape.Shape.TheVariants.{Void, Pointer};
ghost use Rattle.stub_meaning.specs.Calls.{done, nothing};
ghost use Rattle.stub_meaning.specs.Scenes.{aio_read, aio_wait, copy, each, minus_one, recv, two_functions};

/// A law: a region has its size by the arguments and the result. NULL has none, and a negative size is 0.
pub fn regions_have_sizes_of_the_call()
    ensures filled { recv (3 ∷ 0x1000_0000 ∷ 8 ∷ []) 5 ≡ record nothing {
      outs = range 0x1000_0000 8 ∷ [];
      used = 5 ∷ [];
    } }
    // more than the capacity: a run ends there
    ensures too_long { (recv (3 ∷ 0x1000_0000 ∷ 8 ∷ []) 9).used ≡ 9 ∷ [] }
    ensures refused { (recv (3 ∷ 0x1000_0000 ∷ 8 ∷ []) minus_one).used ≡ 0 ∷ [] }
    ensures negative { (recv (3 ∷ 0x1000_0000 ∷ minus_one ∷ []) 0).outs ≡ range 0x1000_0000 0 ∷ [] }
    ensures null { recv (3 ∷ 0 ∷ 8 ∷ []) 5 ≡ record nothing { outs = range 0 0 ∷ []; used = 0 ∷ [] } }
    ensures product { (copy (0x1000_0000 ∷ 3 ∷ []) 0).ins ≡ range 0x1000_0000 24 ∷ [] }
    // a product of more than 64 bits is the greatest number of 64
    ensures great { (copy (0x1000_0000 ∷ 2 ^ 63 ∷ []) 0).ins ≡ range 0x1000_0000 (2 ^ 64 - 1) ∷ [] }
{}

/// A law: what is prepared and released goes by the value of its key, and a negative used size releases nothing.
pub fn released_regions_have_keys()
    ensures prepared { aio_read (0x1000_0000 ∷ 4 ∷ 9 ∷ []) 0 ≡ record nothing {
      prepares = record { key = 9; range = range 0x1000_0000 4 } ∷ [];
      keys_at_call = key Async 9 ∷ [];
    } }
    ensures released { aio_wait (9 ∷ []) 2 ≡ record nothing {
      commits = record { key = 9; used = Some 2 } ∷ [];
      keys_at_return = key Async 9 ∷ [];
    } }
    ensures kept { (aio_wait (9 ∷ []) minus_one).commits ≡ record { key = 9; used = None } ∷ [] }
{}

/// A law: what is registered is a function of the source of whatever type, and keys are the patterns of values.
pub fn callbacks_and_keys_are_those_of_values()
    ensures registered { each (0x1110 ∷ minus_one ∷ []) 0 ≡ record nothing {
      registers = 17 ∷ [];
      keys_at_call = key User minus_one ∷ [];
      keys_at_return = key User minus_one ∷ [];
      is_cached = true;
    } }
    ensures null { (each (0 ∷ 1 ∷ []) 0).registers ≡ [] }
    ensures between { (each (0x1111 ∷ 1 ∷ []) 0).registers ≡ [] }
    ensures builtin { (each (0x1020 ∷ 1 ∷ []) 0).registers ≡ [] }
    ensures unknown { (each (0x1120 ∷ 1 ∷ []) 0).registers ≡ [] }
    ensures print { done two_functions (record {
      type = prototype (Pointer ∷ size ∷ []) Void;
      args = 0x10_0000 ∷ 6 ∷ [];
      result = 0;
    }) (builtin_operations builtins.Print) ≡ record nothing {
      ins = range 0x10_0000 6 ∷ [];
      keys_at_call = key Out 0 ∷ [];
    } }
    ensures lock { done two_functions (record { type = prototype (int ∷ []) int; args = 4 ∷ []; result = 0 })
        (builtin_operations builtins.Lock) ≡ record nothing { keys_at_return = key Mutex 4 ∷ [] } }
    ensures join { done two_functions (record { type = prototype (int ∷ []) int; args = 4 ∷ []; result = 0 })
        (builtin_operations builtins.Join) ≡ record nothing { keys_at_return = key Thread 4 ∷ [] } }
{}
