//! That what is said of builtins and what is done at their calls agree.

ghost use Rattle.std.specs.Prelude.{◌≡◌, [], ◌∷◌, ◌++◌, Some, None};
ghost use Rattle.run_events.specs.declared.key.Class.TheVariants.{Mutex, Thread, Out};
ghost use Rattle.c_builtins.specs.declared.builtin.Builtin.TheVariants as builtins;
ghost use Rattle.annot_reader.specs.Builtins.{builtin_note};
ghost use Rattle.stub_operations.specs.declared.operation.StubOp.TheVariants.{KeyAtCall, KeyAtRet};
ghost use Rattle.stub_operations.specs.Builtins.{builtin_operations};
ghost use Rattle.stub_operations.specs.Operations.{operations};
ghost use Rattle.call_operations.specs.Said.{call_says};

/// A law: the operations of a builtin are those of what is said of it, and its own keys.
pub fn builtins_do_what_is_said_of_them()
    ensures spawn { builtin_operations builtins.Spawn ≡
        operations (call_says (builtin_note builtins.Spawn).annots) }
    ensures join { builtin_operations builtins.Join ≡
        operations (call_says (builtin_note builtins.Join).annots) ++ KeyAtRet Thread (Some 0) ∷ [] }
    ensures lock { builtin_operations builtins.Lock ≡
        operations (call_says (builtin_note builtins.Lock).annots) ++ KeyAtRet Mutex (Some 0) ∷ [] }
    ensures unlock { builtin_operations builtins.Unlock ≡
        operations (call_says (builtin_note builtins.Unlock).annots) ++ KeyAtCall Mutex (Some 0) ∷ [] }
    ensures print { builtin_operations builtins.Print ≡
        operations (call_says (builtin_note builtins.Print).annots) ++ KeyAtCall Out None ∷ [] }
{}
