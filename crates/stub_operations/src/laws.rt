//! What annotations give, by computation.

ghost use Rattle.std.specs.Prelude.{◌≡◌, [], ◌∷◌, true, Some, None};
ghost use Rattle.run_events.specs.declared.key.Class.TheVariants.{User, Async};
ghost use Rattle.stub_core.specs.declared.terms.Term.TheVariants.{Const, Param, Return};
ghost use Rattle.stub_operations.specs.declared.operation.StubOp.TheVariants.{ReadIn, HoldOut, Prepare, Register, Commit, KeyAtCall, KeyAtRet, CacheRet};
ghost use Rattle.stub_operations.specs.Operations.{operations, operations_below};
ghost use Rattle.stub_operations.specs.Examples.{one, plain, saying};

/// A law: each annotation gives its operations, kind by kind and by parameter, and keys come once, by class.
pub fn operations_come_in_order()
    // out, cap(len), bsize(return), as of the second of three parameters
    ensures filled { operations (saying (plain ∷
        record plain { writes = Some (one (Param 2), one Return) } ∷ plain ∷ [])) ≡
        HoldOut 1 (one (Param 2)) (one Return) ∷ [] }
    // in and out of one parameter, and out of the one before it
    ensures kinds { operations (saying (record plain { writes = Some (one (Const 4), one (Const 4)) } ∷
        record plain { reads = Some (one (Const 8)); writes = Some (one (Const 8), one (Const 8)) } ∷ [])) ≡
        ReadIn 1 (one (Const 8)) ∷ HoldOut 0 (one (Const 4)) (one (Const 4)) ∷
        HoldOut 1 (one (Const 8)) (one (Const 8)) ∷ [] }
    // sync(k) and prepare(k): both keys at the call, by class; one at the return
    ensures keys { operations (record (saying (record plain { prepares = Some (1, one (Const 1)) } ∷
        plain ∷ [])) { sync = 1 ∷ [] }) ≡
        Prepare 0 1 (one (Const 1)) ∷ KeyAtCall User (Some 1) ∷ KeyAtCall Async (Some 1) ∷
        KeyAtRet User (Some 1) ∷ [] }
    // two regions under one key, and keys of two parameters against the order of their annotations
    ensures once { operations (record (saying (record plain { prepares = Some (2, one (Const 1)) } ∷
        record plain { prepares = Some (2, one (Const 1)) } ∷ plain ∷ [])) { sync = 2 ∷ 1 ∷ [] }) ≡
        Prepare 0 2 (one (Const 1)) ∷ Prepare 1 2 (one (Const 1)) ∷ KeyAtCall User (Some 1) ∷
        KeyAtCall User (Some 2) ∷ KeyAtCall Async (Some 2) ∷ KeyAtRet User (Some 1) ∷
        KeyAtRet User (Some 2) ∷ [] }
    // commit(k, return): its key is one of the return alone
    ensures released { operations (record (saying (plain ∷ [])) { commit = Some (0, one Return) }) ≡
        Commit 0 (one Return) ∷ KeyAtRet Async (Some 0) ∷ [] }
    ensures others { operations (record (saying (plain ∷ record plain { callback = true } ∷ [])) {
      cache = true;
    }) ≡ Register 1 ∷ CacheRet ∷ [] }
    // below the cut there are no keys, no callbacks and nothing that is read
    ensures below { operations_below (record (saying (record plain {
      reads = Some (one (Const 2));
      writes =
          Some (one (Const 2), one (Const 2));
    } ∷ record plain { prepares = Some (0, one (Const 1)) } ∷ [])) {
      sync = 0 ∷ [];
      commit = Some (0, one Return);
      cache = true;
    }) ≡ HoldOut 0 (one (Const 2)) (one (Const 2)) ∷ Prepare 1 0 (one (Const 1)) ∷
        Commit 0 (one Return) ∷ [] }
{}
