//! The operations of the builtins.

ghost use Rattle.std.specs.Prelude.{◌≡◌};
ghost use Rattle.stub_operations.specs.Builtins.{builtin_operations};

use crate::operation::StubOp;
use c_builtins::Builtin;
use run_events::Class;
use stub_core::{Size, Term};

const SPAWN: [StubOp; 1] = [StubOp::Register { param: 0 }];

const JOIN: [StubOp; 1] = [StubOp::KeyAtRet {
    class: Class::Thread,
    param: Some(0),
}];

const LOCK: [StubOp; 1] = [StubOp::KeyAtRet {
    class: Class::Mutex,
    param: Some(0),
}];

const UNLOCK: [StubOp; 1] = [StubOp::KeyAtCall {
    class: Class::Mutex,
    param: Some(0),
}];

const PRINT: [StubOp; 2] = [
    StubOp::ReadIn {
        param: 0,
        size: Size {
            a: Term::Param(1),
            b: None,
        },
    },
    StubOp::KeyAtCall {
        class: Class::Out,
        param: None,
    },
];

/// What is done at the calls of a builtin, in the order of operations. Those of memory are in no interface and have none.
pub fn builtin_operations(builtin: Builtin) -> &'static [StubOp]
    ensures { result.now ≡ builtin_operations builtin }
{
    match builtin {
        Builtin::Malloc => &[],
        Builtin::Free => &[],
        Builtin::Spawn => &SPAWN,
        Builtin::Join => &JOIN,
        Builtin::Lock => &LOCK,
        Builtin::Unlock => &UNLOCK,
        Builtin::Print => &PRINT,
    }
}
