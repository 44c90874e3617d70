//! Operations that are added one after another.

ghost use Rattle.std.specs.Prelude.{◌≡◌, [], ◌∷◌, Some, IfOk};
ghost use Rattle.stub_operations.specs.Growing.{IsAdded};
ghost use Rattle.stub_operations.specs.Operations.{only_if};

use std::alloc::{AllocError, Global};
use std::marker::Model;
use stub_operations::StubOp;

/// Operations, or that memory ran out: then nothing more is added to them.
#[derive(Drop)]
pub(crate) struct OperationList {
    ops: Vec<StubOp>,
    is_full: bool,
}

impl Model for OperationList {
    ghost use Rattle.std.specs.Prelude.{List, Option, Some, None, if◌then◌else◌};
    ghost use Rattle.stub_operations.specs.declared.operation.StubOp.{StubOp};

    ghost Value = { Option (List StubOp) };

    ghost view = { λ l. if l.is_full then None else Some l.ops.items };
}

impl OperationList {
    /// No operation.
    pub(crate) fn new(alloc: Global) -> OperationList
        ensures { result ≡ Some [] }
    {
        OperationList {
            ops: Vec::new(alloc),
            is_full: false,
        }
    }

    /// Adds the operation.
    pub(crate) fn put(&mut self, op: StubOp)
        ensures { IsAdded self.old (op ∷ []) self.new }
    {
        if self.ops.push(op).is_err() {
            self.is_full = true;
        }
    }

    /// Adds the operation where this holds.
    pub(crate) fn put_if(&mut self, holds: bool, op: StubOp)
        ensures { IsAdded self.old (only_if holds op) self.new }
    {
        if holds {
            self.put(op);
        }
    }

    /// The operations. `AllocError` where memory ran out.
    pub(crate) fn finish(self) -> Result<Vec<StubOp>, AllocError>
        ensures { IfOk result (λ v. self ≡ Some v.items) }
    {
        let OperationList { ops, is_full } = self;
        if is_full { Err(AllocError) } else { Ok(ops) }
    }
}
