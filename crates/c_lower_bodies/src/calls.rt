//! Code of calls.

ghost use Rattle.std.specs.Prelude.{◌≡◌, ◌++◌, OnOk};
ghost use Rattle.std.specs.List.{All};
ghost use Rattle.c_types_nodes.specs.Parts.{values};
ghost use Rattle.c_types_nodes.specs.Tables.{IsFunctionAt, IsNode, IsValueAt, callee_at, node_at, typed_of};
ghost use Rattle.c_lower_bodies.specs.Making.{making};
ghost use Rattle.c_lower_bodies.specs.TypedCode.{call_of, calling_code};

use crate::backward::Backward;
use crate::emitter::Emitter;
use crate::step::Step;
use c_types_nodes::{Node, NodeId};
use std::alloc::AllocError;

impl Emitter<'_, '_, '_> {
    // The arguments stand on top of the pointer, if there is one (C11 6.5.2.2).
    #[cycle(values)]
    pub(crate) fn call(
        &self,
        code: &mut Backward,
        callee: NodeId,
        arguments: &[NodeId],
    ) -> Result<(), AllocError>
        requires callee { IsFunctionAt self.now.declared.table callee }
        requires arguments { All (IsValueAt self.now.declared.table) arguments.now }
        ensures { OnOk result (code.new ≡ call_of (callee_at self.now.declared.table callee)
            (values (typed_of self.now.declared.table) arguments.now) (making self.now) ++ code.old) }
    {
        self.put_call(code, callee, arguments.len())?;
        self.values(code, arguments)?;
        self.node(code, callee)
    }

    // The call itself.
    fn put_call(&self, code: &mut Backward, callee: NodeId, count: usize) -> Result<(), AllocError>
        requires { IsNode self.now.declared.table callee }
        ensures { OnOk result (code.new ≡ calling_code (node_at self.now.declared.table callee)
            (making self.now) count ++ code.old) }
    {
        match self.table().get(callee) {
            Node::SourceFunction { number, .. } => code.put_step(Step::Call(*number, count)),
            Node::BuiltinFunction { builtin, .. } => code.put_step(Step::Call(
                u32::from(builtin.number()),
                count,
            )),
            Node::Through(pointer, _) => {
                let sig = self.index().target_sig(self.table().type_of(*pointer));
                code.put_step(Step::CallPointer(sig, count))
            }
            _ => Ok(()),
        }
    }
}
