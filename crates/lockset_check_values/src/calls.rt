//! The walk over calls.

ghost use Rattle.std.specs.Prelude.{◌≡◌, false, OnOk};
ghost use Rattle.std.specs.List.{All};
ghost use Rattle.c_builtins.specs.declared.builtin.Builtin.TheVariants.{Lock, Unlock};
ghost use Rattle.c_types_model.specs.Types.{Void};
ghost use Rattle.c_types_rules.specs.TypedTree as tree;
ghost use Rattle.c_types_nodes.specs.Parts.{values};
ghost use Rattle.c_types_nodes.specs.Tables.{IsFunctionAt, IsValueAt, callee_at, typed_of};
ghost use Rattle.lockset_check_rules.specs.After.{mutex_of};
ghost use Rattle.lockset_check_values.specs.Setting.{guarded};
ghost use Rattle.lockset_check_values.specs.Walks.{IsWalkOf, builtin_walked, call_walked, value_walked};

use crate::walk::Walk;
use crate::walker::Walker;
use c_builtins::Builtin;
use c_types_nodes::{Node, NodeId};
use lockset_check_rules::LockFinding;
use std::alloc::AllocError;

impl Walker<'_, '_> {
    // What is called comes first, and then the arguments (C11 6.5.2.2).
    #[cycle(values)]
    pub(crate) fn call(
        &self,
        walk: &mut Walk,
        callee: NodeId,
        arguments: &[NodeId],
    ) -> Result<(), AllocError>
        requires callee { IsFunctionAt self.now.program.table callee }
        requires arguments { All (IsValueAt self.now.program.table) arguments.now }
        requires walk { IsWalkOf self.now.sayings walk.old }
        ensures { OnOk result (walk.new ≡ value_walked (guarded self.now) false
            (tree.CallOf (callee_at self.now.program.table callee)
            (values (typed_of self.now.program.table) arguments.now) Void) walk.old) }
    {
        self.node(walk, callee, false)?;
        self.values(walk, arguments)?;
        self.called(walk, callee, arguments)
    }

    // The call itself.
    fn called(
        &self,
        walk: &mut Walk,
        callee: NodeId,
        arguments: &[NodeId],
    ) -> Result<(), AllocError>
        requires callee { IsFunctionAt self.now.program.table callee }
        requires arguments { All (IsValueAt self.now.program.table) arguments.now }
        requires walk { IsWalkOf self.now.sayings walk.old }
        ensures { OnOk result (walk.new ≡ call_walked (guarded self.now)
            (callee_at self.now.program.table callee)
            (values (typed_of self.now.program.table) arguments.now) walk.old) }
    {
        match self.table().get(callee) {
            Node::SourceFunction { from, number, .. } => self.called_function(walk, *from, *number),
            Node::BuiltinFunction { from, builtin, .. } => self.called_builtin(
                walk, *from, *builtin, arguments,
            ),
            _ => Ok(()),
        }
    }

    // The call of a builtin, which is named at this offset.
    fn called_builtin(
        &self,
        walk: &mut Walk,
        from: u32,
        builtin: Builtin,
        arguments: &[NodeId],
    ) -> Result<(), AllocError>
        requires { All (IsValueAt self.now.program.table) arguments.now }
        ensures { OnOk result (walk.new ≡ builtin_walked from builtin
            (values (typed_of self.now.program.table) arguments.now) walk.old) }
    {
        match builtin {
            Builtin::Lock => self.lock(walk, from, arguments),
            Builtin::Unlock => self.unlock(walk, from, arguments),
            Builtin::Malloc | Builtin::Free | Builtin::Spawn | Builtin::Join | Builtin::Print => Ok(
                (),
            ),
        }
    }

    // r2_lock, which is named at this offset.
    fn lock(&self, walk: &mut Walk, from: u32, arguments: &[NodeId]) -> Result<(), AllocError>
        requires { All (IsValueAt self.now.program.table) arguments.now }
        ensures { OnOk result (walk.new ≡ builtin_walked from Lock
            (values (typed_of self.now.program.table) arguments.now) walk.old) }
    {
        match self.mutex(arguments) {
            Some(mutex) => walk.add(mutex),
            None => walk.find(LockFinding::NotConstant(from)),
        }
    }

    // r2_unlock, which is named at this offset. What isn't held isn't held after it either.
    fn unlock(&self, walk: &mut Walk, from: u32, arguments: &[NodeId]) -> Result<(), AllocError>
        requires { All (IsValueAt self.now.program.table) arguments.now }
        ensures { OnOk result (walk.new ≡ builtin_walked from Unlock
            (values (typed_of self.now.program.table) arguments.now) walk.old) }
    {
        match self.mutex(arguments) {
            Some(mutex) => {
                let is_held = walk.has(mutex);
                walk.remove(mutex)?;
                if is_held {
                    return Ok(());
                }
                walk.find(LockFinding::UnlockUnheld(from))
            }
            None => walk.find(LockFinding::NotConstant(from)),
        }
    }

    // The mutex that an argument names.
    fn mutex(&self, arguments: &[NodeId]) -> Option<i128>
        requires { All (IsValueAt self.now.program.table) arguments.now }
        ensures { result ≡ mutex_of (values (typed_of self.now.program.table) arguments.now) }
    {
        match arguments {
            [] => None,
            [first, ..] => self.table().integer_constant(*first),
        }
    }
}
