//! The walk over expressions.

ghost use Rattle.std.specs.Prelude.{◌≡◌, false, OnOk};
ghost use Rattle.std.specs.List.{All};
ghost use Rattle.c_types_nodes.specs.Parts.{values};
ghost use Rattle.c_types_nodes.specs.Tables.{IsNode, IsObjectAt, IsValueAt, node_at, object_at, typed_of, value_at};
ghost use Rattle.lockset_check_values.specs.Setting.{guarded};
ghost use Rattle.c_types_program.specs.Statements.{IsMaybeAt, maybe_at};
ghost use Rattle.lockset_check_values.specs.Walks.{IsWalkOf, maybe_walked, object_walked, typed_walked, value_walked, values_walked};

use crate::walk::Walk;
use crate::walker::Walker;
use c_types_nodes::{Node, NodeId};
use lockset_check_rules::Mention;
use std::alloc::AllocError;

impl Walker<'_, '_> {
    /// Over an expression, which may be a value that is subscripted.
    #[cycle(values)]
    pub(crate) fn node(
        &self,
        walk: &mut Walk,
        id: NodeId,
        subscripted: bool,
    ) -> Result<(), AllocError>
        requires node { IsNode self.now.program.table id }
        requires walk { IsWalkOf self.now.sayings walk.old }
        ensures { OnOk result (walk.new ≡ typed_walked (guarded self.now) subscripted
            (node_at self.now.program.table id) walk.old) }
    {
        match self.table().get(id) {
            Node::LocalObject(..)
            | Node::TextObject { .. }
            | Node::SourceFunction { .. }
            | Node::BuiltinFunction { .. }
            | Node::Constant(..) => Ok(()),
            Node::GlobalObject { from, place, .. } => {
                let mention = Mention {
                    from: *from,
                    place: *place,
                };
                self.unheld(walk, mention)
            }
            Node::FunctionAddress { from, number, .. } => self.function_address(
                walk, *from, *number,
            ),
            Node::Pointed(value, _)
            | Node::Through(value, _)
            | Node::Convert(_, value)
            | Node::Negate(_, value)
            | Node::Complement(_, value)
            | Node::Not(value) => self.value(walk, *value),
            Node::MemberOf(object, ..) => self.object(walk, *object),
            Node::ReadOf(object) => self.read(walk, *object),
            Node::AddressOf(object, ty) => self.address_of(walk, *object, *ty, subscripted),
            Node::Element {
                sum,
                pointer,
                index,
                ..
            } => self.element(walk, *sum, *pointer, *index),
            Node::PointerSum {
                sum,
                pointer,
                index,
                ..
            } => self.sum(walk, *sum, *pointer, *index),
            Node::Arithmetic(_, _, left, right)
            | Node::PointerDifference(left, right, _)
            | Node::PointerComparison(_, left, right)
            | Node::Sequence(left, right) => self.pair(walk, *left, *right),
            Node::Both(left, right) | Node::Either(left, right) => self.one_or_both(
                walk, *left, *right,
            ),
            Node::Choice(condition, then, other) => self.choice(walk, *condition, *then, *other),
            Node::Assigned(object, value) => self.assigned(walk, *object, *value),
            Node::Changed(object, _, _, value)
            | Node::Moved {
                object,
                index: value,
                ..
            } => self.changed(walk, *object, *value),
            Node::Stepped { object, .. } => self.stepped(walk, *object),
            Node::CallOf {
                callee,
                arguments,
                ..
            } => self.call(walk, *callee, arguments.as_slice()),
        }
    }

    /// Over a value that isn't subscripted.
    #[cycle(values)]
    pub fn value(&self, walk: &mut Walk, id: NodeId) -> Result<(), AllocError>
        requires value { IsValueAt self.now.program.table id }
        requires walk { IsWalkOf self.now.sayings walk.old }
        ensures { OnOk result (walk.new ≡ value_walked (guarded self.now) false
            (value_at self.now.program.table id) walk.old) }
    {
        self.node(walk, id, false)
    }

    /// Over a value, if there is one.
    pub fn maybe(&self, walk: &mut Walk, value: Option<NodeId>) -> Result<(), AllocError>
        requires value { IsMaybeAt self.now.program.table value }
        requires walk { IsWalkOf self.now.sayings walk.old }
        ensures { OnOk result (walk.new ≡ maybe_walked (guarded self.now)
            (maybe_at self.now.program.table value) walk.old) }
    {
        match value {
            Some(value) => self.value(walk, value),
            None => Ok(()),
        }
    }

    /// Over an object.
    #[cycle(values)]
    pub(crate) fn object(&self, walk: &mut Walk, id: NodeId) -> Result<(), AllocError>
        requires object { IsObjectAt self.now.program.table id }
        requires walk { IsWalkOf self.now.sayings walk.old }
        ensures { OnOk result (walk.new ≡ object_walked (guarded self.now)
            (object_at self.now.program.table id) walk.old) }
    {
        self.node(walk, id, false)
    }

    /// Over values, from left to right.
    #[cycle(values)]
    pub(crate) fn values(&self, walk: &mut Walk, ids: &[NodeId]) -> Result<(), AllocError>
        requires values { All (IsValueAt self.now.program.table) ids.now }
        requires walk { IsWalkOf self.now.sayings walk.old }
        ensures { OnOk result (walk.new ≡ values_walked (guarded self.now)
            (values (typed_of self.now.program.table) ids.now) walk.old) }
    {
        match ids {
            [] => Ok(()),
            [first, others @ ..] => {
                self.value(walk, *first)?;
                self.values(walk, others)
            }
        }
    }
}
