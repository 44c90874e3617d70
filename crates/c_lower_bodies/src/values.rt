//! Code of expressions.

ghost use Rattle.std.specs.Prelude.{◌≡◌, ◌++◌, OnOk};
ghost use Rattle.std.specs.List.{All};
ghost use Rattle.c_types_nodes.specs.Parts.{values};
ghost use Rattle.c_types_nodes.specs.Tables.{IsNode, IsObjectAt, IsValueAt, node_at, object_at, typed_of, value_at};
ghost use Rattle.c_lower_placement.specs.Code.{object_code, value_code, values_code};
ghost use Rattle.c_lower_bodies.specs.Making.{making};
ghost use Rattle.c_lower_bodies.specs.TypedCode.{typed_code};

use crate::backward::Backward;
use crate::emitter::Emitter;
use c_code::{Change, Combine, Instr, Push};
use c_types_nodes::{Node, NodeId};
use r2_num::{IntKind, pattern};
use std::alloc::AllocError;

impl Emitter<'_, '_, '_> {
    /// Puts the code of an expression before the other: of an object that of its address, of a function that of the
    /// pointer to it where it is called through one, and else of the value. `AllocError` only where there is no memory.
    #[cycle(values)]
    pub(crate) fn node(&self, code: &mut Backward, id: NodeId) -> Result<(), AllocError>
        requires { IsNode self.now.declared.table id }
        ensures { OnOk result (code.new ≡ typed_code (node_at self.now.declared.table id)
            (making self.now) ++ code.old) }
    {
        match self.table().get(id) {
            Node::GlobalObject { place, .. } => code.put(Instr::Push(Push::Global(*place))),
            Node::LocalObject(place, _) => code.put(Instr::Push(Push::Local(self.local_offset(
                *place,
            )))),
            Node::TextObject { from, .. } => code.put(Instr::Push(Push::Text(
                self.index().order_of(*from),
            ))),
            Node::Pointed(pointer, _) | Node::Through(pointer, _) => self.value(code, *pointer),
            Node::Element {
                sum,
                pointer,
                index,
                ty,
            } => self.sum(code, *sum, *pointer, *index, self.index().size_of(*ty)),
            Node::MemberOf(object, number, _) => self.member(code, *object, *number),
            Node::SourceFunction { .. } | Node::BuiltinFunction { .. } => Ok(()),
            Node::Constant(_, number) => code.put(Instr::Push(Push::Number(pattern(
                IntKind::U64,
                number.value(),
            )))),
            Node::FunctionAddress { number, .. } => code.put(Instr::Push(Push::Number(
                0x1000 + 16 * u64::from(*number),
            ))),
            Node::ReadOf(object) => self.read(code, *object),
            Node::AddressOf(object, _) => self.object(code, *object),
            Node::Convert(ty, value) => self.convert(code, *ty, *value),
            Node::Negate(kind, value) => self.change(code, *value, Change::Negate(*kind)),
            Node::Complement(kind, value) => self.change(code, *value, Change::Complement(*kind)),
            Node::Arithmetic(op, kind, left, right) => self.pair(
                code,
                *left,
                *right,
                Combine::Arith(*op, *kind),
            ),
            Node::PointerSum {
                sum,
                pointer,
                index,
                size,
            } => self.sum(code, *sum, *pointer, *index, *size),
            Node::PointerDifference(left, right, size) => self.pair(
                code,
                *left,
                *right,
                Combine::Distance(*size),
            ),
            Node::PointerComparison(op, left, right) => self.pair(
                code,
                *left,
                *right,
                Combine::Arith(*op, IntKind::U64),
            ),
            Node::Not(value) => self.change(code, *value, Change::Not),
            Node::Both(left, right) => self.both(code, *left, *right),
            Node::Either(left, right) => self.either(code, *left, *right),
            Node::Choice(condition, then, other) => self.choice(code, *condition, *then, *other),
            Node::Sequence(first, second) => self.sequence(code, *first, *second),
            Node::Assigned(object, value) => self.assigned(code, *object, *value),
            Node::Changed(object, op, kind, value) => self.changed(
                code, *object, *op, *kind, *value,
            ),
            Node::Moved {
                object,
                way,
                index,
                size,
            } => self.moved(code, *object, *way, *index, *size),
            Node::Stepped {
                object,
                way,
                given,
                size,
            } => self.stepped(code, *object, *way, *given, *size),
            Node::CallOf {
                callee,
                arguments,
                ..
            } => self.call(code, *callee, arguments.as_slice()),
        }
    }

    /// Puts the code of a value before the other.
    #[cycle(values)]
    pub(crate) fn value(&self, code: &mut Backward, id: NodeId) -> Result<(), AllocError>
        requires { IsValueAt self.now.declared.table id }
        ensures { OnOk result (code.new ≡ value_code (value_at self.now.declared.table id)
            (making self.now) ++ code.old) }
    {
        self.node(code, id)
    }

    /// Puts the code of an object's address before the other.
    #[cycle(values)]
    pub(crate) fn object(&self, code: &mut Backward, id: NodeId) -> Result<(), AllocError>
        requires { IsObjectAt self.now.declared.table id }
        ensures { OnOk result (code.new ≡ object_code (object_at self.now.declared.table id)
            (making self.now) ++ code.old) }
    {
        self.node(code, id)
    }

    /// Puts the code of values, from left to right, before the other.
    #[cycle(values)]
    pub(crate) fn values(&self, code: &mut Backward, ids: &[NodeId]) -> Result<(), AllocError>
        requires { All (IsValueAt self.now.declared.table) ids.now }
        ensures { OnOk result (code.new ≡ values_code (values (typed_of self.now.declared.table) ids.now)
            (making self.now) ++ code.old) }
    {
        match ids {
            [] => Ok(()),
            [first, others @ ..] => {
                self.values(code, others)?;
                self.value(code, *first)
            }
        }
    }
}
