//! Where the type of a node, and the value that it is converted to, come from.

ghost use Rattle.std.specs.Prelude.{◌≡◌};
ghost use Rattle.c_types_rules.specs.TypedTree.{result_kind as result_kind_of};
ghost use Rattle.c_types_nodes.specs.Forms.{type_source as type_source_of, value_source as value_source_of};

use crate::ids::NodeId;
use crate::node::Node;
use c_types_table::TypeId;
use r2_num::{IntKind, Op};

/// Where the type of a node comes from.
#[derive(Clone, Copy)]
pub enum TypeSource {
    /// The node has its number.
    Carried(TypeId),
    Integer(IntKind),
    /// That of a part.
    TypeOf(NodeId),
    PointerTo(TypeId),
    /// An array of this many `char`.
    Chars(u64),
}

/// Where the value of a node comes from (C11 6.3.2.1, 2 to 4).
#[derive(Clone, Copy)]
pub enum ValueSource {
    /// The node is a value.
    Itself,
    /// The node is an object.
    Read,
    /// The node is a function, which is named at this offset, with this number and type.
    Address { from: u32, number: u32, ty: TypeId },
    /// The node is what this pointer points to.
    Part(NodeId),
}

// The kind of an operator's result: comparisons give int (C11 6.5.8, 6.5.9).
fn result_kind(op: Op, kind: IntKind) -> IntKind
    ensures { result ≡ result_kind_of op kind }
{
    match op {
        Op::Eq | Op::Ne | Op::Lt | Op::Le | Op::Gt | Op::Ge => IntKind::I32,
        _ => kind,
    }
}

impl Node {
    /// Where its type comes from.
    pub fn type_source(&self) -> TypeSource
        ensures { result ≡ type_source_of self.now }
    {
        match self {
            Node::GlobalObject { ty, .. }
            | Node::LocalObject(_, ty)
            | Node::Pointed(_, ty)
            | Node::Element { ty, .. }
            | Node::MemberOf(_, _, ty)
            | Node::SourceFunction { ty, .. }
            | Node::BuiltinFunction { ty, .. }
            | Node::Through(_, ty)
            | Node::AddressOf(_, ty)
            | Node::Convert(ty, _)
            | Node::CallOf { result: ty, .. } => TypeSource::Carried(*ty),
            Node::TextObject { length, .. } => TypeSource::Chars(u64::from(*length) + 1),
            Node::FunctionAddress { ty, .. } => TypeSource::PointerTo(*ty),
            Node::Constant(kind, _) | Node::Negate(kind, _) | Node::Complement(kind, _) =>
                TypeSource::Integer(*kind),
            Node::Arithmetic(op, kind, _, _) => TypeSource::Integer(result_kind(*op, *kind)),
            Node::PointerDifference(..) => TypeSource::Integer(IntKind::I64),
            Node::PointerComparison(..) | Node::Not(_) | Node::Both(..) | Node::Either(..) =>
                TypeSource::Integer(IntKind::I32),
            Node::ReadOf(part)
            | Node::PointerSum { pointer: part, .. }
            | Node::Choice(_, part, _)
            | Node::Sequence(_, part)
            | Node::Assigned(part, _)
            | Node::Changed(part, ..)
            | Node::Moved { object: part, .. }
            | Node::Stepped { object: part, .. } => TypeSource::TypeOf(*part),
        }
    }

    /// Where its value comes from.
    pub fn value_source(&self) -> ValueSource
        ensures { result ≡ value_source_of self.now }
    {
        match self {
            Node::GlobalObject { .. }
            | Node::LocalObject(..)
            | Node::TextObject { .. }
            | Node::Pointed(..)
            | Node::Element { .. }
            | Node::MemberOf(..) => ValueSource::Read,
            Node::SourceFunction { from, number, ty } => ValueSource::Address {
                from: *from,
                number: *number,
                ty: *ty,
            },
            Node::BuiltinFunction { from, ty, .. } => ValueSource::Address {
                from: *from,
                number: 0,
                ty: *ty,
            },
            Node::Through(value, _) => ValueSource::Part(*value),
            _ => ValueSource::Itself,
        }
    }
}
