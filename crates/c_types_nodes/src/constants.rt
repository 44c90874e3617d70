//! Integer constant expressions (C11 6.6).

ghost use Rattle.std.specs.Prelude.{◌≡◌, ◌<◌, length, IfSome};
ghost use Rattle.r2_num.specs.Kinds.{IsValue};
ghost use Rattle.r2_num.specs.Operations.{IsAnyValue};
ghost use Rattle.r2_num.specs.declared.kinds.IntKind.{IntKind};
ghost use Rattle.c_types_model.specs.Types.{Integer};
ghost use Rattle.c_types_table.specs.Tables.{type_at};
ghost use Rattle.c_types_rules.specs.TypedTree.{value_type};
ghost use Rattle.c_types_rules.specs.TypeTests.{kind_in};
ghost use Rattle.c_types_rules.specs.Constants.{constant_value as constant_value_of, integer_constant as integer_constant_of, is_null as is_null_value, is_of_constants as is_of_constants_value};
ghost use Rattle.c_types_nodes.specs.Tables.{IsValueAt, value_at};

use crate::ids::NodeId;
use crate::node::Node;
use crate::table::TypedTable;
use c_types_table::{Ty, TypeId, Types};
use r2_num::{IntKind, binary, wrap};

// The kind of an integer type.
fn kind_of(types: &Types, ty: TypeId) -> Option<IntKind>
    requires { ty.0 < length types.now }
    ensures { result ≡ kind_in (type_at types.now ty) }
{
    match types.get(ty) {
        Ty::Int(kind) => Some(*kind),
        _ => None,
    }
}

impl TypedTable {
    // Whether every part of a value is of integer constants.
    fn is_of_constants(&self, id: NodeId) -> bool
        requires { IsValueAt self.now id }
        ensures { result ≡ is_of_constants_value (value_at self.now id) }
    {
        match self.get(id) {
            Node::Constant(..) => true,
            Node::Convert(ty, value) => kind_of(self.types(), *ty).is_some()
                && self.is_of_constants(*value),
            Node::Negate(_, value) | Node::Complement(_, value) | Node::Not(value) =>
                self.is_of_constants(*value),
            Node::Arithmetic(_, _, left, right)
            | Node::Both(left, right)
            | Node::Either(left, right) => self.is_of_constants(*left)
                && self.is_of_constants(*right),
            Node::Choice(condition, then, other) => self.is_of_constants(*condition)
                && self.is_of_constants(*then)
                && self.is_of_constants(*other),
            _ => false,
        }
    }

    // The value of a constant, where the parts that are evaluated have one (C11 6.6, 3 and 4).
    fn constant_value(&self, id: NodeId) -> Option<i128>
        requires { IsValueAt self.now id }
        ensures value { result ≡ constant_value_of (value_at self.now id) }
        ensures any { IfSome result IsAnyValue }
        ensures range { (k : IntKind) → value_type (value_at self.now id) ≡ Integer k →
            IfSome result (IsValue k) }
    {
        match self.get(id) {
            Node::Constant(_, number) => Some(number.value()),
            Node::Convert(ty, value) => {
                let value = self.constant_value(*value)?;
                Some(wrap(kind_of(self.types(), *ty)?, value))
            }
            Node::Negate(kind, value) => {
                let value = self.constant_value(*value)?;
                Some(wrap(*kind, -value))
            }
            Node::Complement(kind, value) => {
                let value = self.constant_value(*value)?;
                Some(wrap(*kind, -1 - value))
            }
            Node::Arithmetic(op, kind, left, right) => {
                let left = self.constant_value(*left)?;
                let right = self.constant_value(*right)?;
                binary(*op, *kind, left, right).ok()
            }
            Node::Not(value) => {
                let value = self.constant_value(*value)?;
                Some(i128::from(value == 0))
            }
            Node::Both(left, right) => {
                let left = self.constant_value(*left)?;
                if left == 0 {
                    Some(0)
                } else {
                    let right = self.constant_value(*right)?;
                    Some(i128::from(right != 0))
                }
            }
            Node::Either(left, right) => {
                let left = self.constant_value(*left)?;
                if left == 0 {
                    let right = self.constant_value(*right)?;
                    Some(i128::from(right != 0))
                } else {
                    Some(1)
                }
            }
            Node::Choice(condition, then, other) => {
                let condition = self.constant_value(*condition)?;
                self.constant_value(if condition == 0 { *other } else { *then })
            }
            _ => None,
        }
    }

    /// The value of an integer constant expression; `None` of any other (C11 6.6).
    ///
    /// Results wrap to their kind. It takes time linear in the parts of the value.
    pub fn integer_constant(&self, id: NodeId) -> Option<i128>
        requires { IsValueAt self.now id }
        ensures value { result ≡ integer_constant_of (value_at self.now id) }
        ensures range { (k : IntKind) → value_type (value_at self.now id) ≡ Integer k →
            IfSome result (IsValue k) }
    {
        if self.is_of_constants(id) {
            self.constant_value(id)
        } else {
            None
        }
    }

    /// Whether the value is an integer constant expression with the value 0 (C11 6.3.2.3, 3).
    pub fn is_null(&self, id: NodeId) -> bool
        requires { IsValueAt self.now id }
        ensures { result ≡ is_null_value (value_at self.now id) }
    {
        matches!(self.integer_constant(id), Some(0))
    }
}
