//! Conversions that have an instruction.

ghost use Rattle.std.specs.Prelude.{◌≡◌, ◌<◌, ◌++◌, length, OnOk};
ghost use Rattle.c_types_table.specs.Tables.{type_at};
ghost use Rattle.c_types_nodes.specs.Tables.{IsValueAt, value_at};
ghost use Rattle.c_lower_placement.specs.Code.{convert_code};
ghost use Rattle.c_lower_placement.specs.Conversions.{converts as converts_of, is_within as is_within_of, may_change as may_change_of, reconverts, scalar_kind as scalar_kind_of, sure_kind as sure_kind_of};

use crate::backward::Backward;
use crate::emitter::Emitter;
use c_code::{Change, Instr, convert};
use c_types_nodes::{Node, NodeId};
use c_types_table::TypeId;
use r2_num::{IntKind, pattern};
use std::alloc::AllocError;

// Whether a value that was converted to the first kind stays as it is when it is converted to the second: that kind has
// all bits of a pattern, or all values of the first.
fn is_within(from: IntKind, to: IntKind) -> bool
    ensures { result ≡ is_within_of from to }
{
    to.width() == 64 || (to.min() <= from.min() && from.max() <= to.max())
}

/// Puts the conversion of a value that was converted to the first kind, where one to the second may change it.
pub(crate) fn put_conversion(
    code: &mut Backward,
    from: IntKind,
    to: IntKind,
) -> Result<(), AllocError>
    ensures { OnOk result (code.new ≡ convert_code (reconverts from to) to ++ code.old) }
{
    if is_within(from, to) {
        Ok(())
    } else {
        code.put(Instr::Change(Change::Convert(to)))
    }
}

impl Emitter<'_, '_, '_> {
    /// Whether the conversion of a value to a type has an instruction: the type is scalar, and the form of the value
    /// doesn't show that it stays as it is.
    pub(crate) fn converts(&self, ty: TypeId, value: NodeId) -> bool
        requires value { IsValueAt self.now.declared.table value }
        requires ty { ty.0 < length self.now.declared.table.types }
        ensures { result ≡ converts_of (type_at self.now.declared.table.types ty)
            (value_at self.now.declared.table value) }
    {
        self.index().is_read(ty) && self.may_change(self.index().kind(ty), value)
    }

    // Whether a conversion to the kind may change the value; of a constant it is known.
    fn may_change(&self, kind: IntKind, value: NodeId) -> bool
        requires { IsValueAt self.now.declared.table value }
        ensures { result ≡ may_change_of kind (value_at self.now.declared.table value) }
    {
        match self.table().get(value) {
            Node::Constant(_, number) => {
                let number = pattern(IntKind::U64, number.value());
                convert(kind, number) != number
            }
            _ => match self.sure_kind(value) {
                Some(from) => !is_within(from, kind),
                None => true,
            },
        }
    }

    // The kind to which all that a value may be is converted already, where its form tells.
    fn sure_kind(&self, value: NodeId) -> Option<IntKind>
        requires { IsValueAt self.now.declared.table value }
        ensures { result ≡ sure_kind_of (value_at self.now.declared.table value) }
    {
        match self.table().get(value) {
            Node::ReadOf(object) => self.scalar_kind(self.table().type_of(*object)),
            Node::Convert(ty, _) => self.scalar_kind(*ty),
            Node::Negate(kind, _) | Node::Complement(kind, _) | Node::Arithmetic(_, kind, ..) =>
                Some(*kind),
            Node::PointerComparison(..) => Some(IntKind::U64),
            Node::Not(_) | Node::Both(..) | Node::Either(..) => Some(IntKind::I32),
            _ => None,
        }
    }

    // The kind of a scalar type.
    fn scalar_kind(&self, ty: TypeId) -> Option<IntKind>
        requires { ty.0 < length self.now.declared.table.types }
        ensures { result ≡ scalar_kind_of (type_at self.now.declared.table.types ty) }
    {
        if self.index().is_read(ty) {
            Some(self.index().kind(ty))
        } else {
            None
        }
    }
}
