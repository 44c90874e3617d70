//! Code of operators on one and two values.

ghost use Rattle.std.specs.Prelude.{◌≡◌, ◌<◌, ◌++◌, length, OnOk};
ghost use Rattle.c_code.specs.declared.instr.Change.TheVariants as change;
ghost use Rattle.c_code.specs.declared.instr.Instr.TheVariants as instr;
ghost use Rattle.c_types_table.specs.Tables.{type_at};
ghost use Rattle.c_types_nodes.specs.Parts.{sum_in};
ghost use Rattle.c_types_nodes.specs.Tables.{IsObjectAt, IsValueAt, object_at, value_at};
ghost use Rattle.c_types_rules.specs.TypedTree as tree;
ghost use Rattle.c_types_rules.specs.TypedTree.{object_type};
ghost use Rattle.c_semantics.specs.Context.{member_offset};
ghost use Rattle.c_lower_placement.specs.Code.{object_code, one, sum_code, value_code};
ghost use Rattle.c_lower_bodies.specs.Making.{making};

use crate::backward::Backward;
use crate::emitter::Emitter;
use c_code::{Change, Combine, Instr};
use c_types_nodes::{NodeId, Sum};
use c_types_table::TypeId;
use r2_num::IntKind;
use std::alloc::AllocError;

impl Emitter<'_, '_, '_> {
    // Two values, the left one first, and what becomes of them.
    #[cycle(values)]
    pub(crate) fn pair(
        &self,
        code: &mut Backward,
        left: NodeId,
        right: NodeId,
        how: Combine,
    ) -> Result<(), AllocError>
        requires left { IsValueAt self.now.declared.table left }
        requires right { IsValueAt self.now.declared.table right }
        ensures { OnOk result (code.new ≡ (value_code (value_at self.now.declared.table left)
            (making self.now) ++ (value_code (value_at self.now.declared.table right) (making self.now) ++
            one (instr.Combine how))) ++ code.old) }
    {
        code.put(Instr::Combine(how))?;
        self.value(code, right)?;
        self.value(code, left)
    }

    // A pointer and an integer, in the order in which they stand.
    #[cycle(values)]
    pub(crate) fn sum(
        &self,
        code: &mut Backward,
        sum: Sum,
        pointer: NodeId,
        index: NodeId,
        size: u64,
    ) -> Result<(), AllocError>
        requires pointer { IsValueAt self.now.declared.table pointer }
        requires index { IsValueAt self.now.declared.table index }
        ensures { OnOk result (code.new ≡ sum_code (sum_in sum)
            (value_code (value_at self.now.declared.table pointer) (making self.now))
            (value_code (value_at self.now.declared.table index) (making self.now)) size ++ code.old) }
    {
        match sum {
            Sum::PointerPlus => self.pair(code, pointer, index, Combine::Index(size)),
            Sum::PlusPointer => self.pair(code, index, pointer, Combine::IndexOf(size)),
            Sum::PointerMinus => {
                code.put(Instr::Combine(Combine::Index(size)))?;
                code.put(Instr::Change(Change::Negate(IntKind::I64)))?;
                self.value(code, index)?;
                self.value(code, pointer)
            }
        }
    }

    // A value, and what becomes of it.
    #[cycle(values)]
    pub(crate) fn change(
        &self,
        code: &mut Backward,
        value: NodeId,
        how: Change,
    ) -> Result<(), AllocError>
        requires { IsValueAt self.now.declared.table value }
        ensures { OnOk result (code.new ≡ (value_code (value_at self.now.declared.table value)
            (making self.now) ++ one (instr.Change how)) ++ code.old) }
    {
        code.put(Instr::Change(how))?;
        self.value(code, value)
    }

    // A value that is converted, by an instruction where that may change it.
    #[cycle(values)]
    pub(crate) fn convert(
        &self,
        code: &mut Backward,
        ty: TypeId,
        value: NodeId,
    ) -> Result<(), AllocError>
        requires value { IsValueAt self.now.declared.table value }
        requires ty { ty.0 < length self.now.declared.table.types }
        ensures { OnOk result (code.new ≡ value_code
            (tree.Convert (type_at self.now.declared.table.types ty)
            (value_at self.now.declared.table value)) (making self.now) ++ code.old) }
    {
        if self.converts(ty, value) {
            self.change(code, value, Change::Convert(self.index().kind(ty)))
        } else {
            self.value(code, value)
        }
    }

    // What an object holds, if it is scalar, and else its address.
    #[cycle(values)]
    pub(crate) fn read(&self, code: &mut Backward, object: NodeId) -> Result<(), AllocError>
        requires { IsObjectAt self.now.declared.table object }
        ensures { OnOk result (code.new ≡ value_code
            (tree.ReadOf (object_at self.now.declared.table object)) (making self.now) ++ code.old) }
    {
        if self.index().is_read(self.table().type_of(object)) {
            code.put(Instr::Load(self.object_kind(object), self.origin(object)))?;
        }
        self.object(code, object)
    }

    // The address of a member.
    #[cycle(values)]
    pub(crate) fn member(
        &self,
        code: &mut Backward,
        object: NodeId,
        number: u32,
    ) -> Result<(), AllocError>
        requires { IsObjectAt self.now.declared.table object }
        ensures { OnOk result (code.new ≡ (object_code (object_at self.now.declared.table object)
            (making self.now) ++ one (instr.Change
            (change.Offset (member_offset (making self.now).against.source
            (object_type (object_at self.now.declared.table object)) number)))) ++ code.old) }
    {
        let offset = self
            .index()
            .member_offset(self.table().type_of(object), number);
        code.put(Instr::Change(Change::Offset(offset)))?;
        self.object(code, object)
    }
}
