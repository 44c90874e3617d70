//! Code of what is evaluated in part, or one after another.

ghost use Rattle.std.specs.Prelude.{◌≡◌, ◌++◌, OnOk};
ghost use Rattle.c_types_nodes.specs.Tables.{IsValueAt, value_at};
ghost use Rattle.c_types_rules.specs.TypedTree as tree;
ghost use Rattle.c_lower_placement.specs.Code.{value_code};
ghost use Rattle.c_lower_bodies.specs.Making.{making};

use crate::backward::Backward;
use crate::emitter::Emitter;
use c_code::{Change, Instr};
use c_types_nodes::NodeId;
use std::alloc::AllocError;

impl Emitter<'_, '_, '_> {
    // The right side is passed where the left one is 0 (C11 6.5.13, 4).
    #[cycle(values)]
    pub(crate) fn both(
        &self,
        code: &mut Backward,
        left: NodeId,
        right: NodeId,
    ) -> Result<(), AllocError>
        requires left { IsValueAt self.now.declared.table left }
        requires right { IsValueAt self.now.declared.table right }
        ensures { OnOk result (code.new ≡ value_code
            (tree.Both (value_at self.now.declared.table left) (value_at self.now.declared.table right))
            (making self.now) ++ code.old) }
    {
        let end = code.len();
        self.change(code, right, Change::Truth)?;
        code.put(Instr::EndIfZero(code.len() - end))?;
        self.value(code, left)
    }

    // The second is passed where the first isn't 0 (C11 6.5.14, 4).
    #[cycle(values)]
    pub(crate) fn either(
        &self,
        code: &mut Backward,
        first: NodeId,
        second: NodeId,
    ) -> Result<(), AllocError>
        requires first { IsValueAt self.now.declared.table first }
        requires second { IsValueAt self.now.declared.table second }
        ensures { OnOk result (code.new ≡ value_code
            (tree.Either (value_at self.now.declared.table first)
            (value_at self.now.declared.table second)) (making self.now) ++ code.old) }
    {
        let end = code.len();
        self.change(code, second, Change::Truth)?;
        code.put(Instr::EndUnlessZero(code.len() - end))?;
        self.value(code, first)
    }

    // One of two values (C11 6.5.15, 4).
    #[cycle(values)]
    pub(crate) fn choice(
        &self,
        code: &mut Backward,
        condition: NodeId,
        then: NodeId,
        other: NodeId,
    ) -> Result<(), AllocError>
        requires condition { IsValueAt self.now.declared.table condition }
        requires then { IsValueAt self.now.declared.table then }
        requires other { IsValueAt self.now.declared.table other }
        ensures { OnOk result (code.new ≡ value_code
            (tree.Choice (value_at self.now.declared.table condition)
            (value_at self.now.declared.table then) (value_at self.now.declared.table other))
            (making self.now) ++ code.old) }
    {
        let end = code.len();
        self.value(code, other)?;
        let second = code.len();
        code.put(Instr::GoOn(second - end))?;
        self.value(code, then)?;
        code.put(Instr::SkipIfZero(code.len() - second))?;
        self.value(code, condition)
    }

    // Two values, of which the first is dropped (C11 6.5.17, 2).
    #[cycle(values)]
    pub(crate) fn sequence(
        &self,
        code: &mut Backward,
        first: NodeId,
        second: NodeId,
    ) -> Result<(), AllocError>
        requires first { IsValueAt self.now.declared.table first }
        requires second { IsValueAt self.now.declared.table second }
        ensures { OnOk result (code.new ≡ value_code
            (tree.Sequence (value_at self.now.declared.table first)
            (value_at self.now.declared.table second)) (making self.now) ++ code.old) }
    {
        self.value(code, second)?;
        code.put(Instr::Drop)?;
        self.value(code, first)
    }
}
