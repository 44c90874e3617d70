//! The walk over values with two parts.

ghost use Rattle.std.specs.Prelude.{◌≡◌, false, OnOk};
ghost use Rattle.c_types_model.specs.Types.{Void};
ghost use Rattle.c_types_nodes.specs.Parts.{sum_in};
ghost use Rattle.c_types_nodes.specs.Tables.{IsValueAt, value_at};
ghost use Rattle.c_types_rules.specs.TypedTree as tree;
ghost use Rattle.lockset_check_values.specs.Setting.{guarded};
ghost use Rattle.lockset_check_values.specs.Walks.{IsWalkOf, object_walked, value_walked};

use crate::walk::Walk;
use crate::walker::Walker;
use c_types_nodes::{NodeId, Sum};
use std::alloc::AllocError;

impl Walker<'_, '_> {
    // Two values, the left one first.
    #[cycle(values)]
    pub(crate) fn pair(
        &self,
        walk: &mut Walk,
        left: NodeId,
        right: NodeId,
    ) -> Result<(), AllocError>
        requires left { IsValueAt self.now.program.table left }
        requires right { IsValueAt self.now.program.table right }
        requires walk { IsWalkOf self.now.sayings walk.old }
        ensures { OnOk result (walk.new ≡ value_walked (guarded self.now) false
            (tree.Sequence (value_at self.now.program.table left)
            (value_at self.now.program.table right)) walk.old) }
    {
        self.value(walk, left)?;
        self.value(walk, right)
    }

    // A pointer and an integer, in the order in which they stand.
    #[cycle(values)]
    pub(crate) fn sum(
        &self,
        walk: &mut Walk,
        sum: Sum,
        pointer: NodeId,
        index: NodeId,
    ) -> Result<(), AllocError>
        requires pointer { IsValueAt self.now.program.table pointer }
        requires index { IsValueAt self.now.program.table index }
        requires walk { IsWalkOf self.now.sayings walk.old }
        ensures { OnOk result (walk.new ≡ value_walked (guarded self.now) false
            (tree.PointerSum (sum_in sum) (value_at self.now.program.table pointer)
            (value_at self.now.program.table index) 0) walk.old) }
    {
        match sum {
            Sum::PlusPointer => self.pair(walk, index, pointer),
            Sum::PointerPlus | Sum::PointerMinus => self.pair(walk, pointer, index),
        }
    }

    // A subscript: an array that is subscripted makes no pointer.
    #[cycle(values)]
    pub(crate) fn element(
        &self,
        walk: &mut Walk,
        sum: Sum,
        pointer: NodeId,
        index: NodeId,
    ) -> Result<(), AllocError>
        requires pointer { IsValueAt self.now.program.table pointer }
        requires index { IsValueAt self.now.program.table index }
        requires walk { IsWalkOf self.now.sayings walk.old }
        ensures { OnOk result (walk.new ≡ object_walked (guarded self.now)
            (tree.Element (sum_in sum) (value_at self.now.program.table pointer)
            (value_at self.now.program.table index) Void) walk.old) }
    {
        match sum {
            Sum::PlusPointer => {
                self.value(walk, index)?;
                self.node(walk, pointer, true)
            }
            Sum::PointerPlus | Sum::PointerMinus => {
                self.node(walk, pointer, true)?;
                self.value(walk, index)
            }
        }
    }
}
