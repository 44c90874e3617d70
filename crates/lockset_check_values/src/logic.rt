//! The walk over what is evaluated in part.

ghost use Rattle.std.specs.Prelude.{◌≡◌, false, OnOk};
ghost use Rattle.c_types_nodes.specs.Tables.{IsValueAt, value_at};
ghost use Rattle.c_types_rules.specs.TypedTree as tree;
ghost use Rattle.lockset_check_values.specs.Setting.{guarded};
ghost use Rattle.lockset_check_values.specs.Walks.{IsWalkOf, value_walked};

use crate::walk::Walk;
use crate::walker::Walker;
use c_types_nodes::NodeId;
use std::alloc::AllocError;

impl Walker<'_, '_> {
    // The second value is evaluated or not (C11 6.5.13, 4; 6.5.14, 4).
    #[cycle(values)]
    pub(crate) fn one_or_both(
        &self,
        walk: &mut Walk,
        first: NodeId,
        second: NodeId,
    ) -> Result<(), AllocError>
        requires first { IsValueAt self.now.program.table first }
        requires second { IsValueAt self.now.program.table second }
        requires walk { IsWalkOf self.now.sayings walk.old }
        ensures { OnOk result (walk.new ≡ value_walked (guarded self.now) false
            (tree.Both (value_at self.now.program.table first)
            (value_at self.now.program.table second)) walk.old) }
    {
        self.value(walk, first)?;
        walk.keep()?;
        self.value(walk, second)?;
        walk.join()
    }

    // One of two values (C11 6.5.15, 4).
    #[cycle(values)]
    pub(crate) fn choice(
        &self,
        walk: &mut Walk,
        condition: NodeId,
        then: NodeId,
        other: NodeId,
    ) -> Result<(), AllocError>
        requires condition { IsValueAt self.now.program.table condition }
        requires then { IsValueAt self.now.program.table then }
        requires other { IsValueAt self.now.program.table other }
        requires walk { IsWalkOf self.now.sayings walk.old }
        ensures { OnOk result (walk.new ≡ value_walked (guarded self.now) false
            (tree.Choice (value_at self.now.program.table condition)
            (value_at self.now.program.table then)
            (value_at self.now.program.table other)) walk.old) }
    {
        self.value(walk, condition)?;
        walk.keep()?;
        self.value(walk, then)?;
        walk.turn()?;
        self.value(walk, other)?;
        walk.join()
    }
}
