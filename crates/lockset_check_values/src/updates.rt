//! The walk over what reads and changes objects.

ghost use Rattle.std.specs.Prelude.{◌≡◌, ◌<◌, length, false, OnOk};
ghost use Rattle.r2_num.specs.declared.kinds.IntKind.TheVariants.{I32};
ghost use Rattle.r2_num.specs.declared.operations.Op.TheVariants.{Add};
ghost use Rattle.c_types_table.specs.Tables.{type_at};
ghost use Rattle.c_types_nodes.specs.Tables.{IsObjectAt, IsValueAt, object_at, value_at};
ghost use Rattle.c_types_rules.specs.TypedTree as tree;
ghost use Rattle.lockset_check_values.specs.Setting.{guarded};
ghost use Rattle.lockset_check_values.specs.Walks.{IsWalkOf, value_walked};

use crate::walk::Walk;
use crate::walker::Walker;
use c_types_nodes::NodeId;
use c_types_table::TypeId;
use std::alloc::AllocError;

impl Walker<'_, '_> {
    // What an object holds is loaded, if it is scalar.
    #[cycle(values)]
    pub(crate) fn read(&self, walk: &mut Walk, object: NodeId) -> Result<(), AllocError>
        requires object { IsObjectAt self.now.program.table object }
        requires walk { IsWalkOf self.now.sayings walk.old }
        ensures { OnOk result (walk.new ≡ value_walked (guarded self.now) false
            (tree.ReadOf (object_at self.now.program.table object)) walk.old) }
    {
        self.object(walk, object)?;
        if self.is_scalar(object) {
            self.touch(walk, object)?;
        }
        Ok(())
    }

    // A pointer is made.
    #[cycle(values)]
    pub(crate) fn address_of(
        &self,
        walk: &mut Walk,
        object: NodeId,
        ty: TypeId,
        subscripted: bool,
    ) -> Result<(), AllocError>
        requires object { IsObjectAt self.now.program.table object }
        requires ty { ty.0 < length self.now.program.table.types }
        requires walk { IsWalkOf self.now.sayings walk.old }
        ensures { OnOk result (walk.new ≡ value_walked (guarded self.now) subscripted
            (tree.AddressOf (object_at self.now.program.table object)
            (type_at self.now.program.table.types ty)) walk.old) }
    {
        self.object(walk, object)?;
        self.address(walk, self.pointed_to(subscripted, object, ty))
    }

    // The object first, and then the value, which is stored (C11 6.5.16.1).
    #[cycle(values)]
    pub(crate) fn assigned(
        &self,
        walk: &mut Walk,
        object: NodeId,
        value: NodeId,
    ) -> Result<(), AllocError>
        requires object { IsObjectAt self.now.program.table object }
        requires value { IsValueAt self.now.program.table value }
        requires walk { IsWalkOf self.now.sayings walk.old }
        ensures { OnOk result (walk.new ≡ value_walked (guarded self.now) false
            (tree.Assigned (object_at self.now.program.table object)
            (value_at self.now.program.table value)) walk.old) }
    {
        self.object(walk, object)?;
        self.value(walk, value)?;
        self.touch(walk, object)
    }

    // The object is loaded before the value, and stored to after it (C11 6.5.16.2, 3).
    #[cycle(values)]
    pub(crate) fn changed(
        &self,
        walk: &mut Walk,
        object: NodeId,
        value: NodeId,
    ) -> Result<(), AllocError>
        requires object { IsObjectAt self.now.program.table object }
        requires value { IsValueAt self.now.program.table value }
        requires walk { IsWalkOf self.now.sayings walk.old }
        ensures { OnOk result (walk.new ≡ value_walked (guarded self.now) false
            (tree.Changed (object_at self.now.program.table object) Add I32
            (value_at self.now.program.table value)) walk.old) }
    {
        self.object(walk, object)?;
        self.touch(walk, object)?;
        self.value(walk, value)?;
        self.touch(walk, object)
    }

    // One more or one less (C11 6.5.2.4, 6.5.3.1).
    #[cycle(values)]
    pub(crate) fn stepped(&self, walk: &mut Walk, object: NodeId) -> Result<(), AllocError>
        requires object { IsObjectAt self.now.program.table object }
        requires walk { IsWalkOf self.now.sayings walk.old }
        ensures { OnOk result (walk.new ≡ value_walked (guarded self.now) false
            (tree.Stepped (object_at self.now.program.table object) tree.Up tree.New 0) walk.old) }
    {
        self.object(walk, object)?;
        self.touch(walk, object)
    }
}
