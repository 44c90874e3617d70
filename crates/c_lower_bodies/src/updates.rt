//! Code of what changes objects.

ghost use Rattle.std.specs.Prelude.{◌≡◌, ◌++◌, OnOk};
ghost use Rattle.c_types_nodes.specs.Parts.{given_in, way_in};
ghost use Rattle.c_types_nodes.specs.Tables.{IsObjectAt, IsValueAt, object_at, value_at};
ghost use Rattle.c_types_rules.specs.TypedTree as tree;
ghost use Rattle.c_lower_placement.specs.Code.{move_code, value_code};
ghost use Rattle.c_lower_placement.specs.Placement.{keeps_old, step_by};
ghost use Rattle.c_lower_bodies.specs.Making.{making};

use crate::backward::Backward;
use crate::conversions::put_conversion;
use crate::emitter::Emitter;
use c_code::{Change, Combine, Instr};
use c_types_nodes::{Given, NodeId, Way};
use r2_num::{IntKind, Op};
use std::alloc::AllocError;

// The sum of a pointer below and an integer on top.
fn put_move(code: &mut Backward, way: Way, size: u64) -> Result<(), AllocError>
    ensures { OnOk result (code.new ≡ move_code (way_in way) size ++ code.old) }
{
    code.put(Instr::Combine(Combine::Index(size)))?;
    match way {
        Way::Up => Ok(()),
        Way::Down => code.put(Instr::Change(Change::Negate(IntKind::I64))),
    }
}

// What is added for a step, as a number of 64 bits.
fn step(way: Way, size: u64) -> u64
    ensures { result ≡ step_by (way_in way) size }
{
    match way {
        Way::Up => size,
        Way::Down => size.wrapping_neg(),
    }
}

fn is_old(given: Given) -> bool
    ensures { result ≡ keeps_old (given_in given) }
{
    match given {
        Given::New => false,
        Given::Old => true,
    }
}

impl Emitter<'_, '_, '_> {
    // The address of the object first, and then the value (C11 6.5.16.1).
    #[cycle(values)]
    pub(crate) fn assigned(
        &self,
        code: &mut Backward,
        left: NodeId,
        right: NodeId,
    ) -> Result<(), AllocError>
        requires left { IsObjectAt self.now.declared.table left }
        requires right { IsValueAt self.now.declared.table right }
        ensures { OnOk result (code.new ≡ value_code
            (tree.Assigned (object_at self.now.declared.table left)
            (value_at self.now.declared.table right)) (making self.now) ++ code.old) }
    {
        code.put(Instr::Store(self.object_kind(left), self.origin(left)))?;
        self.value(code, right)?;
        self.object(code, left)
    }

    // An object is read once, and stored at the same address (C11 6.5.16.2, 3).
    #[cycle(values)]
    pub(crate) fn changed(
        &self,
        code: &mut Backward,
        object: NodeId,
        op: Op,
        kind: IntKind,
        value: NodeId,
    ) -> Result<(), AllocError>
        requires object { IsObjectAt self.now.declared.table object }
        requires value { IsValueAt self.now.declared.table value }
        ensures { OnOk result (code.new ≡ value_code
            (tree.Changed (object_at self.now.declared.table object) op kind
            (value_at self.now.declared.table value)) (making self.now) ++ code.old) }
    {
        let own = self.object_kind(object);
        let origin = self.origin(object);
        code.put(Instr::Store(own, origin))?;
        put_conversion(code, kind, own)?;
        code.put(Instr::Combine(Combine::Arith(op, kind)))?;
        self.value(code, value)?;
        put_conversion(code, own, kind)?;
        code.put(Instr::LoadKeep(own, origin))?;
        self.object(code, object)
    }

    // The same of a pointer and an integer.
    #[cycle(values)]
    pub(crate) fn moved(
        &self,
        code: &mut Backward,
        object: NodeId,
        way: Way,
        index: NodeId,
        size: u64,
    ) -> Result<(), AllocError>
        requires object { IsObjectAt self.now.declared.table object }
        requires index { IsValueAt self.now.declared.table index }
        ensures { OnOk result (code.new ≡ value_code
            (tree.Moved (object_at self.now.declared.table object) (way_in way)
            (value_at self.now.declared.table index) size) (making self.now) ++ code.old) }
    {
        let own = self.object_kind(object);
        let origin = self.origin(object);
        code.put(Instr::Store(own, origin))?;
        put_move(code, way, size)?;
        self.value(code, index)?;
        code.put(Instr::LoadKeep(own, origin))?;
        self.object(code, object)
    }

    // One more or one less (C11 6.5.2.4, 6.5.3.1).
    #[cycle(values)]
    pub(crate) fn stepped(
        &self,
        code: &mut Backward,
        object: NodeId,
        way: Way,
        given: Given,
        size: u64,
    ) -> Result<(), AllocError>
        requires { IsObjectAt self.now.declared.table object }
        ensures { OnOk result (code.new ≡ value_code
            (tree.Stepped (object_at self.now.declared.table object) (way_in way) (given_in given) size)
            (making self.now) ++ code.old) }
    {
        let own = self.object_kind(object);
        let origin = self.origin(object);
        let stores = Instr::StoreStep(own, step(way, size), is_old(given), origin);
        code.put(stores)?;
        code.put(Instr::LoadKeep(own, origin))?;
        self.object(code, object)
    }
}
