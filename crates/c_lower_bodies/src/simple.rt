//! Code of statements without others in them.

ghost use Rattle.std.specs.Prelude.{◌≡◌, ◌<◌, ◌++◌, length, OnOk};
ghost use Rattle.c_code.specs.declared.instr.Instr.TheVariants.{Drop};
ghost use Rattle.c_types_table.specs.Tables.{type_at};
ghost use Rattle.c_types_nodes.specs.Tables.{IsValueAt, value_at};
ghost use Rattle.c_types_program.specs.Statements.{IsMaybeAt, maybe_at};
ghost use Rattle.c_lower_placement.specs.Code.{last_code, one, return_code, test_code, value_code};
ghost use Rattle.c_lower_bodies.specs.Making.{making};
ghost use Rattle.c_lower_bodies.specs.TypedCode.{initialise_code};

use crate::backward::Backward;
use crate::emitter::Emitter;
use c_code::{Instr, Push};
use c_types_nodes::NodeId;
use c_types_table::TypeId;
use std::alloc::AllocError;

impl Emitter<'_, '_, '_> {
    // A value that isn't used.
    pub(crate) fn evaluate(&self, code: &mut Backward, value: NodeId) -> Result<(), AllocError>
        requires { IsValueAt self.now.declared.table value }
        ensures { OnOk result (code.new ≡ (value_code (value_at self.now.declared.table value)
            (making self.now) ++ one Drop) ++ code.old) }
    {
        code.put(Instr::Drop)?;
        self.value(code, value)
    }

    // The first value of a local.
    pub(crate) fn initialise(
        &self,
        code: &mut Backward,
        place: u32,
        ty: TypeId,
        value: NodeId,
    ) -> Result<(), AllocError>
        requires ty { ty.0 < length self.now.declared.table.types }
        requires value { IsValueAt self.now.declared.table value }
        ensures { OnOk result (code.new ≡ initialise_code place (type_at self.now.declared.table.types ty)
            (value_at self.now.declared.table value) (making self.now) ++ code.old) }
    {
        let stores = Instr::StoreLocal(self.index().kind(ty), self.local_offset(place));
        code.put(stores)?;
        self.value(code, value)
    }

    // The value of a function, or 0.
    pub(crate) fn give(&self, code: &mut Backward, value: Option<NodeId>) -> Result<(), AllocError>
        requires { IsMaybeAt self.now.declared.table value }
        ensures { OnOk result (code.new ≡ return_code (maybe_at self.now.declared.table value)
            (making self.now) ++ code.old) }
    {
        code.put(Instr::Finish)?;
        match value {
            None => code.put(Instr::Push(Push::Number(0))),
            Some(value) => self.value(code, value),
        }
    }

    // The condition of a loop, if there is one, where a jump passes so many instructions.
    pub(crate) fn test(
        &self,
        code: &mut Backward,
        condition: Option<NodeId>,
        over: usize,
    ) -> Result<(), AllocError>
        requires { IsMaybeAt self.now.declared.table condition }
        ensures { OnOk result (code.new ≡ test_code (maybe_at self.now.declared.table condition)
            (making self.now) over ++ code.old) }
    {
        match condition {
            None => Ok(()),
            Some(condition) => {
                code.put(Instr::SkipIfZero(over))?;
                self.value(code, condition)
            }
        }
    }

    // The last part of a loop, if there is one.
    pub(crate) fn last(&self, code: &mut Backward, last: Option<NodeId>) -> Result<(), AllocError>
        requires { IsMaybeAt self.now.declared.table last }
        ensures { OnOk result (code.new ≡ last_code (maybe_at self.now.declared.table last)
            (making self.now) ++ code.old) }
    {
        match last {
            None => Ok(()),
            Some(last) => self.evaluate(code, last),
        }
    }
}
