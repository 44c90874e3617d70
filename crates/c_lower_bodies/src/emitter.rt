//! What the code of a function is made with.

ghost use Rattle.std.specs.Prelude.{◌≡◌};
ghost use Rattle.c_semantics.specs.Context.{kind_of};
ghost use Rattle.c_lower_placement.specs.Placement.{offset_of};
ghost use Rattle.c_types_nodes.specs.Tables.{IsObjectAt, object_at};
ghost use Rattle.c_types_rules.specs.TypedTree.{object_type};
ghost use Rattle.c_lower_bodies.specs.Making.{making, setting};

use c_lower_layout::Index;
use c_types_nodes::{NodeId, TypedTable};
use r2_num::IntKind;
use std::marker::Model;

/// A program, and how far the locals of one of its functions lie after the beginning of its frame.
#[derive(Drop)]
pub struct Emitter<'i, 'p, 'o> {
    index: &'i Index<'p>,
    offsets: &'o [u64],
}

impl<'i, 'p, 'o> Model for Emitter<'i, 'p, 'o> {
    ghost use Rattle.std.specs.Coded.{codes};
    ghost use Rattle.c_types_program.specs.contracts.global.Initial as initial;
    ghost use Rattle.c_types_program.specs.contracts.statement.Statement as statement;
    ghost use Rattle.c_lower_bodies.specs.Making.{Setting, setting};

    ghost Value = { Setting };

    ghost view = { λ e. setting e.index.now e.offsets.now };

    ghost coded = { Prim.hlevel (codes, initial.the_row.coded, statement.the_row.coded) };
}

impl<'i, 'p, 'o> Emitter<'i, 'p, 'o> {
    /// That of a function whose locals lie there.
    pub fn new(index: &'i Index<'p>, offsets: &'o [u64]) -> Emitter<'i, 'p, 'o>
        ensures { result ≡ setting index.now offsets.now }
    {
        Emitter { index, offsets }
    }

    /// What is known of the program.
    pub(crate) fn index(&self) -> &Index<'p>
        ensures { result.now ≡ self.now.declared }
    {
        self.index
    }

    /// The expressions of the program.
    pub(crate) fn table(&self) -> &TypedTable
        ensures { result.now ≡ self.now.declared.table }
    {
        self.index.program().table()
    }

    /// How far a local lies after the beginning of the frame, in bytes; 0 of none.
    pub(crate) fn local_offset(&self, place: u32) -> u64
        ensures { result ≡ offset_of (making self.now).against place }
    {
        self.offsets.get(place as usize).copied().unwrap_or(0)
    }

    /// The kind of the value of a scalar object.
    pub(crate) fn object_kind(&self, object: NodeId) -> IntKind
        requires { IsObjectAt self.now.declared.table object }
        ensures { result ≡ kind_of (object_type (object_at self.now.declared.table object)) }
    {
        self.index.kind(self.table().type_of(object))
    }
}
