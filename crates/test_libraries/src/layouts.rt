//! Layouts worked out by hand (`c_types_model`, `c_lower_layout`).

use c_lower_layout::layout;
use c_syntax::Seq;
use c_types_model::{Extent, lay_out};
use c_types_nodes::TypedTable;
use c_types_program::TypedProgram;
use c_types_structs::{Members, Structs};
use c_types_table::{StructId, Ty};
use r2_num::IntKind;
use std::alloc::AllocError;
use std::test::Fail;

#[test]
fn members_and_the_end_are_padded(rt: HostRuntime) -> Result<(), AllocError> {
    let byte = Extent::of_kind(IntKind::I8);
    let short = Extent::of_kind(IntKind::I16);
    let long = Extent::of_kind(IntKind::I64);
    let layout = lay_out(rt.alloc(), &[byte, short, long, byte])?;
    let is_laid = layout.offsets.as_slice() == [0, 2, 8, 16].as_slice();
    assert!(rt; is_laid && layout.size == 24 && layout.align == 8);
    Ok(())
}

#[test]
fn members_of_a_program_lie_at_multiples_of_their_alignments(rt: HostRuntime) -> Result<(), Fail> {
    let alloc = rt.alloc();
    let mut table = TypedTable::new(alloc)?;
    let byte = table.kind_type(IntKind::I8);
    let long = table.kind_type(IntKind::I64);
    let pair = table.add_type(Ty::Struct(StructId(0)))?;
    let mut members = Members::new(alloc);
    members.add(b"a", byte)?;
    members.add(b"b", long)?;
    let mut structs = Structs::new(alloc);
    structs.define(members, Extent { size: 16, align: 8 })?;
    let functions = Seq::from(Vec::new(alloc));
    let globals = Seq::from(Vec::new(alloc));
    let texts = Seq::from(Vec::new(alloc));
    let program = TypedProgram::new(table, structs, functions, globals, texts);
    let layout = layout(alloc, &program, pair)?;
    assert_eq!(rt; layout.offsets.as_slice(), [0, 8].as_slice());
    Ok(())
}
