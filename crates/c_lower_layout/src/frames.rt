//! Frames of functions.

ghost use Rattle.std.specs.Prelude.{◌≡◌, ◌≤◌, length, IfOk};
ghost use Rattle.std.specs.List.{All};
ghost use Rattle.source_limits.specs.Limits.{greatest_frame};
ghost use Rattle.c_types_table.specs.Tables.{IsBelow};
ghost use Rattle.c_types_rules.specs.Limits.{frame_size};
ghost use Rattle.c_semantics.specs.Context.{local_offsets};
ghost use Rattle.c_types_program.specs.Declarations.{types_in};
ghost use Rattle.c_lower_layout.specs.Sources.{source_in};

use crate::index::Index;
use c_types_table::TypeId;
use std::alloc::{AllocError, Global};

// Frames have a multiple of this many bytes, and so many at least.
const ALIGNMENT: u64 = 16;

/// How far the parameters and locals of a function lie after the beginning of its frame, and the size of the frame, in
/// bytes.
#[derive(Drop)]
pub struct Frame {
    pub offsets: Vec<u64>,
    pub size: u64,
}

impl Index<'_> {
    /// The frame of a function whose parameters and locals have these types, each at the next multiple of its alignment.
    /// `AllocError` only where there is no memory.
    pub fn frame(&self, alloc: Global, locals: &[TypeId]) -> Result<Frame, AllocError>
        requires inside { All (IsBelow (length self.now.table.types)) locals.now }
        requires small { frame_size (source_in self.now).program
            (types_in self.now.table.types locals.now) ≤ greatest_frame }
        ensures offsets { IfOk result (λ f. f.offsets.items ≡
            local_offsets (source_in self.now) (types_in self.now.table.types locals.now)) }
        ensures size { IfOk result (λ f. f.size ≡
            frame_size (source_in self.now).program (types_in self.now.table.types locals.now)) }
    {
        let row = self.row(alloc, locals)?;
        Ok(Frame {
            size: row.end.next_multiple_of(ALIGNMENT).max(ALIGNMENT),
            offsets: row.offsets,
        })
    }
}
