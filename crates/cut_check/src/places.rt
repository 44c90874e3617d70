//! Where the objects of a source lie.

ghost use Rattle.std.specs.Prelude.{◌≤◌, List, ℕ, length};
ghost use Rattle.source_limits.specs.Limits.{most_bytes};
ghost use Rattle.annot_reader_rules.specs.Notes.{Annotated};
ghost use Rattle.c_types_rules.specs.Sources.{Program};
ghost use Rattle.front_end.specs.Answers.{IsAccepted};
ghost use Rattle.isolation_check.specs.Answers.{Answers};
ghost use Rattle.isolation_check.specs.Literals.{literals_in};
ghost use Rattle.cut_check.specs.Sources.{Says, cut_of};

use crate::flags::flags_of;
use cut_graph_mentions::mentions;
use front_end::CheckedSource;
use isolation_check::{PlaceError, place};
use isolation_check_rows::Sides;
use isolation_check_sources::accepted_sources_can_be_placed;
use memory_map::Placed;
use std::alloc::Global;

/// Where the strings and globals of an accepted source of at most 1 MiB lie, each with its bytes before a run, and in which modes
/// its functions may run; or all that is found in its cut. `Memory` only where there is none.
pub fn placed(alloc: Global, source: &CheckedSource) -> Result<Placed, PlaceError<'_>>
    requires { (bytes : List ℕ) × (cut : List ℕ) × (length bytes ≤ most_bytes) ×
        IsAccepted bytes cut source.now }
    ensures { (bytes cut : List ℕ) (p : Program) (a : Annotated) → IsAccepted bytes cut source.now →
        Says bytes cut p a → Answers (cut_of cut p a) (literals_in source.now.program.texts) result }
{
    let mentions = mentions(alloc, &source.program)?;
    let flags = flags_of(alloc, source, &mentions)?;
    let sides = Sides {
        above: flags.above.as_slice(),
        below: flags.below.as_slice(),
        faces: flags.faces.as_slice(),
    };
    accepted_sources_can_be_placed();
    place(alloc, &source.program, &mentions, sides)
}
