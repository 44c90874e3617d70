//! The stubs of a source, as text.

ghost use Rattle.std.specs.Prelude.{◌≡◌, ◌≤◌, List, ℕ, IfOk, length};
ghost use Rattle.c_types_rules.specs.Sources.{Program};
ghost use Rattle.annot_reader_rules.specs.Notes.{Annotated};
ghost use Rattle.stub_operations.specs.declared.purpose.Purpose.TheVariants.{Record, Replay};
ghost use Rattle.front_end.specs.Answers.{IsAccepted};
ghost use Rattle.cut_check.specs.Sources.{IsOf};
ghost use Rattle.cut_check.specs.Stubs.{StubsText, stubs_text};

use front_end::CheckedSource;
use record_stubgen::record_stubs;
use replay_stubgen::replay_stubs;
use std::alloc::{AllocError, Global};
use stub_texts::text;

// Those of a recording.
fn record_text(alloc: Global, source: &CheckedSource) -> Result<Vec<u8>, AllocError>
    requires { length source.now.program.functions ≤ 1000 }
    ensures { (cut : List ℕ) (p : Program) (a : Annotated) → IsOf cut p a source.now →
        IfOk result (λ v. v.items ≡ stubs_text Record cut p a) }
{
    let stubs = record_stubs(alloc, &source.program, &source.interface)?;
    text(alloc, "record", &source.code, &stubs)
}

// Those of a replay.
fn replay_text(alloc: Global, source: &CheckedSource) -> Result<Vec<u8>, AllocError>
    requires { length source.now.program.functions ≤ 1000 }
    ensures { (cut : List ℕ) (p : Program) (a : Annotated) → IsOf cut p a source.now →
        IfOk result (λ v. v.items ≡ stubs_text Replay cut p a) }
{
    let stubs = replay_stubs(alloc, &source.program, &source.interface)?;
    text(alloc, "replay", &source.code, &stubs)
}

/// The text of the stubs of an accepted source: those of a recording, and then those of a replay. `AllocError` where there
/// is no memory for it.
pub fn stubs_text(alloc: Global, source: &CheckedSource) -> Result<Vec<u8>, AllocError>
    requires { (bytes : List ℕ) × (cut : List ℕ) × IsAccepted bytes cut source.now }
    ensures { (bytes cut : List ℕ) → IsAccepted bytes cut source.now →
        IfOk result (λ text. StubsText bytes cut text.items) }
{
    let mut both = record_text(alloc, source)?;
    let replay = replay_text(alloc, source)?;
    both.extend_from_slice(&replay)?;
    Ok(both)
}
