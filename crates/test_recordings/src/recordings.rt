// The recordings of a case.

ghost use Rattle.std.specs.Prelude.{◌≤◌, List, length, ℕ};
ghost use Rattle.source_limits.specs.Limits.{most_bytes};
ghost use Rattle.front_end.specs.Answers.{IsAccepted};
ghost use Rattle.whole_runs.specs.Fits.{IsFit};
ghost use Rattle.recorder.specs.Recordings.{world};

use crate::compare::difference_of;
use crate::inputs::{Inputs, NoInputs, checked_of, code_of, inputs_of};
use crate::texts::Texts;
use c_code::Code;
use c_code_fused::FusedCode;
use front_end::CheckedSource;
use recorder::record_run;
use std::alloc::{AllocError, Global};

/// What the recordings of the code have otherwise.
fn code_difference(alloc: Global, code: Code, inputs: &Inputs) -> Result<Option<String>, AllocError>
    requires fast { IsFit (world code inputs.now.placed inputs.now.stubs inputs.now.file) }
    requires plain { IsFit (world code inputs.now.placed inputs.now.stubs inputs.now.plain_file) }
{
    let Inputs {
        placed,
        stubs,
        file,
        plain_file,
    } = inputs;
    let code = FusedCode::new(alloc, code)?;
    let fast = record_run(alloc, &code, placed, stubs, file)?;
    let plain = reference_recorder::record_run(alloc, &code, placed, stubs, plain_file)?;
    difference_of(alloc, code.code(), &fast, &plain)
}

/// What the recordings of an accepted source have otherwise.
fn source_difference(
    alloc: Global,
    source: CheckedSource,
    texts: &Texts,
) -> Result<Option<String>, NoInputs>
    requires { (bytes : List ℕ) × (cut : List ℕ) × (length bytes ≤ most_bytes) ×
        IsAccepted bytes cut source }
{
    let inputs = inputs_of(alloc, &source, texts);
    let code = code_of(source);
    Ok(code_difference(alloc, code, &inputs?)?)
}

/// What the two recordings of the texts have otherwise, or why there are none.
pub fn recordings_difference(alloc: Global, texts: &Texts) -> Result<Option<String>, NoInputs> {
    let source = checked_of(alloc, &texts.source, &texts.cut)?;
    source_difference(alloc, source, texts)
}
