//! A recording of an accepted source.

ghost use Rattle.std.specs.Prelude.{◌≡◌, ◌≤◌, IfOk, List, Ok, [], length, ℕ};
ghost use Rattle.source_limits.specs.Limits.{most_bytes};
ghost use Rattle.cut_check.specs.Lines.{LinesOf};
ghost use Rattle.front_end.specs.Answers.{IsAccepted};
ghost use Rattle.sys_script_lines.specs.Scripts.{IsRead};
ghost use Rattle.whole_runs_sources.specs.Laws.{IsPlacedAs};
ghost use Rattle.r2_cli_outcome.specs.Plans.{outcome_of};
ghost use Rattle.r2_cli_outcome.specs.Stages.{passed};
ghost use Rattle.recorder.specs.Recordings.{told};
ghost use Rattle.recorded_outcome.specs.Recorded.{IsRecordingOf};
ghost use Rattle.recorded_outcome.specs.Stages.{RecordingOf, script_for};

use crate::plan::plan;
use c_code_fused::FusedCode;
use cut_check::placed;
use front_end::CheckedSource;
use isolation_check::PlaceError;
use memory_map::Placed;
use r2_cli_outcome::Plan;
use record_stubgen::record_stubs;
use recorder::{Recorded, record_run};
use std::alloc::{AllocError, Global};
use system_side::SysFile;
use whole_runs_sources::{accepted_sources_fit, accepted_sources_have_few_functions};

/// Where the objects of an accepted source lie in which nothing is found.
fn placed_of(alloc: Global, source: &CheckedSource) -> Result<Placed, AllocError>
    requires { (bytes : List ℕ) × (cut : List ℕ) × (length bytes ≤ most_bytes) ×
        IsAccepted bytes cut source.now × LinesOf bytes cut [] }
    ensures { (bytes cut : List ℕ) → IsAccepted bytes cut source.now → LinesOf bytes cut [] →
        IfOk result (IsPlacedAs bytes cut source.now) }
{
    match placed(alloc, source) {
        Ok(placed) => Ok(placed),
        Err(PlaceError::Memory) => Err(AllocError),
        Err(PlaceError::Findings(_found)) => unreachable!("nothing is found in the cut"),
    }
}

/// The code of a source, fused; the rest of the source is given up.
fn fused(alloc: Global, source: CheckedSource) -> Result<FusedCode, AllocError>
    ensures { IfOk result (λ fused. fused ≡ source.code) }
{
    FusedCode::new(alloc, source.code)
}

/// What the run of an accepted source in which nothing is found is told of, for a system file that is read for it, and the code that ran.
fn recorded(
    alloc: Global,
    source: CheckedSource,
    file: &SysFile,
) -> Result<(FusedCode, Recorded), AllocError>
    requires { (bytes : List ℕ) × (cut : List ℕ) × (script : List ℕ) × (length bytes ≤ most_bytes) ×
        IsAccepted bytes cut source × LinesOf bytes cut [] ×
        IsRead (script_for source script) (Ok file.now) }
    ensures { (bytes cut script : List ℕ) → IsAccepted bytes cut source → LinesOf bytes cut [] →
        IsRead (script_for source script) (Ok file.now) →
        IfOk result (λ r. IsRecordingOf bytes cut script r.0 (told r.1)) }
{
    accepted_sources_have_few_functions();
    let placed = placed_of(alloc, &source)?;
    let stubs = record_stubs(alloc, &source.program, &source.interface)?;
    let code = fused(alloc, source)?;
    accepted_sources_fit();
    let recorded = record_run(alloc, &code, &placed, &stubs, file)?;
    Ok((code, recorded))
}

/// The plan of what recording a run of an accepted source leaves, in which nothing is found, by a system file that is read
/// for it: the log in the file `log`, the report in the file `rep`. `AllocError` where there is no memory for it.
pub fn recorded_plan(
    alloc: Global,
    log: &str,
    rep: &str,
    source: CheckedSource,
    file: &SysFile,
) -> Result<Plan, AllocError>
    requires { (bytes : List ℕ) × (cut : List ℕ) × (script : List ℕ) × (length bytes ≤ most_bytes) ×
        IsAccepted bytes cut source × LinesOf bytes cut [] ×
        IsRead (script_for source script) (Ok file.now) }
    ensures { (bytes cut script : List ℕ) → IsAccepted bytes cut source → LinesOf bytes cut [] →
        IsRead (script_for source script) (Ok file.now) → IfOk result (λ plan.
        RecordingOf log.now rep.now cut bytes script (passed (outcome_of plan))) }
{
    let (fused, recorded) = recorded(alloc, source, file)?;
    plan(alloc, log, rep, fused, recorded)
}
