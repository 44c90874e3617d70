// What both recorders are given of a case.

ghost use Rattle.std.specs.Prelude.{◌≡◌, ◌≤◌, IfOk, List, Ok, length, ℕ};
ghost use Rattle.source_limits.specs.Limits.{most_bytes};
ghost use Rattle.front_end.specs.Answers.{IsAccepted};
ghost use Rattle.sys_script_lines.specs.Scripts.{IsRead, script_of};
ghost use Rattle.sys_script.specs.Externals.{external_in};
ghost use Rattle.whole_runs.specs.Fits.{IsFit};
ghost use Rattle.whole_runs_sources.specs.Laws.{IsPlacedAs};
ghost use Rattle.recorder.specs.Recordings.{world};

use crate::texts::Texts;
use c_code::Code;
use cut_check::placed;
use front_end::{CheckedSource, SourceError, check_source};
use isolation_check::PlaceError;
use memory_map::Placed;
use record_stubgen::record_stubs;
use source_limits::MOST_BYTES;
use std::alloc::{AllocError, Global};
use stub_operations::StubSet;
use sys_script::{ScriptError, read};
use system_side::SysFile;
use whole_runs_sources::{accepted_sources_fit, accepted_sources_have_few_functions};

/// A system file has no more bytes.
const MOST_SYSTEM_BYTES: usize = 1_048_576;

/// What a recording is given besides the code: where objects lie, what is done at calls, and the system file, for either recorder its own.
#[derive(Drop)]
pub struct Inputs {
    pub placed: Placed,
    pub stubs: StubSet,
    pub file: SysFile,
    pub plain_file: SysFile,
}

/// Why there is no recording.
#[derive(Clone, Copy)]
pub enum NoInputs {
    /// The source is refused.
    Source,
    /// Something is found in its cut.
    Cut,
    /// A system file is refused.
    System,
    /// Out of memory.
    Memory,
}

impl From<AllocError> for NoInputs {
    fn from(_error: AllocError) -> NoInputs {
        NoInputs::Memory
    }
}

/// The source that the text is.
pub fn checked_of(alloc: Global, source: &str, cut: &str) -> Result<CheckedSource, NoInputs>
    ensures { IfOk result (λ checked. (length source.now ≤ most_bytes) × IsAccepted source.now cut.now checked) }
{
    if source.len() > MOST_BYTES {
        return Err(NoInputs::Source);
    }
    match check_source(alloc, source.as_bytes(), cut.as_bytes()) {
        Ok(source) => Ok(source),
        Err(SourceError::Memory) => Err(NoInputs::Memory),
        Err(_) => Err(NoInputs::Source),
    }
}

/// Where the objects of an accepted source lie.
fn placed_of(alloc: Global, source: &CheckedSource) -> Result<Placed, NoInputs>
    requires { (bytes : List ℕ) × (cut : List ℕ) × (length bytes ≤ most_bytes) ×
        IsAccepted bytes cut source.now }
    ensures { (bytes cut : List ℕ) → IsAccepted bytes cut source.now →
        IfOk result (IsPlacedAs bytes cut source.now) }
{
    match placed(alloc, source) {
        Ok(placed) => Ok(placed),
        Err(PlaceError::Memory) => Err(NoInputs::Memory),
        Err(PlaceError::Findings(_found)) => Err(NoInputs::Cut),
    }
}

/// The system file that the text is for the source.
fn file_of(alloc: Global, source: &CheckedSource, text: &str) -> Result<SysFile, NoInputs>
    requires { length source.now.program.functions ≤ 1000 }
    ensures { IfOk result (λ file. IsRead
        (script_of (external_in source.now.program source.now.interface) text.now) (Ok file)) }
{
    if text.len() > MOST_SYSTEM_BYTES {
        return Err(NoInputs::System);
    }
    match read(alloc, text.as_bytes(), &source.program, &source.interface) {
        Ok(file) => Ok(file),
        Err(ScriptError::Line(_number)) => Err(NoInputs::System),
        Err(ScriptError::Memory) => Err(NoInputs::Memory),
    }
}

/// What the recorders are given of an accepted source.
pub fn inputs_of(alloc: Global, source: &CheckedSource, texts: &Texts) -> Result<Inputs, NoInputs>
    requires { (bytes : List ℕ) × (cut : List ℕ) × (length bytes ≤ most_bytes) ×
        IsAccepted bytes cut source.now }
    ensures fast { IfOk result (λ i. IsFit (world source.now.code i.placed i.stubs i.file)) }
    ensures plain { IfOk result (λ i. IsFit (world source.now.code i.placed i.stubs i.plain_file)) }
{
    accepted_sources_have_few_functions();
    accepted_sources_fit();
    let placed = placed_of(alloc, source)?;
    let stubs = record_stubs(alloc, &source.program, &source.interface)?;
    let file = file_of(alloc, source, &texts.system)?;
    let plain_file = file_of(alloc, source, &texts.plain_system)?;
    Ok(Inputs {
        placed,
        stubs,
        file,
        plain_file,
    })
}

/// The flat code of the source, in place of the source.
pub fn code_of(source: CheckedSource) -> Code
    ensures { result ≡ source.code }
{
    let CheckedSource {
        program,
        interface,
        code,
    } = source;
    drop(program);
    drop(interface);
    code
}
