//! The stage that reads a source, and looks at its cut and its guards.

ghost use Rattle.std.specs.Prelude.{◌≡◌, ◌≤◌, List, ℕ, IfErr, IfOk, length};
ghost use Rattle.source_limits.specs.Limits.{most_bytes};
ghost use Rattle.cut_check.specs.Lines.{FoundText};
ghost use Rattle.front_end.specs.Answers.{IsAccepted};
ghost use Rattle.front_end.specs.declared.error.SourceError.TheVariants.{Memory as NoSource};
ghost use Rattle.r2_base.specs.Seen.{OnlyReads};
ghost use Rattle.r2_cli_outcome.specs.declared.status.Status.TheVariants.{Source};
ghost use Rattle.r2_cli_outcome.specs.Outcome.{refusal};
ghost use Rattle.r2_cli_outcome.specs.Reading.{Sees};
ghost use Rattle.r2_cli_outcome.specs.Plans.{Answers, EndsAs, IsEnd};
ghost use Rattle.r2_cli.specs.Source.{SourceOf, no_cut_words, refused_for, source, source_words};

use crate::source_words::{cut_words, fault_words, limit_number, limit_word};
use cut_check::found_text;
use front_end::{CheckedSource, SourceError, SourceFault, check_source};
use r2_base::Files;
use r2_cli_outcome::{End, Status, exceeded, input, print_and_end, refused};
use source_limits::MOST_BYTES;
use std::alloc::Global;

/// The end of a command whose source breaks a rule.
fn broken(alloc: Global, fault: SourceFault) -> End
    ensures { IsEnd (refusal Source (source_words fault.rule fault.at)) result }
{
    match fault_words(alloc, fault) {
        Ok(words) => refused(alloc, Status::Source, &words),
        Err(_) => End::NoMemory,
    }
}

/// The end of a command whose source has no such cut.
fn no_cut(alloc: Global, cut: &str) -> End
    ensures { IsEnd (refusal Source (no_cut_words cut.now)) result }
{
    match cut_words(alloc, cut) {
        Ok(words) => refused(alloc, Status::Source, &words),
        Err(_) => End::NoMemory,
    }
}

/// The end of a command whose source is wrong in this way.
fn wrong(alloc: Global, cut: &str, error: SourceError) -> End
    ensures words { IsEnd (refused_for cut.now error) result }
    ensures memory { error ≡ NoSource → result ≡ End.NoMemory }
{
    match error {
        SourceError::Fault(fault) => broken(alloc, fault),
        SourceError::NoSuchCut => no_cut(alloc, cut),
        SourceError::Limit(limit) => exceeded(alloc, limit_word(limit), limit_number(limit)),
        SourceError::Memory => End::NoMemory,
    }
}

/// A source in which nothing is found: its bytes, and what it is by them.
#[derive(Drop)]
pub struct AcceptedSource {
    pub bytes: Vec<u8>,
    pub source: CheckedSource,
}

/// The source that the bytes are, or what is wrong with it.
fn checked(alloc: Global, bytes: &[u8], cut: &str) -> Result<CheckedSource, End>
    requires { length bytes.now ≤ most_bytes }
    ensures right { IfOk result (IsAccepted bytes.now cut.now) }
    ensures wrong { IfErr result (EndsAs (SourceOf cut.now bytes.now) 0 0) }
{
    match check_source(alloc, bytes, cut.as_bytes()) {
        Ok(source) => Ok(source),
        Err(error) => Err(wrong(alloc, cut, error)),
    }
}

/// The end of a command in whose source this was found, if anything was.
fn unless_found(alloc: Global, found: Vec<u8>) -> Result<(), End>
    ensures { (bytes cut : List ℕ) → FoundText bytes cut found.items →
        Answers (λ _. bytes) (SourceOf cut bytes) 0 0 result }
{
    if found.as_slice().is_empty() {
        return Ok(());
    }
    Err(print_and_end(alloc, Status::Findings, found))
}

/// The source that the bytes are, where nothing is found in it.
fn source_of(alloc: Global, bytes: Vec<u8>, cut: &str) -> Result<AcceptedSource, End>
    requires { length bytes.items ≤ most_bytes }
    ensures accepted { IfOk result (λ s. IsAccepted s.bytes.items cut.now s.source) }
    ensures short { IfOk result (λ s. length s.bytes.items ≤ most_bytes) }
    ensures answers { Answers (λ s. s.bytes.items) (SourceOf cut.now bytes.items) 0 0 result }
{
    let source = checked(alloc, &bytes, cut)?;
    let found = found_text(alloc, &source)?;
    unless_found(alloc, found)?;
    Ok(AcceptedSource { bytes, source })
}

/// The source that the file holds: its reading, its size, all its rules and limits, in their order, and then its cut and its guards.
pub fn source<F: Files>(
    alloc: Global,
    files: &mut F,
    name: &str,
    cut: &str,
) -> Result<AcceptedSource, End>
    ensures only { OnlyReads (F.seen files.old) (F.seen files.new) }
    ensures accepted { IfOk result (λ s. IsAccepted s.bytes.items cut.now s.source) }
    ensures short { IfOk result (λ s. length s.bytes.items ≤ most_bytes) }
    ensures answers { Answers (λ s. s.bytes.items) (source (Sees (F.seen files.old)) name.now cut.now)
        (F.seen files.old).read_faults (F.seen files.new).read_faults result }
{
    let bytes = input(alloc, files, name, "source", MOST_BYTES)?;
    source_of(alloc, bytes, cut)
}
