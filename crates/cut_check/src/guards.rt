//! What is found of the guards of a source, as text.

ghost use Rattle.std.specs.Prelude.{◌≡◌, ◌+◌, ◌≤◌, ◌^◌, ℕ, IfOk, List, length, map};
ghost use Rattle.std.specs.List.{flat_map, range_with_len};
ghost use Rattle.annot_reader_rules.specs.Notes.{Annotated};
ghost use Rattle.c_builtins.specs.Table.{first_source_function};
ghost use Rattle.c_types_rules.specs.Sources.{Program};
ghost use Rattle.lockset_check_lines.specs.Texts.{ended_line};
ghost use Rattle.lockset_check_rules.specs.Annotations.{guarded};
ghost use Rattle.lockset_check_rules.specs.declared.finding.LockFinding.{LockFinding as Found};
ghost use Rattle.lockset_check_rules.specs.Sources.{source_found};
ghost use Rattle.lockset_check.specs.Answers.{Answers};
ghost use Rattle.cut_check.specs.Guards.{IsGuardsText, runs};
ghost use Rattle.cut_check.specs.Sources.{IsOf};

use c_builtins::FIRST_SOURCE_FUNCTION;
use front_end::CheckedSource;
use isolation_check_rows::{Counts, Sides};
use lockset_check::{GuardError, guard, guards_are_what_annotations_say};
use lockset_check_lines::put_lines;
use lockset_check_rules::LockFinding;
use std::alloc::{AllocError, Global};

// Of the first functions of a source, in its order, which may run on either side of the cut.
#[tactic(auto, using(crate::proofs::FlagLists::one_more))]
fn running(alloc: Global, sides: Sides<'_>, count: usize) -> Result<Vec<bool>, AllocError>
    requires { count ≤ 1000 }
    ensures { IfOk result (λ v. v.items ≡ map
        (λ place. runs sides.entry.above.now sides.entry.below.now (first_source_function + place))
        (range_with_len 0 count)) }
{
    let mut flags = Vec::new(alloc);
    for place in 0..count {
        flags.push(sides.counts(Counts::Either, FIRST_SOURCE_FUNCTION + place as u16))?;
    }
    Ok(flags)
}

// The lines of findings.
fn lines_text(alloc: Global, found: &[LockFinding]) -> Result<Vec<u8>, AllocError>
    ensures { IfOk result (λ text. text.items ≡ flat_map ended_line found.now) }
{
    let mut text = Vec::new(alloc);
    put_lines(&mut text, found)?;
    Ok(text)
}

// The lines of all that was found, where this is the answer of the check.
fn answer_text(alloc: Global, answer: Result<(), GuardError>) -> Result<Vec<u8>, AllocError>
    ensures { (found : List Found) → Answers found answer →
        IfOk result (λ text. IsGuardsText found text.items) }
{
    match answer {
        Ok(()) => Ok(Vec::new(alloc)),
        Err(GuardError::Findings(found)) => lines_text(alloc, &found),
        Err(GuardError::Memory) => Err(AllocError),
    }
}

/// The text of all that is found of the guards of a source, whose functions may run by these flags.
pub(crate) fn guards_text(
    alloc: Global,
    source: &CheckedSource,
    sides: Sides<'_>,
) -> Result<Vec<u8>, AllocError>
    requires functions { length source.now.program.functions ≤ 1000 }
    requires globals { length source.now.program.globals ≤ 2 ^ 32 }
    ensures { (cut : List ℕ) (p : Program) (a : Annotated) → IsOf cut p a source.now →
        IfOk result (λ text. IsGuardsText
        (source_found (guarded p a) (runs sides.entry.above.now sides.entry.below.now)) text.items) }
{
    let may_run = running(alloc, sides, source.program.functions().len())?;
    let answer = guard(alloc, &source.program, &source.interface, &may_run);
    guards_are_what_annotations_say();
    answer_text(alloc, answer)
}
