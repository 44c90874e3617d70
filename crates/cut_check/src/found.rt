//! What is found in a source, as text.

ghost use Rattle.std.specs.Prelude.{◌≡◌, ◌≢◌, ◌++◌, [], List, ℕ, IfOk, OnOk, false, true};
ghost use Rattle.std.specs.List.{flat_map};
ghost use Rattle.front_end.specs.Answers.{IsAccepted};
ghost use Rattle.cut_check.specs.Flags.{ended_line};
ghost use Rattle.cut_check.specs.Lines.{FoundText};

use crate::flags::flags_of;
use crate::guards::guards_text;
use cut_graph_mentions::mentions;
use front_end::CheckedSource;
use isolation_check_findings::{Finding, findings};
use isolation_check_rows::Sides;
use std::alloc::{AllocError, Global};

// Adds the line of a finding, with its end.
fn put_line(text: &mut Vec<u8>, finding: &Finding<'_>) -> Result<(), AllocError>
    ensures { OnOk result (text.new.items ≡ text.old.items ++ ended_line finding.now) }
{
    text.extend_from_slice(&finding.line)?;
    text.push(b'\n')?;
    Ok(())
}

fn put_lines(text: &mut Vec<u8>, found: &[Finding<'_>]) -> Result<(), AllocError>
    ensures { OnOk result (text.new.items ≡ text.old.items ++ flat_map ended_line found.now) }
{
    for finding in found {
        put_line(text, finding)?;
    }
    Ok(())
}

// The lines of all that was found in a cut.
fn cut_text(alloc: Global, found: &[Finding<'_>]) -> Result<Vec<u8>, AllocError>
    ensures { IfOk result (λ text. text.items ≡ flat_map ended_line found.now) }
{
    let mut text = Vec::new(alloc);
    put_lines(&mut text, found)?;
    Ok(text)
}

// Whether nothing was found.
fn is_none(found: &[Finding<'_>]) -> bool
    ensures none { result ≡ true → found.now ≡ [] }
    ensures some { result ≡ false → found.now ≢ [] }
{
    match found {
        [] => true,
        [_, ..] => false,
    }
}

/// The text of all that is found in an accepted source, a line for each: in its cut, in the order of their bytes, or, where the cut is
/// accepted, of its guards, by offset and then by text; nothing where nothing is found. `AllocError` where there is no memory for it.
pub fn found_text(alloc: Global, source: &CheckedSource) -> Result<Vec<u8>, AllocError>
    requires { (bytes : List ℕ) × (cut : List ℕ) × IsAccepted bytes cut source.now }
    ensures { (bytes cut : List ℕ) → IsAccepted bytes cut source.now →
        IfOk result (λ text. FoundText bytes cut text.items) }
{
    let mentions = mentions(alloc, &source.program)?;
    let flags = flags_of(alloc, source, &mentions)?;
    let sides = Sides {
        above: flags.above.as_slice(),
        below: flags.below.as_slice(),
        faces: flags.faces.as_slice(),
    };
    let found = findings(alloc, &source.program, &mentions, sides)?;
    if is_none(&found) {
        return guards_text(alloc, source, sides);
    }
    cut_text(alloc, &found)
}
