//! The report of a run.

ghost use Rattle.std.specs.Prelude.{◌≡◌, IfOk};
ghost use Rattle.call_inspector.specs.ReportText.{report_text};

use crate::parts::ReportParts;
use c_code::Code;
use call_inspector_run::Run;
use std::alloc::{AllocError, Global};

/// The report of a run of the code: its events by thread, the rows of its memory above the cut that have a live byte, and its
/// ending. A name that the code doesn't know is left out.
pub fn report(alloc: Global, run: &Run, code: &Code) -> Result<Vec<u8>, AllocError>
    ensures { IfOk result (λ text. text.items ≡ report_text run.now code.now) }
{
    let mut text = Vec::new(alloc);
    let mut parts = ReportParts::new(alloc, run, code);
    while parts.put_next(&mut text)? {}
    Ok(text)
}
