//! The plan of what a recording leaves.

ghost use Rattle.std.specs.Prelude.{◌≡◌, ◌∷◌, [], IfOk, map};
ghost use Rattle.r2_cli_outcome.specs.Outcome.{file as to_file};
ghost use Rattle.r2_cli_outcome.specs.Plans.{outcome_of, write_of};
ghost use Rattle.call_inspector.specs.ReportText.{report_text};
ghost use Rattle.recorder.specs.Recordings.{told};
ghost use Rattle.recorded_outcome.specs.Recorded.{recorded, writes_with};

use c_code_fused::FusedCode;
use call_inspector::Run;
use r2_cli_outcome::{Plan, Ran, Target, Text, Write};
use recorder::Recorded;
use recording_texts::{ending_line, status_of};
use run_events::Bytes;
use std::alloc::{AllocError, Global};

/// A text for each of the two files.
fn file_writes(
    alloc: Global,
    log: &str,
    rep: &str,
    bytes: Bytes,
    ran: Ran,
) -> Result<Vec<Write>, AllocError>
    ensures { IfOk result (λ ws. map write_of ws.items
        ≡ record { to = to_file log.now; text = bytes } ∷
        record { to = to_file rep.now; text = report_text ran.run ran.code } ∷ []) }
{
    let log = Target::File(String::from_str(alloc, log)?);
    let rep = Target::File(String::from_str(alloc, rep)?);
    let mut writes = Vec::new(alloc);
    writes.push(Write {
        to: log,
        text: Text::Bytes(bytes.into_vec()),
    })?;
    writes.push(Write {
        to: rep,
        text: Text::Report(ran),
    })?;
    Ok(writes)
}

/// The writes of a recording, in their order.
fn writes(
    alloc: Global,
    log: &str,
    rep: &str,
    code: FusedCode,
    made: Recorded,
) -> Result<Vec<Write>, AllocError>
    ensures { IfOk result (λ ws. map write_of ws.items ≡ writes_with log.now rep.now made.log
        (report_text made.run code) made.run.output made.system_output) }
{
    let Recorded {
        log: bytes,
        run,
        system_output,
        ending: _,
    } = made;
    let Run {
        threads,
        memory,
        output,
    } = run;
    let run = Run {
        threads,
        memory,
        output: Bytes::new(alloc),
    };
    let mut writes = file_writes(alloc, log, rep, bytes, Ran { run, code })?;
    writes.push(Write {
        to: Target::Output,
        text: Text::Bytes(output.into_vec()),
    })?;
    writes.push(Write {
        to: Target::Errors,
        text: Text::Bytes(system_output.into_vec()),
    })?;
    Ok(writes)
}

/// The plan that leaves a recording of a run of the code. The report is made as it is written.
pub fn plan(
    alloc: Global,
    log: &str,
    rep: &str,
    code: FusedCode,
    made: Recorded,
) -> Result<Plan, AllocError>
    ensures { IfOk result (λ plan. outcome_of plan ≡ recorded log.now rep.now code (told made)) }
{
    let line = ending_line(alloc, code.code(), made.ending)?;
    let status = status_of(made.ending);
    let writes = writes(alloc, log, rep, code, made)?;
    Ok(Plan {
        status,
        writes,
        line,
    })
}
