//! The stage that reads a system file.

ghost use Rattle.std.specs.Prelude.{◌≤◌, IfOk, List, Ok, length, ℕ};
ghost use Rattle.front_end.specs.Answers.{IsAccepted};
ghost use Rattle.r2_base.specs.Seen.{OnlyReads};
ghost use Rattle.sys_script_lines.specs.Scripts.{IsRead};
ghost use Rattle.r2_cli_outcome.specs.Plans.{Answers};
ghost use Rattle.r2_cli_outcome.specs.Reading.{Sees};
ghost use Rattle.recorded_outcome.specs.Stages.{script_for};
ghost use Rattle.r2_cli.specs.System.{system};

use front_end::CheckedSource;
use r2_base::Files;
use r2_cli_outcome::{End, input};
use recorded_outcome::{SystemFile, system_of};
use std::alloc::Global;

/// How many bytes a system file may have.
const SYSTEM_LIMIT: usize = 1_048_576;

/// The system file that the file holds, for an accepted source: its reading, its size and its lines, in their order.
pub fn system<F: Files>(
    alloc: Global,
    files: &mut F,
    name: &str,
    source: &CheckedSource,
) -> Result<SystemFile, End>
    requires { length source.now.program.functions ≤ 1000 }
    ensures only { OnlyReads (F.seen files.old) (F.seen files.new) }
    ensures read { IfOk result (λ s. IsRead (script_for source.now s.bytes.items) (Ok s.file)) }
    ensures answers { (text cut : List ℕ) → IsAccepted text cut source.now →
        Answers (λ s. s.bytes.items) (system (Sees (F.seen files.old)) name.now cut text)
        (F.seen files.old).read_faults (F.seen files.new).read_faults result }
{
    let bytes = input(alloc, files, name, "system", SYSTEM_LIMIT)?;
    system_of(alloc, bytes, source)
}
