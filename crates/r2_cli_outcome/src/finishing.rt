//! The last part of a call: its writes, and the line on standard error.

ghost use Rattle.std.specs.Prelude.{◌≡◌, ◌≤◌, Err};
ghost use Rattle.r2_cli_outcome.specs.World.{world, Later};
ghost use Rattle.r2_cli_outcome.specs.Left.{Leaves};
ghost use Rattle.r2_cli_outcome.specs.Finishing.{Finishes, Said, status_for, line_for};
ghost use Rattle.r2_cli_outcome.specs.Plans.{outcome_of};

use crate::plan::{End, Plan};
use crate::status::Status;
use crate::writing::write_all;
use r2_base::{Fault, Files, Sink};
use std::alloc::Global;

/// The status for a refused write.
fn status_for(fault: Fault) -> Status
    ensures { result ≡ status_for fault }
{
    match fault {
        Fault::Memory => Status::NoMemory,
        Fault::Failed | Fault::Missing => Status::WriteFault,
    }
}

/// The line for it.
fn line_for(fault: Fault) -> &'static str
    ensures { result.now ≡ line_for fault }
{
    match fault {
        Fault::Memory => "r2: no memory\n",
        Fault::Failed | Fault::Missing => "r2: write fault\n",
    }
}

/// Says the line, where there is one, and answers the status, or that of the fault that this met.
fn say<E: Sink>(status: Status, line: &[u8], err: &mut E) -> Status
    ensures said { Said line.now status (E.seen err.old) (E.seen err.new) result }
    ensures later { (E.seen err.old).faults ≤ (E.seen err.new).faults }
{
    if line.len() == 0 {
        return status;
    }
    match err.put(line) {
        Ok(()) => status,
        Err(fault) => status_for(fault),
    }
}

fn carry_out<F: Files, S: Sink, E: Sink>(
    alloc: Global,
    plan: &Plan,
    files: &mut F,
    out: &mut S,
    err: &mut E,
) -> Status
    ensures later { Later
        (world (F.seen files.old) (S.seen out.old) (E.seen err.old))
        (world (F.seen files.new) (S.seen out.new) (E.seen err.new)) }
    ensures leaves { Leaves (λ o. o ≡ outcome_of plan.now)
        (world (F.seen files.old) (S.seen out.old) (E.seen err.old))
        (world (F.seen files.new) (S.seen out.new) (E.seen err.new))
        result }
{
    match write_all(alloc, &plan.writes, files, out, err) {
        Ok(()) => say(plan.status, &plan.line, err),
        Err(fault) => say(status_for(fault), line_for(fault).as_bytes(), err),
    }
}

/// Writes what is planned of a command that a stage ended, or says why nothing was planned.
fn finish_end<F: Files, S: Sink, E: Sink>(
    alloc: Global,
    end: &End,
    files: &mut F,
    out: &mut S,
    err: &mut E,
) -> Status
    ensures later { Later
        (world (F.seen files.old) (S.seen out.old) (E.seen err.old))
        (world (F.seen files.new) (S.seen out.new) (E.seen err.new)) }
    ensures finishes { Finishes
        (world (F.seen files.old) (S.seen out.old) (E.seen err.old))
        (world (F.seen files.new) (S.seen out.new) (E.seen err.new))
        result (Err end.now) }
{
    match end {
        End::Planned(plan) => carry_out(alloc, plan, files, out, err),
        End::ReadFault => say(Status::ReadFault, b"r2: read fault\n", err),
        End::NoMemory => say(Status::NoMemory, b"r2: no memory\n", err),
    }
}

/// Writes what is planned and says the line, or says why nothing was planned. The one call that writes.
pub fn finish<F: Files, S: Sink, E: Sink>(
    alloc: Global,
    planned: &Result<Plan, End>,
    files: &mut F,
    out: &mut S,
    err: &mut E,
) -> Status
    ensures later { Later
        (world (F.seen files.old) (S.seen out.old) (E.seen err.old))
        (world (F.seen files.new) (S.seen out.new) (E.seen err.new)) }
    ensures finishes { Finishes
        (world (F.seen files.old) (S.seen out.old) (E.seen err.old))
        (world (F.seen files.new) (S.seen out.new) (E.seen err.new))
        result planned.now }
{
    match planned {
        Ok(plan) => carry_out(alloc, plan, files, out, err),
        Err(end) => finish_end(alloc, end, files, out, err),
    }
}
