//! A command that exchanges what two files hold, and says so on both streams.

ghost use Rattle.std.specs.Prelude.{◌≡◌, ◌≢◌, ◌⊎◌, ◌∷◌, [], map, IfOk};
ghost use Rattle.r2_base.specs.Seen.{OnlyReads};
ghost use Rattle.r2_cli_outcome.specs.declared.status.Status.TheVariants.{NoMemory};
ghost use Rattle.r2_cli_outcome.specs.World.{world, Later};
ghost use Rattle.r2_cli_outcome.specs.Outcome.{file, out, err};
ghost use Rattle.r2_cli_outcome.specs.Reading.{Sees};
ghost use Rattle.r2_cli_outcome.specs.Plans.{Answers, outcome_of, write_of};
ghost use Rattle.r2_cli_outcome.specs.Left.{Leaves};
ghost use Rattle.r2_cli_outcome.specs.Complete.{IsQuiet, LeavesAll};
ghost use Rattle.r2_cli_examples.specs.Exchange.{exchange, exchanged, ExchangeOf};

use r2_base::{Files, Sink};
use r2_cli_outcome::{End, Plan, Status, Target, Text, Write, finish, input, line};
use std::alloc::{AllocError, Global};

/// A text for each of the two files.
fn two_files(
    alloc: Global,
    log: &str,
    rep: &str,
    first: &[u8],
    second: &[u8],
) -> Result<Vec<Write>, AllocError>
    ensures { IfOk result (λ ws. map write_of ws.items
        ≡ record { to = file log.now; text = first.now } ∷
        record { to = file rep.now; text = second.now } ∷ []) }
{
    let log = Target::File(String::from_str(alloc, log)?);
    let report = Target::File(String::from_str(alloc, rep)?);
    let mut writes = Vec::new(alloc);
    writes.push(Write {
        to: log,
        text: Text::Bytes(Vec::from_slice(alloc, first)?),
    })?;
    writes.push(Write {
        to: report,
        text: Text::Bytes(Vec::from_slice(alloc, second)?),
    })?;
    Ok(writes)
}

fn plan(
    alloc: Global,
    log: &str,
    rep: &str,
    first: Vec<u8>,
    second: Vec<u8>,
) -> Result<Plan, AllocError>
    ensures { IfOk result (λ plan. outcome_of plan
        ≡ exchanged log.now rep.now first.items second.items) }
{
    let line = line(alloc, b"short")?;
    let mut writes = two_files(alloc, log, rep, &second, &first)?;
    writes.push(Write {
        to: Target::Output,
        text: Text::Bytes(second),
    })?;
    writes.push(Write {
        to: Target::Errors,
        text: Text::Bytes(first),
    })?;
    Ok(Plan {
        status: Status::Short,
        writes,
        line,
    })
}

/// What the command comes to; nothing is written.
fn planned<F: Files>(
    alloc: Global,
    files: &mut F,
    src: &str,
    sys: &str,
    log: &str,
    rep: &str,
) -> Result<Plan, End>
    ensures only { OnlyReads (F.seen files.old) (F.seen files.new) }
    ensures answers { Answers outcome_of
        (exchange (Sees (F.seen files.old)) src.now sys.now log.now rep.now)
        (F.seen files.old).read_faults (F.seen files.new).read_faults result }
{
    let first = input(alloc, files, src, "source", 16)?;
    let second = input(alloc, files, sys, "system", 16)?;
    Ok(plan(alloc, log, rep, first, second)?)
}

/// Writes what the second file holds to `log`, and what the first holds to `rep`, and the same to the two streams.
pub fn exchange<F: Files, S: Sink, E: Sink>(
    alloc: Global,
    src: &str,
    sys: &str,
    log: &str,
    rep: &str,
    files: &mut F,
    out: &mut S,
    err: &mut E,
) -> Status
    requires { src.now ≢ sys.now }
    ensures leaves { Leaves
        (ExchangeOf (F.seen files.old) src.now sys.now log.now rep.now)
        (world (F.seen files.old) (S.seen out.old) (E.seen err.old))
        (world (F.seen files.new) (S.seen out.new) (E.seen err.new))
        result }
    ensures complete { IsQuiet
        (world (F.seen files.old) (S.seen out.old) (E.seen err.old))
        (world (F.seen files.new) (S.seen out.new) (E.seen err.new))
        → (result ≡ NoMemory) ⊎ LeavesAll
        (ExchangeOf (F.seen files.old) src.now sys.now log.now rep.now)
        (world (F.seen files.old) (S.seen out.old) (E.seen err.old))
        (world (F.seen files.new) (S.seen out.new) (E.seen err.new))
        result }
    ensures later { Later
        (world (F.seen files.old) (S.seen out.old) (E.seen err.old))
        (world (F.seen files.new) (S.seen out.new) (E.seen err.new)) }
{
    let planned = planned(alloc, files, src, sys, log, rep);
    finish(alloc, &planned, files, out, err)
}
