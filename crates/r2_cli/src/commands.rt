//! The commands, stage by stage. Nothing is written here.

ghost use Rattle.std.specs.Prelude.{◌≡◌, [], ◌∷◌, List, ℕ, map, IfOk};
ghost use Rattle.cut_check.specs.Stubs.{StubsText};
ghost use Rattle.front_end.specs.Answers.{IsAccepted};
ghost use Rattle.r2_base.specs.Seen.{OnlyReads};
ghost use Rattle.r2_cli_outcome.specs.declared.status.Status.TheVariants.{Done};
ghost use Rattle.r2_cli_outcome.specs.Outcome.{file, printed};
ghost use Rattle.r2_cli_outcome.specs.Reading.{Sees};
ghost use Rattle.r2_cli_outcome.specs.Stages.{Only, passed};
ghost use Rattle.r2_cli_outcome.specs.Plans.{Answers, IsPlanned, outcome_of, write_of};
ghost use Rattle.r2_cli.specs.Words.{texts_of, order, check, stubs, recording};
ghost use Rattle.generated_files.specs.Source.{source_text};
ghost use Rattle.r2_cli.specs.Commands.{command, generated, order_outcome, IsOutcome};

use crate::forms::{Command, command_of};
use crate::help::{HELP, VERSION};
use crate::source::source;
use crate::system::system;
use cut_check::stubs_text;
use front_end::CheckedSource;
use generated_files::SYSTEM;
use log_closure::Closed;
use r2_base::Files;
use r2_cli_outcome::{End, Plan, Status, Target, Text, Write, line, log, print, refused};
use recorded_outcome::recorded_plan;
use std::alloc::{AllocError, Global};
use whole_runs_sources::accepted_sources_have_few_functions;

/// The plan that prints the text.
fn printed(alloc: Global, text: &str) -> Result<Plan, AllocError>
    ensures { IfOk result (λ plan. outcome_of plan ≡ printed Done text.now []) }
{
    let bytes = Vec::from_slice(alloc, text.as_bytes())?;
    print(alloc, Status::Done, Text::Bytes(bytes), Vec::new(alloc))
}

/// The plan that prints the events, of a whole log or of one that is cut short.
fn ordered(alloc: Global, part: Closed) -> Result<Plan, AllocError>
    ensures { IfOk result (λ plan. outcome_of plan ≡ order_outcome part.whole part.events) }
{
    if part.whole() {
        return print(alloc, Status::Done, Text::Order(part), Vec::new(alloc));
    }
    let line = line(alloc, b"short")?;
    print(alloc, Status::Short, Text::Order(part), line)
}

fn help(alloc: Global) -> Result<Plan, End>
    ensures { Answers outcome_of (Only (passed (printed Done HELP.now []))) 0 0 result }
{
    Ok(printed(alloc, HELP)?)
}

fn version(alloc: Global) -> Result<Plan, End>
    ensures { Answers outcome_of (Only (passed (printed Done VERSION.now []))) 0 0 result }
{
    Ok(printed(alloc, VERSION)?)
}

fn order<F: Files>(alloc: Global, files: &mut F, name: &str) -> Result<Plan, End>
    ensures only { OnlyReads (F.seen files.old) (F.seen files.new) }
    ensures answers { Answers outcome_of (command (Sees (F.seen files.old)) (order name.now))
        (F.seen files.old).read_faults (F.seen files.new).read_faults result }
{
    let part = log(alloc, files, name)?;
    Ok(ordered(alloc, part)?)
}

fn check<F: Files>(alloc: Global, files: &mut F, src: &str, cut: &str) -> Result<Plan, End>
    ensures only { OnlyReads (F.seen files.old) (F.seen files.new) }
    ensures answers { Answers outcome_of (command (Sees (F.seen files.old)) (check src.now cut.now))
        (F.seen files.old).read_faults (F.seen files.new).read_faults result }
{
    let checked = source(alloc, files, src, cut)?;
    drop(checked);
    Ok(printed(alloc, "accepted\n")?)
}

/// The plan that prints the stubs of an accepted source.
fn stubs_of(alloc: Global, source: &CheckedSource) -> Result<Plan, AllocError>
    requires { (bytes : List ℕ) × (cut : List ℕ) × IsAccepted bytes cut source.now }
    ensures { (bytes cut : List ℕ) → IsAccepted bytes cut source.now → IfOk result (λ plan.
        (text : List ℕ) × StubsText bytes cut text × (outcome_of plan ≡ printed Done text [])) }
{
    let text = stubs_text(alloc, source)?;
    print(alloc, Status::Done, Text::Bytes(text), Vec::new(alloc))
}

fn stubs<F: Files>(alloc: Global, files: &mut F, src: &str, cut: &str) -> Result<Plan, End>
    ensures only { OnlyReads (F.seen files.old) (F.seen files.new) }
    ensures answers { Answers outcome_of (command (Sees (F.seen files.old)) (stubs src.now cut.now))
        (F.seen files.old).read_faults (F.seen files.new).read_faults result }
{
    let accepted = source(alloc, files, src, cut)?;
    let plan = stubs_of(alloc, &accepted.source);
    drop(accepted);
    Ok(plan?)
}

/// The two files of a generated program.
fn two_files(alloc: Global, rounds: u32, src: &str, sys: &str) -> Result<Vec<Write>, AllocError>
    ensures { IfOk result (λ ws. map write_of ws.items
        ≡ record { to = file src.now; text = source_text rounds } ∷
        record { to = file sys.now; text = SYSTEM.now } ∷ []) }
{
    let source = Write {
        to: Target::File(String::from_str(alloc, src)?),
        text: Text::Bytes(generated_files::source(alloc, rounds)?),
    };
    let system = Write {
        to: Target::File(String::from_str(alloc, sys)?),
        text: Text::Bytes(Vec::from_slice(alloc, SYSTEM.as_bytes())?),
    };
    let mut writes = Vec::new(alloc);
    writes.push(source)?;
    writes.push(system)?;
    Ok(writes)
}

fn generate(alloc: Global, rounds: u32, src: &str, sys: &str) -> Result<Plan, End>
    ensures { Answers outcome_of (Only (passed (generated rounds src.now sys.now))) 0 0 result }
{
    let writes = two_files(alloc, rounds, src, sys)?;
    let line = Vec::new(alloc);
    Ok(Plan {
        status: Status::Done,
        writes,
        line,
    })
}

fn record<F: Files>(
    alloc: Global,
    files: &mut F,
    src: &str,
    cut: &str,
    sys: &str,
    log: &str,
    rep: &str,
) -> Result<Plan, End>
    ensures only { OnlyReads (F.seen files.old) (F.seen files.new) }
    ensures answers { Answers outcome_of
        (command (Sees (F.seen files.old)) (recording src.now cut.now sys.now log.now rep.now))
        (F.seen files.old).read_faults (F.seen files.new).read_faults result }
{
    accepted_sources_have_few_functions();
    let accepted = source(alloc, files, src, cut)?;
    let system = system(alloc, files, sys, &accepted.source)?;
    let plan = recorded_plan(alloc, log, rep, accepted.source, &system.file);
    drop(system);
    Ok(plan?)
}

/// What the words come to.
pub fn planned<F: Files>(alloc: Global, words: &[String], files: &mut F) -> Result<Plan, End>
    ensures only { OnlyReads (F.seen files.old) (F.seen files.new) }
    ensures planned { IsPlanned (IsOutcome (Sees (F.seen files.old)) (texts_of words.now))
        (F.seen files.old).read_faults (F.seen files.new).read_faults result }
{
    let Some(command) = command_of(words) else {
        return Err(refused(alloc, Status::Usage, b"usage"));
    };
    match command {
        Command::Help => help(alloc),
        Command::Version => version(alloc),
        Command::Order { log } => order(alloc, files, log),
        Command::Check { source, cut } => check(alloc, files, source, cut),
        Command::Stubs { source, cut } => stubs(alloc, files, source, cut),
        Command::Generate {
            rounds,
            source,
            system,
        } => generate(alloc, rounds, source, system),
        Command::Record {
            source,
            cut,
            system,
            log,
            report,
        } => record(alloc, files, source, cut, system, log, report),
    }
}
