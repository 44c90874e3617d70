//! The top call.

ghost use Rattle.std.specs.Prelude.{◌≡◌, ◌⊎◌, ℕ, List, IsTrue};
ghost use Rattle.log_closure.specs.Events.{In};
ghost use Rattle.r2_base.specs.Seen.{Contents};
ghost use Rattle.r2_cli_outcome.specs.declared.status.Status.TheVariants.{ReadFault, WriteFault, NoMemory};
ghost use Rattle.r2_cli_outcome.specs.World.{world, Later};
ghost use Rattle.r2_cli_outcome.specs.Outcome.{Outcome};
ghost use Rattle.r2_cli_outcome.specs.Reading.{Of};
ghost use Rattle.r2_cli_outcome.specs.Left.{Leaves};
ghost use Rattle.r2_cli_outcome.specs.Complete.{IsQuiet, LeavesAll};
ghost use Rattle.r2_cli.specs.Words.{texts_of, Form, IsForm, inputs_of, outputs_of};
ghost use Rattle.r2_cli.specs.Commands.{IsOutcome, OutcomeOf, SameOutcome};
ghost use Rattle.r2_cli.specs.Causes.{IsCaused};

use crate::commands::planned;
use r2_base::{Files, Sink};
use r2_cli_outcome::{Status, finish};
use std::alloc::Global;

/// Runs the program: `words` are the command line without the program's name. The command reads and writes `files`,
/// and prints to `out`; a status other than `Done` has its line on `err`, which no other line follows.
pub fn run<F: Files, S: Sink, E: Sink>(
    alloc: Global,
    words: &[String],
    files: &mut F,
    out: &mut S,
    err: &mut E,
) -> Status
    // One outcome: the words, and what the names hold, decide it, but for the offset that is named where tokens have no
    // tree, or one that is too deep; and of the names those alone that the command reads.
    ensures one_outcome { (contents : Contents) (o p : Outcome)
        → IsOutcome (Of contents) (texts_of words.now) o
        → IsOutcome (Of contents) (texts_of words.now) p
        → SameOutcome o p }
    ensures inputs { (contents other : Contents) (o : Outcome)
        → ((form : Form) (n : List ℕ) → IsForm (texts_of words.now) form → In n (inputs_of form)
        → other n ≡ contents n)
        → IsOutcome (Of contents) (texts_of words.now) o
        → IsOutcome (Of other) (texts_of words.now) o }

    // What is left: all of that outcome, or as much of it as the outside let through.
    ensures leaves { Leaves (OutcomeOf (F.seen files.old) (texts_of words.now))
        (world (F.seen files.old) (S.seen out.old) (E.seen err.old))
        (world (F.seen files.new) (S.seen out.new) (E.seen err.new))
        result }
    // It is all of it where the status isn't that of a stopped call, and where no count of faults rose, but for memory.
    ensures decided { (result ≡ ReadFault → ⊥) → (result ≡ WriteFault → ⊥) → (result ≡ NoMemory → ⊥)
        → LeavesAll (OutcomeOf (F.seen files.old) (texts_of words.now))
        (world (F.seen files.old) (S.seen out.old) (E.seen err.old))
        (world (F.seen files.new) (S.seen out.new) (E.seen err.new))
        result }
    ensures complete { IsQuiet
        (world (F.seen files.old) (S.seen out.old) (E.seen err.old))
        (world (F.seen files.new) (S.seen out.new) (E.seen err.new))
        → (result ≡ NoMemory) ⊎ LeavesAll (OutcomeOf (F.seen files.old) (texts_of words.now))
        (world (F.seen files.old) (S.seen out.old) (E.seen err.old))
        (world (F.seen files.new) (S.seen out.new) (E.seen err.new))
        result }
    // No name changes but those that the command writes, and no count falls.
    ensures names { IsTrue (F.seen files.old).tells → (n : List ℕ)
        → ((form : Form) → IsForm (texts_of words.now) form → In n (outputs_of form) → ⊥)
        → (F.seen files.new).holds n ≡ (F.seen files.old).holds n }
    ensures later { Later
        (world (F.seen files.old) (S.seen out.old) (E.seen err.old))
        (world (F.seen files.new) (S.seen out.new) (E.seen err.new)) }

    // Causes: when each status comes.
    ensures causes { IsCaused (texts_of words.now)
        (world (F.seen files.old) (S.seen out.old) (E.seen err.old))
        (world (F.seen files.new) (S.seen out.new) (E.seen err.new))
        result }
{
    let planned = planned(alloc, words, files);
    finish(alloc, &planned, files, out, err)
}
