//! The one place that writes.

ghost use Rattle.std.specs.Prelude.{[], ◌∷◌, map};
ghost use Rattle.r2_base.specs.Seen.{Stream};
ghost use Rattle.r2_cli_outcome.specs.World.{world, Later};
ghost use Rattle.r2_cli_outcome.specs.Plans.{write_of, target_of, bytes_of};
ghost use Rattle.r2_cli_outcome.specs.Sending.{Begins, Does, Puts};

use crate::plan::{Target, Text, Write};
use crate::sending::{put_order, put_piece, put_report};
use r2_base::{Fault, Files, Sink};
use std::alloc::Global;

/// Begins a write: a file is made to hold nothing.
fn begin<F: Files>(to: &Target, files: &mut F) -> Result<(), Fault>
    ensures later { (o e : Stream) → Later (world (F.seen files.old) o e) (world (F.seen files.new) o e) }
    ensures begins { (o e : Stream) → Begins (target_of to.now)
        (world (F.seen files.old) o e) (world (F.seen files.new) o e) result }
{
    match to {
        Target::File(name) => files.fresh(name),
        Target::Output => Ok(()),
        Target::Errors => Ok(()),
    }
}

/// Adds the text to what the target was given so far.
fn put_text<F: Files, S: Sink, E: Sink>(
    alloc: Global,
    text: &Text,
    to: &Target,
    files: &mut F,
    out: &mut S,
    err: &mut E,
) -> Result<(), Fault>
    ensures later { Later
        (world (F.seen files.old) (S.seen out.old) (E.seen err.old))
        (world (F.seen files.new) (S.seen out.new) (E.seen err.new)) }
    ensures puts { Puts (target_of to.now) (bytes_of text.now)
        (world (F.seen files.old) (S.seen out.old) (E.seen err.old))
        (world (F.seen files.new) (S.seen out.new) (E.seen err.new))
        result }
{
    match text {
        Text::Bytes(bytes) => put_piece(to, bytes, files, out, err),
        Text::Order(part) => put_order(alloc, part, to, files, out, err),
        Text::Report(ran) => put_report(alloc, ran, to, files, out, err),
    }
}

fn write_one<F: Files, S: Sink, E: Sink>(
    alloc: Global,
    write: &Write,
    files: &mut F,
    out: &mut S,
    err: &mut E,
) -> Result<(), Fault>
    ensures later { Later
        (world (F.seen files.old) (S.seen out.old) (E.seen err.old))
        (world (F.seen files.new) (S.seen out.new) (E.seen err.new)) }
    ensures does { Does (write_of write.now ∷ [])
        (world (F.seen files.old) (S.seen out.old) (E.seen err.old))
        (world (F.seen files.new) (S.seen out.new) (E.seen err.new))
        result }
{
    begin(&write.to, files)?;
    put_text(alloc, &write.text, &write.to, files, out, err)
}

/// Carries out the writes in their order, and stops at the first that is refused.
pub fn write_all<F: Files, S: Sink, E: Sink>(
    alloc: Global,
    writes: &[Write],
    files: &mut F,
    out: &mut S,
    err: &mut E,
) -> Result<(), Fault>
    ensures later { Later
        (world (F.seen files.old) (S.seen out.old) (E.seen err.old))
        (world (F.seen files.new) (S.seen out.new) (E.seen err.new)) }
    ensures does { Does (map write_of writes.now)
        (world (F.seen files.old) (S.seen out.old) (E.seen err.old))
        (world (F.seen files.new) (S.seen out.new) (E.seen err.new))
        result }
{
    for write in writes {
        write_one(alloc, write, files, out, err)?;
    }
    Ok(())
}
