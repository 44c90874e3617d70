//! Text that is added to a target, piece by piece.

ghost use Rattle.std.specs.Prelude.{◌≡◌, ◌≤◌, ◌++◌, length, take, OnOk};
ghost use Rattle.std.specs.List.{flat_map};
ghost use Rattle.event_texts.specs.EventTexts.{event_line, lines_text, order_text};
ghost use Rattle.call_inspector.specs.ReportText.{report_text};
ghost use Rattle.r2_cli_outcome.specs.World.{world, Later};
ghost use Rattle.r2_cli_outcome.specs.Plans.{target_of};
ghost use Rattle.r2_cli_outcome.specs.Sending.{Puts, Sends};

use crate::plan::{Ran, Target};
use call_inspector::ReportParts;
use event_texts::{Line, put_end, put_lines};
use log_closure::Closed;
use r2_base::{Fault, Files, Sink};
use std::alloc::{AllocError, Global};

/// How many bytes wait until they are written.
const PIECE: usize = 65_536;

/// How many events are read before the line of the first of them is written. Their records lie far from one another, and
/// reads that follow closely wait for memory together.
const LINES: usize = 16;

/// Adds the piece to what the target was given so far.
pub fn put_piece<F: Files, S: Sink, E: Sink>(
    to: &Target,
    piece: &[u8],
    files: &mut F,
    out: &mut S,
    err: &mut E,
) -> Result<(), Fault>
    ensures later { Later
        (world (F.seen files.old) (S.seen out.old) (E.seen err.old))
        (world (F.seen files.new) (S.seen out.new) (E.seen err.new)) }
    ensures puts { Puts (target_of to.now) piece.now
        (world (F.seen files.old) (S.seen out.old) (E.seen err.old))
        (world (F.seen files.new) (S.seen out.new) (E.seen err.new))
        result }
{
    match to {
        Target::File(name) => files.append(name, piece),
        Target::Output => out.put(piece),
        Target::Errors => err.put(piece),
    }
}

/// Adds the text where it is long enough, and empties it then.
fn put_long<F: Files, S: Sink, E: Sink>(
    to: &Target,
    text: &mut Vec<u8>,
    files: &mut F,
    out: &mut S,
    err: &mut E,
) -> Result<(), Fault>
    ensures later { Later
        (world (F.seen files.old) (S.seen out.old) (E.seen err.old))
        (world (F.seen files.new) (S.seen out.new) (E.seen err.new)) }
    ensures sends { Sends (target_of to.now) text.old.items text.new.items
        (world (F.seen files.old) (S.seen out.old) (E.seen err.old))
        (world (F.seen files.new) (S.seen out.new) (E.seen err.new))
        result }
{
    if text.len() < PIECE {
        return Ok(());
    }
    put_piece(to, text, files, out, err)?;
    text.clear();
    Ok(())
}

/// Reads the lines of the events at the places from `from` on, up to `to`.
fn read_lines<'a>(
    part: &'a Closed,
    from: usize,
    to: usize,
    lines: &mut Vec<Line<'a>>,
) -> Result<(), AllocError>
    requires order { from ≤ to }
    requires within { to ≤ length part.now.events }
    ensures { OnOk result (flat_map event_line (take to part.now.events)
        ≡ flat_map event_line (take from part.now.events) ++ lines_text lines.new.items) }
{
    lines.clear();
    for place in from..to {
        lines.push(Line::of(part.name(place), part.record(place)))?;
    }
    Ok(())
}

/// Adds what `order` prints of the events. No more of it is in memory at once than some more than `PIECE` bytes.
pub fn put_order<F: Files, S: Sink, E: Sink>(
    alloc: Global,
    part: &Closed,
    to: &Target,
    files: &mut F,
    out: &mut S,
    err: &mut E,
) -> Result<(), Fault>
    ensures later { Later
        (world (F.seen files.old) (S.seen out.old) (E.seen err.old))
        (world (F.seen files.new) (S.seen out.new) (E.seen err.new)) }
    ensures puts { Puts (target_of to.now) (order_text part.now.events)
        (world (F.seen files.old) (S.seen out.old) (E.seen err.old))
        (world (F.seen files.new) (S.seen out.new) (E.seen err.new))
        result }
{
    let mut text = Vec::new(alloc);
    let mut lines = Vec::with_capacity(alloc, LINES)?;
    let count = part.count();
    let mut from = 0;
    while from < count {
        let next = from + LINES.min(count - from);
        read_lines(part, from, next, &mut lines)?;
        put_lines(&mut text, &lines)?;
        put_long(to, &mut text, files, out, err)?;
        from = next;
    }
    put_end(&mut text, count)?;
    put_piece(to, &text, files, out, err)
}

/// Adds the report of the run. No more of it is in memory at once than `PIECE` bytes and the line that comes then.
pub fn put_report<F: Files, S: Sink, E: Sink>(
    alloc: Global,
    ran: &Ran,
    to: &Target,
    files: &mut F,
    out: &mut S,
    err: &mut E,
) -> Result<(), Fault>
    ensures later { Later
        (world (F.seen files.old) (S.seen out.old) (E.seen err.old))
        (world (F.seen files.new) (S.seen out.new) (E.seen err.new)) }
    ensures puts { Puts (target_of to.now) (report_text ran.now.run ran.now.code)
        (world (F.seen files.old) (S.seen out.old) (E.seen err.old))
        (world (F.seen files.new) (S.seen out.new) (E.seen err.new))
        result }
{
    let mut text = Vec::new(alloc);
    let mut parts = ReportParts::new(alloc, &ran.run, ran.code.code());
    while parts.put_next(&mut text)? {
        put_long(to, &mut text, files, out, err)?;
    }
    put_piece(to, &text, files, out, err)
}
