//! In which areas globals lie.

ghost use Rattle.std.specs.Prelude.{◌≡◌, ◌+◌, ◌≤◌, ◌^◌, length, map, IfOk};
ghost use Rattle.std.specs.List.{range_with_len};
ghost use Rattle.c_builtins.specs.Table.{first_source_function};
ghost use Rattle.isolation_check.specs.Areas.{area_at, area_of};

use cut_graph_mentions::Mentions;
use isolation_check_rows::{Counts, Entry, MentionKind, Sides, first};
use isolation_check_rules::Area;
use std::alloc::{AllocError, Global};

// The area of a global, by functions that mention it above the cut and below it, and one that writes it.
fn area(above: Entry, below: Entry, written: Entry) -> Area
    ensures { result ≡ area_of above below written }
{
    if below.is_none() {
        return Area::Replay;
    }
    if above.is_none() {
        return Area::System;
    }
    if written.is_some() {
        return Area::Replay;
    }
    Area::Constants
}

/// The areas of so many globals, in order. `AllocError` only where there is no memory.
pub(crate) fn areas(
    alloc: Global,
    mentions: &Mentions,
    sides: Sides<'_>,
    count: usize,
) -> Result<Vec<Area>, AllocError>
    requires { first_source_function + length mentions.now.functions ≤ 2 ^ 16 }
    ensures { IfOk result (λ v. v.items ≡
        map (area_at mentions.now.functions sides.entry.above.now sides.entry.below.now)
        (range_with_len 0 count)) }
{
    let functions = mentions.functions();
    let above = first(
        alloc,
        functions,
        sides,
        Counts::Above,
        MentionKind::Global,
        count,
    )?;
    let below = first(
        alloc,
        functions,
        sides,
        Counts::Below,
        MentionKind::Global,
        count,
    )?;
    let written = first(
        alloc,
        functions,
        sides,
        Counts::Either,
        MentionKind::Written,
        count,
    )?;
    let mut areas = Vec::with_capacity(alloc, count)?;
    for place in 0..count {
        areas.push(area(above[place], below[place], written[place]))?;
    }
    Ok(areas)
}
