//! For each global or function, a function that mentions it.

ghost use Rattle.std.specs.Prelude.{◌≡◌, ◌+◌, ◌<◌, ◌≤◌, ◌^◌, ◌&&◌, ◌==◌, ℕ, length, IfOk};
ghost use Rattle.c_builtins.specs.Table.{first_source_function};
ghost use Rattle.isolation_check_rows.specs.Rows.{AreFirst, IsEmpty, IsNoted, counts, entry, has, is_here, noted};

use crate::kind::MentionKind;
use crate::sides::{Counts, Sides};
use c_builtins::FIRST_SOURCE_FUNCTION;
use c_syntax::Seq;
use cut_graph_rules::Mention;
use std::alloc::{AllocError, Global};

/// The number of a function, where one is.
pub type Entry = Option<u16>;

/// The number of the function at a place of the source.
pub fn number(place: usize) -> u16
    requires { first_source_function + place < 2 ^ 16 }
    ensures { result ≡ first_source_function + place }
{
    FIRST_SOURCE_FUNCTION + place as u16
}

/// So many entries, without functions. `AllocError` only where there is no memory.
pub fn empty(alloc: Global, count: usize) -> Result<Vec<Entry>, AllocError>
    ensures { IfOk result (λ v. IsEmpty count v.items) }
{
    let mut row = Vec::new(alloc);
    row.resize(count, None)?;
    Ok(row)
}

// Notes a function at a place, where there is one.
fn note_at(row: &mut Vec<Entry>, place: Option<u32>, function: u16)
    ensures size { length row.new.items ≡ length row.old.items }
    ensures entries { (k : ℕ) → k < length row.old.items →
        entry row.new.items k ≡ noted (is_here k place) function (entry row.old.items k) }
{
    if let Some(place) = place {
        let place = place as usize;
        if place < row.len() {
            row[place] = Some(function);
        }
    }
}

/// Notes a function at each place that its mentions of a kind name.
pub fn note(row: &mut Vec<Entry>, mentions: &[Mention], kind: MentionKind, function: u16)
    ensures { IsNoted kind function row.old.items mentions.now row.new.items }
{
    for mention in mentions {
        note_at(row, kind.place(*mention), function);
    }
}

// The same, where the function counts.
fn note_if(row: &mut Vec<Entry>, mentions: &[Mention], kind: MentionKind, function: u16, is: bool)
    ensures size { length row.new.items ≡ length row.old.items }
    ensures entries { (k : ℕ) → k < length row.old.items →
        entry row.new.items k ≡ noted (is && has kind k mentions.now) function (entry row.old.items k) }
{
    if is {
        note(row, mentions, kind, function);
    }
}

/// For so many globals or functions, the first function by number that counts and has a mention of the kind.
///
/// `AllocError` only where there is no memory.
pub fn first(
    alloc: Global,
    functions: &[Seq<Mention>],
    sides: Sides<'_>,
    which: Counts,
    kind: MentionKind,
    count: usize,
) -> Result<Vec<Entry>, AllocError>
    requires { first_source_function + length functions.now ≤ 2 ^ 16 }
    ensures { IfOk result (λ v. AreFirst kind (counts sides.entry.above.now sides.entry.below.now which) count
        functions.now v.items) }
{
    let mut row = empty(alloc, count)?;
    for place in (0..functions.len()).rev() {
        let function = number(place);
        note_if(
            &mut row,
            functions[place].as_slice(),
            kind,
            function,
            sides.counts(which, function),
        );
    }
    Ok(row)
}
