//! The functions that a function names.

ghost use Rattle.std.specs.Prelude.{◌≡◌, ◌+◌, ◌<◌, ◌≤◌, ◌^◌, ◌&&◌, ℕ, length, is_some, IfOk};
ghost use Rattle.c_builtins.specs.Table.{first_source_function};
ghost use Rattle.isolation_check_rows.specs.declared.kind.MentionKind.TheVariants as kinds;
ghost use Rattle.isolation_check_rows.specs.Rows.{entry, has, noted};
ghost use Rattle.isolation_check_findings.specs.Named.{AreNamed, IsNotedByValues};

use c_builtins::FIRST_SOURCE_FUNCTION;
use c_syntax::Seq;
use cut_graph_mentions::Mentions;
use cut_graph_rules::Mention;
use isolation_check_rows::{Entry, MentionKind, empty, note, number};
use std::alloc::{AllocError, Global};

// Notes a function at each function that the value of a global mentions, if the global has an entry.
fn note_value(row: &mut Vec<Entry>, table: Entry, value: &[Mention], function: u16)
    ensures size { length row.new.items ≡ length row.old.items }
    ensures entries { (k : ℕ) → k < length row.old.items → entry row.new.items k ≡
        noted (is_some table && has kinds.Function k value.now) function (entry row.old.items k) }
{
    if table.is_some() {
        note(row, value, MentionKind::Function, function);
    }
}

// The same of all globals.
fn note_values(row: &mut Vec<Entry>, tables: &[Entry], values: &[Seq<Mention>], function: u16)
    requires { length tables.now ≡ length values.now }
    ensures { IsNotedByValues function row.old.items tables.now values.now row.new.items }
{
    for place in 0..values.len() {
        note_value(row, tables[place], values[place].as_slice(), function);
    }
}

/// For each of so many functions of the source and each builtin, by number, an entry where the function at a place names it:
/// in its body, or in the value of a global that is named there.
///
/// `AllocError` only where there is no memory.
pub(crate) fn named(
    alloc: Global,
    mentions: &Mentions,
    place: usize,
    count: usize,
) -> Result<Vec<Entry>, AllocError>
    requires place { place < length mentions.now.functions }
    requires count { first_source_function + count ≤ 2 ^ 16 }
    requires functions { first_source_function + length mentions.now.functions ≤ 2 ^ 16 }
    ensures { IfOk result (λ v. AreNamed mentions.now (first_source_function + place) count v.items) }
{
    let functions = mentions.functions();
    let values = mentions.globals();
    let names = functions[place].as_slice();
    let function = number(place);
    let mut row = empty(alloc, usize::from(FIRST_SOURCE_FUNCTION) + count)?;
    let mut tables = empty(alloc, values.len())?;
    note(&mut row, names, MentionKind::Function, function);
    note(&mut tables, names, MentionKind::Global, function);
    note_values(&mut row, &tables, values, function);
    Ok(row)
}
