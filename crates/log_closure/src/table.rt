//! The table of the check: which clock belongs to a key with a ticket.

ghost use Rattle.std.specs.Prelude.{if◌then◌else◌, ◌≡◌, ◌<◌, Some, None, is_some, vec_len, slice_set, slice_index_or, OnOk, IfOk};
ghost use Rattle.std.specs.BTreeMap.{get};
ghost use Rattle.log_closure.specs.declared.tie.Tie.{Tie};
ghost use Rattle.log_closure.specs.Ties.{same};
ghost use Rattle.log_closure.specs.FirstWrong.{or_else};
ghost use Rattle.log_closure.specs.Tables.{AreApart, AreBlank, Numbers, clock_in, tie_cmp, tie_key};

use crate::tie::Tie;
use std::alloc::{AllocError, Global};
use std::collections::BTreeMap;

/// A row for each key, with as many places as it has marks.
fn rows_of(alloc: Global, counts: &[u32]) -> Result<Vec<Vec<Option<u32>>>, AllocError>
    ensures { IfOk result (λ rows. AreBlank rows.items) }
{
    let mut rows = Vec::with_capacity(alloc, counts.len())?;
    for count in counts {
        rows.push(vec![in alloc; None; *count as usize]?)?;
    }
    Ok(rows)
}

/// Puts the clock where none is; true where one is.
fn put_in_row(row: &mut Vec<Option<u32>>, number: usize, clock: u32) -> bool
    requires { number < vec_len row.old }
    ensures clock { row.new.items ≡ slice_set row.old.items number
        (or_else (slice_index_or row.old.items number None) (Some clock)) }
    ensures there { result ≡ is_some (slice_index_or row.old.items number None) }
{
    let first = row[number];
    row[number] = first.or(Some(clock));
    first.is_some()
}

/// Puts the clock where none is; true where one is.
fn put_apart(rest: &mut BTreeMap<Tie, u32>, tie: Tie, clock: u32) -> Result<bool, AllocError>
    ensures clock { OnOk result ((t : Tie) → get tie_cmp rest.new t ≡
        (if same tie t then or_else (get tie_cmp rest.old t) (Some clock) else get tie_cmp rest.old t)) }
    ensures there { IfOk result (λ r. r ≡ is_some (get tie_cmp rest.old tie)) }
{
    if let Some(first) = rest.insert(tie, clock)? {
        rest.insert(tie, first)?;
        return Ok(true);
    }
    Ok(false)
}

/// The clock of the first event that has each key and ticket. The row of a key has as many places as the key has marks,
/// which is enough where its tickets count up; the clocks of greater tickets stand apart.
#[derive(Drop)]
pub struct Table {
    /// By the number of the key.
    pub rows: Vec<Vec<Option<u32>>>,
    pub rest: BTreeMap<Tie, u32>,
}

impl Table {
    /// A table without clocks, with room for so many marks of each key.
    pub fn for_counts(alloc: Global, counts: &[u32]) -> Result<Table, AllocError>
        ensures { IfOk result (λ table. (number : Numbers) (t : Tie) → clock_in number table t ≡ None) }
    {
        let rows = rows_of(alloc, counts)?;
        let rest = BTreeMap::new(alloc);
        Ok(Table { rows, rest })
    }

    /// Puts the clock at the key, which has this number, and the ticket, if none is there; true where one is.
    pub fn put(&mut self, key: u32, tie: Tie, clock: u32) -> Result<bool, AllocError>
        ensures clock { (number : Numbers) → AreApart number → number (tie_key tie) ≡ Some key →
            OnOk result ((t : Tie) → clock_in number self.new t ≡
            (if same tie t then or_else (clock_in number self.old t) (Some clock)
            else clock_in number self.old t)) }
        ensures there { (number : Numbers) → number (tie_key tie) ≡ Some key →
            IfOk result (λ r. r ≡ is_some (clock_in number self.old tie)) }
    {
        let ticket = tie.number as usize;
        if let Some(row) = self.rows.get_mut(key as usize) {
            if ticket < row.len() {
                return Ok(put_in_row(row, ticket, clock));
            }
        }
        put_apart(&mut self.rest, tie, clock)
    }

    /// The clock at the key, which has this number, and the ticket.
    pub fn get(&self, key: u32, tie: Tie) -> Option<u32>
        ensures { (number : Numbers) → number (tie_key tie) ≡ Some key →
            result ≡ clock_in number self.now tie }
    {
        let ticket = tie.number as usize;
        if let Some(row) = self.rows.get(key as usize) {
            if ticket < row.len() {
                return row[ticket];
            }
        }
        self.rest.get(&tie).copied()
    }
}
