//! The mutexes that are known, and their places in rows.

ghost use Rattle.std.specs.Prelude.{◌≡◌, length, IfOk, OnOk, Some};
ghost use Rattle.lockset_check_rules.specs.Mutexes.{is_held, locks_of, with_lock, with_locks};
ghost use Rattle.lockset_check_held.specs.Rows.{IsTable, IsWithin, Learns, is_on, place_in, set_of};

use crate::row::Row;
use indexmap::IndexSet;
use std::alloc::{AllocError, Global};

/// The place of a mutex, if it is known.
pub fn place_of(known: &IndexSet<i128>, mutex: i128) -> Option<usize>
    ensures { result ≡ place_in mutex known.now.keys }
{
    known.get_index_of(&mutex)
}

/// The place of a mutex, which is known from now on.
pub fn learn(known: &mut IndexSet<i128>, mutex: i128) -> Result<usize, AllocError>
    requires { IsTable known.old.keys }
    ensures place { IfOk result (λ place. place_in mutex known.new.keys ≡ Some place) }
    ensures table { IsTable known.new.keys }
    ensures learns { Learns known.old.keys known.new.keys }
{
    let (place, _) = known.insert_full(mutex)?;
    Ok(place)
}

/// Whether a row has a mutex.
#[tactic(auto, using(crate::proofs::Tables::held_on, crate::proofs::Tables::held_off))]
pub fn has(known: &IndexSet<i128>, mutex: i128, row: &Row) -> bool
    requires { IsTable known.now.keys }
    ensures { result ≡ is_held mutex (set_of known.now.keys row.now) }
{
    match place_of(known, mutex) {
        Some(place) => row.has(place),
        None => false,
    }
}

// One mutex more in a row, known from now on.
fn add(known: &mut IndexSet<i128>, row: &mut Row, mutex: i128) -> Result<(), AllocError>
    requires known { IsTable known.old.keys }
    requires row { IsWithin (length known.old.keys) (is_on row.old) }
    ensures done { OnOk result (set_of known.new.keys row.new ≡
        with_lock mutex (set_of known.old.keys row.old)) }
    ensures known { IsTable known.new.keys }
    ensures row { IsWithin (length known.new.keys) (is_on row.new) }
    ensures learns { Learns known.old.keys known.new.keys }
{
    let place = learn(known, mutex)?;
    if row.has(place) {
        return Ok(());
    }
    row.turn(place)
}

// These mutexes more in a row, known from now on.
#[tactic(auto, using(crate::proofs::Starts::put_next, crate::proofs::Starts::all_put, crate::proofs::Tables::learns_nothing, crate::proofs::Tables::learns_more))]
fn add_all(known: &mut IndexSet<i128>, row: &mut Row, mutexes: &[i64]) -> Result<(), AllocError>
    requires known { IsTable known.old.keys }
    requires row { IsWithin (length known.old.keys) (is_on row.old) }
    ensures done { OnOk result (set_of known.new.keys row.new ≡
        with_locks mutexes.now (set_of known.old.keys row.old)) }
    ensures known { IsTable known.new.keys }
    ensures row { IsWithin (length known.new.keys) (is_on row.new) }
    ensures learns { Learns known.old.keys known.new.keys }
{
    for i in 0..mutexes.len() {
        add(known, row, i128::from(mutexes[i]))?;
    }
    Ok(())
}

/// A row of these mutexes, which are known from now on.
#[tactic(auto, using(crate::proofs::Tables::nothing_within, crate::proofs::Tables::no_places))]
pub fn row_of(alloc: Global, known: &mut IndexSet<i128>, mutexes: &[i64]) -> Result<Row, AllocError>
    requires { IsTable known.old.keys }
    ensures set { IfOk result (λ row. set_of known.new.keys row ≡ locks_of mutexes.now) }
    ensures row { IfOk result (λ row. IsWithin (length known.new.keys) (is_on row)) }
    ensures known { IsTable known.new.keys }
    ensures learns { Learns known.old.keys known.new.keys }
{
    let mut row = Row::new(alloc);
    add_all(known, &mut row, mutexes)?;
    Ok(row)
}
