//! The keys of regions.

ghost use Rattle.std.specs.Prelude.{◌≡◌, [], ◌∷◌, List, IfOk, OnOk};
ghost use Rattle.marks.specs.Marks.{Mark as Shown};
ghost use Rattle.replay_runs.specs.Pool.{in_use as in_use_in};
ghost use Rattle.replay_runs.specs.Checks.{Done, any_number as any_number_in, key_checks};
ghost use Rattle.whole_runs.specs.World.{World, begin};
ghost use Rattle.whole_runs.specs.Sides.{seen};
ghost use Rattle.reference_recorder_findings.specs.Findings.{IsFound};
ghost use Rattle.reference_recorder_uses.specs.Pasts.{IsPastOf};
ghost use Rattle.reference_recorder_uses.specs.Checks.{key_check};

use crate::past::Past;
use marks::{BreachKind, Range};
use reference_recorder_findings::Finding;
use reference_recorder_regions::in_use;
use std::alloc::{AllocError, Global};
use stub_calls::Prepared;

// The region of the key, none where it isn't in use.
fn region(run: Past<'_>, key: u64) -> Option<Range>
    ensures { (w : World) (p : List Shown) → IsPastOf w p run.entry →
        result ≡ in_use_in (begin w) key (seen p) }
{
    in_use(run.marks, key)
}

// Whether one of the keys is this one.
fn any_number(keys: &[u64], key: u64) -> bool
    ensures { result ≡ any_number_in keys.now key }
{
    for one in keys {
        if *one == key {
            return true;
        }
    }
    false
}

fn key_of(prepared: &Prepared) -> u64
    ensures { result ≡ prepared.now.key }
{
    prepared.key
}

// The breach of a key that is in use.
fn in_use_already(key: u64) -> Finding
    ensures { result ≡ Finding.Breach BreachKind.KeyInUse key None }
{
    Finding::Breach {
        kind: BreachKind::KeyInUse,
        address: key,
        other: None,
    }
}

// What is found where a region is prepared under a key, which may not be in use or one of the others.
fn prepared_key(run: Past<'_>, more: &[u64], prepared: &Prepared) -> Option<Finding>
    ensures { (w : World) (p : List Shown) → IsPastOf w p run.entry →
        IsFound (key_checks (begin w) (seen p) more.now (prepared.now ∷ []) Done) result }
{
    let key = key_of(prepared);
    let taken = in_use_already(key);
    if any_number(more, key) {
        return Some(taken);
    }
    match region(run, key) {
        Some(_) => Some(taken),
        None => None,
    }
}

// Puts the key before the others.
fn with_key(prepared: &Prepared, keys: &mut Vec<u64>) -> Result<(), AllocError>
    ensures { OnOk result (keys.new.items ≡ prepared.now.key ∷ keys.old.items) }
{
    keys.insert(0, key_of(prepared))?;
    Ok(())
}

/// What is found where regions are prepared under keys, each of which counts as in use for those after it.
///
/// `AllocError` where there is no memory.
pub fn keys(
    alloc: Global,
    run: Past<'_>,
    prepared: &[Prepared],
) -> Result<Option<Finding>, AllocError>
    ensures { (w : World) (p : List Shown) → IsPastOf w p run.entry →
        IfOk result (IsFound (key_checks (begin w) (seen p) [] prepared.now Done)) }
{
    let mut more = Vec::new(alloc);
    for one in prepared {
        if let Some(found) = prepared_key(run, &more, one) {
            return Ok(Some(found));
        }
        with_key(one, &mut more)?;
    }
    Ok(None)
}

/// What is found where the region under the key is committed, which must be in use.
pub fn key_unused(run: Past<'_>, key: u64) -> Option<Finding>
    ensures { (w : World) (p : List Shown) → IsPastOf w p run.entry →
        IsFound (key_check (begin w) (seen p) key Done) result }
{
    match region(run, key) {
        Some(_) => None,
        None => Some(Finding::Breach {
            kind: BreachKind::NoKey,
            address: key,
            other: None,
        }),
    }
}
