//! Keys in order, each once.

ghost use Rattle.std.specs.Prelude.{◌≡◌, map, OnOk};
ghost use Rattle.run_events.specs.declared.key.Class.TheVariants.{Async, Callback};
ghost use Rattle.marks.specs.Ranges.{Prepared as SaidPrepared};
ghost use Rattle.replay_runs.specs.Runs.{same_key};
ghost use Rattle.replay_runs.specs.Keys.{commit_keys, key as key_of, key_before, with_key};
ghost use Rattle.stub_calls.specs.Calls.{with_keys};

use crate::said::{Committing, Prepared};
use run_events::{Class, Key};
use std::alloc::AllocError;

fn is_same(a: Key, b: Key) -> bool
    ensures { result ≡ same_key a b }
{
    a.class.number() == b.class.number() && a.value == b.value
}

fn is_before(a: Key, b: Key) -> bool
    ensures { result ≡ key_before a b }
{
    let (first, second) = (a.class.number(), b.class.number());
    first < second || first == second && a.value < b.value
}

/// Puts a key in its place, if it isn't there.
fn put_key(keys: &mut Vec<Key>, key: Key) -> Result<(), AllocError>
    ensures { OnOk result (keys.new.items ≡ with_key key keys.old.items) }
{
    for at in 0..keys.len() {
        if is_same(key, keys[at]) {
            return Ok(());
        }
        if is_before(key, keys[at]) {
            keys.insert(at, key)?;
            return Ok(());
        }
    }
    keys.push(key)?;
    Ok(())
}

/// Puts more keys in their places.
pub fn put_keys(keys: &mut Vec<Key>, more: &[Key]) -> Result<(), AllocError>
    ensures { OnOk result (keys.new.items ≡ with_keys more.now keys.old.items) }
{
    for done in 0..more.len() {
        put_key(keys, more[more.len() - 1 - done])?;
    }
    Ok(())
}

/// Puts the keys of functions that are registered in their places.
pub fn put_callbacks(keys: &mut Vec<Key>, funcs: &[u16]) -> Result<(), AllocError>
    ensures { OnOk result (keys.new.items ≡ with_keys (map (key_of Callback) funcs.now) keys.old.items) }
{
    for done in 0..funcs.len() {
        let value = u64::from(funcs[funcs.len() - 1 - done]);
        put_key(
            keys,
            Key {
                class: Class::Callback,
                value,
            },
        )?;
    }
    Ok(())
}

/// Puts the keys of prepared regions in their places.
pub fn put_prepared(keys: &mut Vec<Key>, prepares: &[Prepared]) -> Result<(), AllocError>
    ensures { OnOk result (keys.new.items ≡
        with_keys (map (λ (p : SaidPrepared). key_of Async p.key) prepares.now) keys.old.items) }
{
    for done in 0..prepares.len() {
        let prepared = prepares[prepares.len() - 1 - done];
        put_key(
            keys,
            Key {
                class: Class::Async,
                value: prepared.key,
            },
        )?;
    }
    Ok(())
}

/// Puts the key of what is committed in its place.
pub fn put_commit(keys: &mut Vec<Key>, commit: Option<Committing>) -> Result<(), AllocError>
    ensures { OnOk result (keys.new.items ≡ with_keys (commit_keys commit) keys.old.items) }
{
    match commit {
        Some(commit) => put_key(
            keys,
            Key {
                class: Class::Async,
                value: commit.key,
            },
        ),
        None => Ok(()),
    }
}
