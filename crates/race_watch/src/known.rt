//! How many events of each thread are known (vector clocks; Fidge 1988, Mattern 1989).

ghost use Rattle.std.specs.Prelude.{◌≡◌, slice_index, if◌then◌else◌, IsSome, OnOk};
ghost use Rattle.std.specs.BTreeMap.{get};
ghost use Rattle.run_events.specs.declared.key.Key.{Key};
ghost use Rattle.logical_clock.specs.Names.{name, key_cmp, is_named};
ghost use Rattle.logical_clock.specs.declared.name.KeyName.{KeyName};
ghost use Rattle.race_watch.specs.Rows.{row_in, told_by, told_by_any, Learns, AreSameRows, Keeps, IsWritten, Each};

use logical_clock::{KeyName, name_of};
use run_events::Key;
use std::alloc::AllocError;
use std::collections::BTreeMap;

/// How many events of each thread are known.
pub type Row = [u32; 32];

/// Learns what another row tells.
fn learn(row: &mut Row, other: &Row)
    ensures { Learns row.old row.new (slice_index other.now) }
{
    for u in 0..32 {
        row[u] = row[u].max(other[u]);
    }
}

/// Learns what the last event with the key tells. The key has a place from now on.
fn learn_key(
    keys: &mut BTreeMap<KeyName, Row>,
    row: &mut Row,
    key: KeyName,
) -> Result<(), AllocError>
    ensures learned { OnOk result (Learns row.old row.new (told_by keys.old key)) }
    ensures there { OnOk result (IsSome (get key_cmp keys.new key)) }
    ensures stays { Keeps keys.old keys.new }
    ensures same { AreSameRows keys.old keys.new }
{
    if let Some(other) = keys.get(&key) {
        learn(row, other);
        return Ok(());
    }
    keys.insert(key, [0; 32])?;
    Ok(())
}

/// Learns what the last event with each of the keys tells. They have places from now on.
pub fn learn_keys(
    keys: &mut BTreeMap<KeyName, Row>,
    row: &mut Row,
    of: &[Key],
) -> Result<(), AllocError>
    ensures learned { OnOk result (Learns row.old row.new (told_by_any keys.old of.now)) }
    ensures there { OnOk result (Each (λ (k : Key). IsSome (get key_cmp keys.new (name k))) of.now) }
    ensures same { AreSameRows keys.old keys.new }
{
    for key in of {
        learn_key(keys, row, name_of(*key))?;
    }
    Ok(())
}

/// Keeps a row for a key that has a place.
fn tell_key(keys: &mut BTreeMap<KeyName, Row>, key: KeyName, row: &Row)
    requires { IsSome (get key_cmp keys.old key) }
    ensures { IsWritten keys.old keys.new key row.now }
{
    if let Some(place) = keys.get_mut(&key) {
        *place = *row;
    }
}

/// Keeps a row for each of the keys, which have places.
pub fn tell_keys(keys: &mut BTreeMap<KeyName, Row>, of: &[Key], row: &Row)
    requires { Each (λ (k : Key). IsSome (get key_cmp keys.old (name k))) of.now }
    ensures { (q : KeyName) → row_in keys.new q ≡ (if is_named of.now q then row.now else row_in keys.old q) }
{
    for key in of {
        tell_key(keys, name_of(*key), row);
    }
}
