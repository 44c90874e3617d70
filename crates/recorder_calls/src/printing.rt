//! What a Call prints.

ghost use Rattle.std.specs.Prelude.{◌≡◌, ◌++◌, [], if◌then◌else◌, IfOk, OnOk};
ghost use Rattle.run_events.specs.declared.key.Class.TheVariants.{Out};
ghost use Rattle.logical_clock.specs.Events.{is_among};
ghost use Rattle.replay_runs.specs.Keys.{key as key_of};
ghost use Rattle.replay_runs.specs.Runs.{same_key};
ghost use Rattle.recorder_calls.specs.Reading.{AllMayBeRead, MayBeRead, read_in, shown_in};

use marks::Side;
use memory_map::Range;
use run_events::{Class, Key};
use space_memory::{HoldError, Spaces};
use std::alloc::{AllocError, Global};

/// The bytes of these ranges, in a row, where the keys of the Call have that of the output; none of any other Call. What code may not
/// read is left out.
pub fn printed(
    spaces: &Spaces,
    alloc: Global,
    thread: u8,
    ranges: &[Range],
    keys: &[Key],
) -> Result<Vec<u8>, AllocError>
    ensures { IfOk result (λ bytes. AllMayBeRead spaces.now thread ranges.now → bytes.items ≡
        (if is_among keys.now (key_of Out 0) then read_in spaces.now.bytes ranges.now else [])) }
{
    if prints(keys) {
        read_all(spaces, alloc, thread, ranges)
    } else {
        Ok(Vec::new(alloc))
    }
}

/// Adds these bytes to the output. Most Calls print none.
pub fn print(output: &mut Vec<u8>, bytes: &[u8]) -> Result<(), AllocError>
    ensures { OnOk result (output.new.items ≡ output.old.items ++ bytes.now) }
{
    if bytes.is_empty() {
        return Ok(());
    }
    output.extend_from_slice(bytes)
}

// Whether the key of the output is one of them.
fn prints(keys: &[Key]) -> bool
    ensures { result ≡ is_among keys.now (key_of Out 0) }
{
    for key in keys {
        if is_of_output(*key) {
            return true;
        }
    }
    false
}

fn is_of_output(key: Key) -> bool
    ensures { result ≡ same_key key (key_of Out 0) }
{
    key.class.number() == Class::Out.number() && key.value == 0
}

fn read_all(
    spaces: &Spaces,
    alloc: Global,
    thread: u8,
    ranges: &[Range],
) -> Result<Vec<u8>, AllocError>
    ensures { IfOk result (λ bytes. AllMayBeRead spaces.now thread ranges.now →
        bytes.items ≡ read_in spaces.now.bytes ranges.now) }
{
    let mut bytes = Vec::new(alloc);
    for range in ranges {
        read_on(spaces, alloc, thread, *range, &mut bytes)?;
    }
    Ok(bytes)
}

// Adds the bytes of one more range.
fn read_on(
    spaces: &Spaces,
    alloc: Global,
    thread: u8,
    range: Range,
    bytes: &mut Vec<u8>,
) -> Result<(), AllocError>
    ensures { OnOk result (MayBeRead spaces.now thread range →
        bytes.new.items ≡ bytes.old.items ++ shown_in spaces.now.bytes range) }
{
    match spaces.copy(alloc, Side::Replay, thread, range) {
        Ok(read) => {
            bytes.extend_from_slice(read.as_slice())?;
            Ok(())
        }
        // The tests of the Call find why.
        Err(HoldError::Refused(_)) => Ok(()),
        Err(HoldError::Memory) => Err(AllocError),
    }
}
