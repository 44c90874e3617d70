//! The name of an event, and the last line of a list of events.

ghost use Rattle.std.specs.Prelude.{◌≡◌, ◌++◌, OnOk};
ghost use Rattle.event_texts.specs.EventTexts.{end_line, name_text};

use r2_base::put_dec;
use run_events::EventName;
use std::alloc::AllocError;

/// Adds `THREAD.INDEX`.
pub fn put_name(text: &mut Vec<u8>, name: EventName) -> Result<(), AllocError>
    ensures { OnOk result (text.new.items ≡ text.old.items ++ name_text name) }
{
    put_dec(text, i128::from(name.thread))?;
    text.push(b'.')?;
    put_dec(text, i128::from(name.index))
}

/// Adds the last line, which says how many events there are.
pub fn put_end(text: &mut Vec<u8>, count: usize) -> Result<(), AllocError>
    ensures { OnOk result (text.new.items ≡ text.old.items ++ end_line count) }
{
    text.extend_from_slice(b"events ")?;
    put_dec(text, count as i128)?;
    text.push(b'\n')?;
    Ok(())
}
