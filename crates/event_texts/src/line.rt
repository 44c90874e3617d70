//! The line of an event.

ghost use Rattle.std.specs.Prelude.{◌≡◌, ◌≤◌, ◌++◌, ℕ, List, codes, decimal, length, OnOk};
ghost use Rattle.std.specs.List.{flat_map};
ghost use Rattle.run_events.specs.Class.{word_of};
ghost use Rattle.event_texts.specs.EventTexts.{name_text, key_text, event_line, lines_text};

use crate::kind::kind_word;
use crate::prepend::PrependBuffer;
use run_events::{Class, EventName, KeyMark, Marks, Record};
use std::alloc::AllocError;
use std::marker::Model;

/// What the line of an event says. Contracts see it as the text of the line.
#[derive(Drop)]
pub struct Line<'a> {
    clock: u32,
    name: EventName,
    kind: &'static str,
    steps: u32,
    keys: &'a Marks,
}

impl<'a> Model for Line<'a> {
    ghost Value = { List ℕ };

    ghost view = { λ l. decimal l.clock ++ codes " " ++ name_text l.name ++
        (codes " " ++ l.kind.now ++ codes " " ++ decimal l.steps) ++ flat_map key_text l.keys.now ++
        codes "\n" };

    ghost invariant = { λ l. length l.kind.now ≤ 8 };
}

impl<'a> Line<'a> {
    /// The line of the event with this name and record.
    pub fn of(name: EventName, entry: &'a Record) -> Line<'a>
        ensures { result ≡ event_line (record { name = name; entry = entry.now }) }
    {
        Line {
            clock: entry.clock,
            name,
            kind: kind_word(&entry.event),
            steps: entry.steps,
            keys: &entry.keys,
        }
    }
}

/// The word of the class of a key.
fn class_word(class: Class) -> &'static str
    ensures word { result.now ≡ word_of class }
    ensures short { length result.now ≤ 8 }
{
    class.word()
}

fn put_key(text: &mut Vec<u8>, mark: &KeyMark) -> Result<(), AllocError>
    ensures { OnOk result (text.new.items ≡ text.old.items ++ key_text mark.now) }
{
    let mut buffer = PrependBuffer::new();
    buffer.put_number(u64::from(mark.ticket));
    buffer.put_byte(b'@');
    buffer.put_number(mark.key.value);
    buffer.put_byte(b':');
    buffer.put_word(class_word(mark.key.class));
    buffer.put_byte(b' ');
    text.extend_from_slice(buffer.as_slice())
}

fn put_keys(text: &mut Vec<u8>, keys: &[KeyMark]) -> Result<(), AllocError>
    ensures { OnOk result (text.new.items ≡ text.old.items ++ flat_map key_text keys.now) }
{
    for key in keys {
        put_key(text, key)?;
    }
    Ok(())
}

/// Adds the line.
fn put_line(text: &mut Vec<u8>, line: &Line<'_>) -> Result<(), AllocError>
    ensures { OnOk result (text.new.items ≡ text.old.items ++ line.now) }
{
    let mut buffer = PrependBuffer::new();
    buffer.put_number(u64::from(line.steps));
    buffer.put_byte(b' ');
    buffer.put_word(line.kind);
    buffer.put_byte(b' ');
    buffer.put_number(u64::from(line.name.index));
    buffer.put_byte(b'.');
    buffer.put_number(u64::from(line.name.thread));
    buffer.put_byte(b' ');
    buffer.put_number(u64::from(line.clock));
    text.extend_from_slice(buffer.as_slice())?;
    let keys = line.keys.unpacked();
    put_keys(text, keys.as_slice())?;
    text.push(b'\n')?;
    Ok(())
}

/// Adds the lines.
pub fn put_lines(text: &mut Vec<u8>, lines: &[Line<'_>]) -> Result<(), AllocError>
    ensures { OnOk result (text.new.items ≡ text.old.items ++ lines_text lines.now) }
{
    for line in lines {
        put_line(text, line)?;
    }
    Ok(())
}
