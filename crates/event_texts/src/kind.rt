//! The word of the kind of an event.

ghost use Rattle.std.specs.Prelude.{◌≡◌, ◌≤◌, length};
ghost use Rattle.event_texts.specs.EventTexts.{kind_word};

use run_events::Event;

/// The word of the kind of an event, as every text of events has it.
pub fn kind_word(event: &Event) -> &'static str
    ensures word { result.now ≡ kind_word event.now }
    ensures short { length result.now ≤ 8 }
{
    match event {
        Event::Call { .. } => "call",
        Event::Ret { .. } => "ret",
        Event::Up { .. } => "up",
        Event::UpRet { .. } => "upret",
        Event::Alloc { .. } => "alloc",
        Event::Free { .. } => "free",
        Event::Stop { .. } => "stop",
    }
}
