//! Keys with their tickets.

ghost use Rattle.std.specs.Prelude.{◌≡◌};
ghost use Rattle.std.specs.Option.{MatchOption};
ghost use Rattle.std.specs.Bool.{OnTrue, OnFalse};
ghost use Rattle.run_events.specs.declared.key.KeyMark.{KeyMark};
ghost use Rattle.log_closure.specs.Events.{In};
ghost use Rattle.log_closure.specs.Predecessors.{next};
ghost use Rattle.log_closure.specs.Wrong.{StandsTwice};

use run_events::KeyMark;

/// Whether the key with the ticket is one of these.
pub fn has(marks: &[KeyMark], mark: &KeyMark) -> bool
    ensures there { OnTrue result (In mark.now marks.now) }
    ensures none { OnFalse result (In mark.now marks.now → ⊥) }
{
    for other in marks {
        if *other == *mark {
            return true;
        }
    }
    false
}

/// Whether a key stands twice with one ticket.
pub fn repeats(marks: &[KeyMark]) -> bool
    ensures there { OnTrue result ((m : KeyMark) × StandsTwice m marks.now) }
    ensures none { OnFalse result ((m : KeyMark) → StandsTwice m marks.now → ⊥) }
{
    for (at, mark) in marks.iter().enumerate() {
        if has(&marks[..at], mark) {
            return true;
        }
    }
    false
}

/// The key with the ticket before, where the ticket is above 0.
pub fn mark_before(mark: &KeyMark) -> Option<KeyMark>
    ensures { MatchOption result (mark.now.ticket ≡ 0) (λ m. mark.now ≡ next m) }
{
    if mark.ticket == 0 {
        return None;
    }
    Some(KeyMark {
        key: mark.key,
        ticket: mark.ticket - 1,
    })
}
