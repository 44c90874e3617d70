//! Which thread a step wishes for: a schedule that repeats.

ghost use Rattle.std.specs.Prelude.{◌≡◌, ◌+◌, ◌%◌, ◌^◌, ◌<◌, length, nat_lt, if◌then◌else◌, IfOk};
ghost use Rattle.std.specs.List.{All, HoldsAt};
ghost use Rattle.system_side.specs.Schedule.{wish_at, lasts_from};

use crate::lists::Schedule;
use std::alloc::{AllocError, Global};
use std::marker::Model;

/// The items of a schedule, with the last step of each in the first round; no step is greater than `u64::MAX`.
#[derive(Drop)]
pub struct Turns {
    items: Vec<(u8, u32)>,
    lasts: Vec<u64>,
}

impl Model for Turns {
    ghost use Rattle.std.specs.Prelude.{ℕ, List};
    ghost use Rattle.system_side.specs.Schedule.{IsKept};

    ghost Value = { List (ℕ × ℕ) };

    ghost view = { λ t. t.items.items };

    ghost invariant = { λ t. IsKept t.items.items t.lasts.items };
}

impl Turns {
    /// The turns of a schedule.
    pub fn new(alloc: Global, schedule: &Schedule) -> Result<Turns, AllocError>
        requires some { 0 < length schedule.now }
        requires counts { All (λ item. 0 < item.1) schedule.now }
        ensures { IfOk result (λ turns. turns ≡ schedule.now) }
    {
        let items = schedule.to_vec(alloc)?;
        let lasts = last_steps(alloc, &items)?;
        Ok(Turns { items, lasts })
    }

    /// The thread of a step.
    pub fn wish(&self, step: u64) -> u8
        ensures { result ≡ wish_at self.now step }
    {
        self.items[self.turn(step)].0
    }

    // The place of the item that has the step.
    fn turn(&self, step: u64) -> usize
        ensures inside { result < length self.now }
        ensures item { HoldsAt (λ item. item.0 ≡ wish_at self.now step) self.now result }
    {
        let last = self.lasts[self.lasts.len() - 1];
        let place = place_in_round(last, step);
        self.lasts.partition_point(|last| *last < place)
    }
}

// The place of a step in its round, of which this is the last place; no round ends where that is `u64::MAX`.
fn place_in_round(last: u64, step: u64) -> u64
    ensures { result ≡ (if nat_lt (last + 1) (2 ^ 64) then step % (last + 1) else step) }
{
    match last.checked_add(1) {
        Some(round) => step % round,
        None => step,
    }
}

// The last step of each item in the first round.
fn last_steps(alloc: Global, items: &[(u8, u32)]) -> Result<Vec<u64>, AllocError>
    requires { All (λ item. 0 < item.1) items.now }
    ensures { IfOk result (λ lasts. lasts.items ≡ lasts_from 0 items.now) }
{
    let mut lasts = Vec::new(alloc);
    let mut before: u64 = 0;
    for (_, count) in items {
        lasts.push(before.saturating_add(u64::from(*count - 1)))?;
        before = before.saturating_add(u64::from(*count));
    }
    Ok(lasts)
}
