//! The thread that a step wishes for.

ghost use Rattle.std.specs.Prelude.{◌≡◌, ◌<◌, length};
ghost use Rattle.std.specs.List.{All};
ghost use Rattle.system_side.specs.Schedule.{entry, round, wish_at};

use system_side::Schedule;

/// The thread that the step with this number, from 0, wishes for: the schedule has the thread of each turn as often as it says, and
/// repeats.
pub fn wish(schedule: &Schedule, step: u64) -> u8
    requires some { 0 < length schedule.now }
    requires counts { All (λ item. 0 < item.1) schedule.now }
    ensures { result ≡ wish_at schedule.now step }
{
    let steps = round_of(schedule);
    let place = u128::from(step) % steps;
    thread_at(schedule, place)
}

// How many steps one round of the schedule has.
fn round_of(schedule: &Schedule) -> u128
    ensures { result ≡ round schedule.now }
{
    let mut steps: u128 = 0;
    for turn in 0..schedule.len() {
        let item = schedule.get(turn);
        steps += u128::from(item.1);
    }
    steps
}

// The thread at a place of a round.
fn thread_at(schedule: &Schedule, place: u128) -> u8
    ensures { result ≡ entry schedule.now place }
{
    let mut left = place;
    for turn in 0..schedule.len() {
        let item = schedule.get(turn);
        let steps = u128::from(item.1);
        if left < steps {
            return item.0;
        }
        left -= steps;
    }
    0
}
