//! How many of a thread's events another one knows: those that happen before its last event, or are it.

ghost use Rattle.std.specs.Prelude.{◌≡◌, ◌≤◌, ℕ, ◌&&◌, true, if◌then◌else◌, length, take, IfOk};
ghost use Rattle.marks.specs.declared.side.Side.TheVariants.{Replay};
ghost use Rattle.marks.specs.Marks.{is_event};
ghost use Rattle.c_code.specs.MarkLists.{same_side};
ghost use Rattle.replay_runs.specs.Runs.{OfThread, has};
ghost use Rattle.replay_runs.specs.Known.{known, learned};
ghost use Rattle.whole_runs.specs.Sides.{seen};
ghost use Rattle.reference_recorder_marks.specs.Marks.{act_of, mark_of, past};
ghost use Rattle.reference_recorder_stamps.specs.Links.{link_of};
ghost use Rattle.reference_recorder_races.specs.Told.{AreTold};

use reference_recorder_marks::{Mark, is_above, is_event, keys_of};
use reference_recorder_stamps::{Link, has};
use std::alloc::{AllocError, Global};

/// What the last event with the link tells, one mark on, which tells `told`.
fn known_after(known: u64, mark: &Mark, told: u64, link: Link) -> u64
    ensures { result ≡
        (if same_side mark.now.side Replay && has (mark_of mark.now) (link_of link) then told else known) }
{
    if is_above(mark) && has(mark, link) {
        told
    } else {
        known
    }
}

/// What the last event with the link tells, where this is what each event tells.
fn known_by(marks: &[Mark], told: &[u64], link: Link) -> u64
    requires { length told.now ≡ length marks.now }
    ensures { (t : ℕ) → AreTold t marks.now told.now →
        result ≡ known (seen (past marks.now)) (link_of link) t }
{
    let mut known = 0;
    for at in 0..marks.len() {
        let mark = &marks[at];
        known = known_after(known, mark, told[at], link);
    }
    known
}

/// What a mark after these tells of the thread's events.
fn learned(mark: &Mark, before: &[Mark], told: &[u64], thread: u8) -> u64
    requires { length told.now ≡ length before.now }
    ensures { AreTold thread before.now told.now →
        result ≡ learned (known (seen (past before.now))) (mark_of mark.now) thread }
{
    let unpacked = keys_of(&mark.act);
    let keys = unpacked.as_slice();
    let own = known_by(before, told, Link::Thread(mark.thread));
    let mut known = own;
    for key in keys {
        let more = known_by(before, told, Link::Key(key.key));
        known = more.max(known);
    }
    let other = mark.thread;
    if other == thread {
        let next = mark.index as u64 + 1;
        return known.max(next);
    }
    known
}

/// The same, where the mark is an event; 0 for any other mark.
fn told_at(mark: &Mark, before: &[Mark], told: &[u64], thread: u8) -> u64
    requires { length told.now ≡ length before.now }
    ensures { is_event (act_of mark.now.act) ≡ true → AreTold thread before.now told.now →
        result ≡ learned (known (seen (past before.now))) (mark_of mark.now) thread }
{
    if is_event(&mark.act) {
        return learned(mark, before, told, thread);
    }
    0
}

/// The first of the marks, so many of them.
fn prefix(marks: &[Mark], count: usize) -> &[Mark]
    requires { count ≤ length marks.now }
    ensures { result.now ≡ take count marks.now }
{
    &marks[..count]
}

/// What each event tells of the thread's events.
fn told_by(alloc: Global, marks: &[Mark], thread: u8) -> Result<Vec<u64>, AllocError>
    ensures { IfOk result (λ told. AreTold thread marks.now told.items) }
{
    let mut told = Vec::new(alloc);
    for at in 0..marks.len() {
        let mark = &marks[at];
        let before = prefix(marks, at);
        let more = told_at(mark, before, &told, thread);
        told.push(more)?;
    }
    Ok(told)
}

/// How many events of `other` the thread knows.
pub fn known_of(alloc: Global, marks: &[Mark], thread: u8, other: u8) -> Result<u64, AllocError>
    ensures { IfOk result (λ n. n ≡ known (seen (past marks.now)) (OfThread thread) other) }
{
    let told = told_by(alloc, marks, other)?;
    let link = Link::Thread(thread);
    let number = known_by(marks, &told, link);
    Ok(number)
}
