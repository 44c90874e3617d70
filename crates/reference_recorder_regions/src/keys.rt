//! The regions of keys in use, and the functions that are registered, after a list of marks.

ghost use Rattle.std.specs.Prelude.{◌≡◌, ◌==◌};
ghost use Rattle.replay_runs.specs.Pool.{act_use, commit_leaves, in_use, is_call, is_call_event, is_registered, prepared_under, use_after};
ghost use Rattle.whole_runs.specs.World.{World, begin};
ghost use Rattle.whole_runs.specs.Sides.{seen};
ghost use Rattle.reference_recorder_marks.specs.Marks.{act_of, commit_of, kind_of, mark_of, past};
ghost use Rattle.reference_recorder_regions.specs.Steps.{registered_step, use_step};

use marks::Range;
use reference_recorder_marks::{Act, Commit, EventKind, Mark, has_key, is_above};
use run_events::{Class, Key};
use stub_calls::Prepared;

/// The region of the key after the marks, which stand with the oldest first; `None` where the key isn't in use.
pub fn in_use(marks: &[Mark], key: u64) -> Option<Range>
    ensures { (w : World) → result ≡ in_use (begin w) key (seen (past marks.now)) }
{
    let mut region = None;
    for mark in marks {
        region = use_of(mark, key, region);
    }
    region
}

// What a mark makes of it: only the events with the key change it.
fn use_of(mark: &Mark, key: u64, region: Option<Range>) -> Option<Range>
    ensures { result ≡ use_step key (mark_of mark.now) region }
{
    let asynchronous = Key {
        class: Class::Async,
        value: key,
    };
    if is_above(mark) && has_key(&mark.act, asynchronous) {
        act_use(&mark.act, key, region)
    } else {
        region
    }
}

fn act_use(act: &Act, key: u64, region: Option<Range>) -> Option<Range>
    ensures { result ≡ act_use key (act_of act.now) region }
{
    match act {
        Act::Turn => region,
        Act::Load { .. } => region,
        Act::Store { .. } => region,
        Act::Enter { .. } => region,
        Act::Leave { .. } => region,
        Act::Step { .. } => region,
        Act::Fault { .. } => region,
        Act::Made(event) => use_after(&event.kind, key, region),
    }
}

fn use_after(kind: &EventKind, key: u64, region: Option<Range>) -> Option<Range>
    ensures { result ≡ use_after key (kind_of kind.now) region }
{
    match kind {
        EventKind::Call { prepared, .. } => prepared_under(prepared.as_slice(), key, region),
        EventKind::Ret { commit, .. } => commit_leaves(commit, key, region),
        EventKind::Up { .. } => region,
        EventKind::UpRet { .. } => region,
        EventKind::Alloc { .. } => region,
        EventKind::Free { .. } => region,
        EventKind::Stop { .. } => region,
    }
}

// The first of these regions under the key, or the one that it had.
fn prepared_under(prepared: &[Prepared], key: u64, region: Option<Range>) -> Option<Range>
    ensures { result ≡ prepared_under prepared.now key region }
{
    for one in prepared {
        if is_under(one, key) {
            return Some(range_of(one));
        }
    }
    region
}

fn is_under(one: &Prepared, key: u64) -> bool
    ensures { result ≡ (one.now.key == key) }
{
    one.key == key
}

fn range_of(one: &Prepared) -> Range
    ensures { result ≡ one.now.range }
{
    one.range
}

fn commit_leaves(commit: &Commit, key: u64, region: Option<Range>) -> Option<Range>
    ensures { result ≡ commit_leaves key (commit_of commit.now) region }
{
    match commit {
        Commit::NoRegion => region,
        Commit::Withheld => region,
        Commit::Released { key: released, .. } => { if *released == key { None } else { region } }
    }
}

/// Whether a Call registered the function, which code below the cut may then call back.
pub fn is_registered(marks: &[Mark], func: u16) -> bool
    ensures { (w : World) → result ≡ is_registered (begin w) func (seen (past marks.now)) }
{
    let mut registered = false;
    for mark in marks {
        registered = registered_by(mark, func, registered);
    }
    registered
}

fn registered_by(mark: &Mark, func: u16, registered: bool) -> bool
    ensures { result ≡ registered_step func (mark_of mark.now) registered }
{
    let callback = Key {
        class: Class::Callback,
        value: u64::from(func),
    };
    if is_above(mark) && has_key(&mark.act, callback) {
        is_call(&mark.act) || registered
    } else {
        registered
    }
}

fn is_call(act: &Act) -> bool
    ensures { result ≡ is_call (act_of act.now) }
{
    match act {
        Act::Turn => false,
        Act::Load { .. } => false,
        Act::Store { .. } => false,
        Act::Enter { .. } => false,
        Act::Leave { .. } => false,
        Act::Step { .. } => false,
        Act::Fault { .. } => false,
        Act::Made(event) => is_call_event(&event.kind),
    }
}

fn is_call_event(kind: &EventKind) -> bool
    ensures { result ≡ is_call_event (kind_of kind.now) }
{
    match kind {
        EventKind::Call { .. } => true,
        EventKind::Ret { .. } => false,
        EventKind::Up { .. } => false,
        EventKind::UpRet { .. } => false,
        EventKind::Alloc { .. } => false,
        EventKind::Free { .. } => false,
        EventKind::Stop { .. } => false,
    }
}
