//! Which bytes lie in the regions of keys in use.

ghost use Rattle.std.specs.Prelude.{◌≡◌, ◌||◌};
ghost use Rattle.replay_runs.specs.Pool.{in_use};
ghost use Rattle.whole_runs.specs.World.{World, begin};
ghost use Rattle.whole_runs.specs.Sides.{seen};
ghost use Rattle.reference_recorder_marks.specs.Marks.{act_of, kind_of, past};
ghost use Rattle.reference_recorder_rights.specs.Rights.{act_under, any_under, has_byte, kind_under, past_under};

use reference_recorder_marks::{Act, EventKind, Mark};
use reference_recorder_regions::in_use;
use stub_calls::Prepared;

// Whether the byte lies in the region of a key in use.
pub(crate) fn is_prepared(marks: &[Mark], addr: u64) -> bool
    ensures { (w : World) → result ≡
        past_under (λ k. in_use (begin w) k (seen (past marks.now))) addr (past marks.now) }
{
    let mut found = false;
    for mark in marks {
        found = under_or(marks, &mark.act, addr, found);
    }
    found
}

// The same of one mark, or of those before it.
fn under_or(marks: &[Mark], act: &Act, addr: u64, found: bool) -> bool
    ensures { (w : World) → result ≡
        (act_under (λ k. in_use (begin w) k (seen (past marks.now))) addr (act_of act.now) || found) }
{
    act_under(marks, act, addr) || found
}

// Whether it lies in that of a key under which the mark prepares a region.
fn act_under(marks: &[Mark], act: &Act, addr: u64) -> bool
    ensures { (w : World) → result ≡
        act_under (λ k. in_use (begin w) k (seen (past marks.now))) addr (act_of act.now) }
{
    match act {
        Act::Turn => false,
        Act::Load { .. } => false,
        Act::Store { .. } => false,
        Act::Enter { .. } => false,
        Act::Leave { .. } => false,
        Act::Step { .. } => false,
        Act::Fault { .. } => false,
        Act::Made(event) => kind_under(marks, &event.kind, addr),
    }
}

fn kind_under(marks: &[Mark], kind: &EventKind, addr: u64) -> bool
    ensures { (w : World) → result ≡
        kind_under (λ k. in_use (begin w) k (seen (past marks.now))) addr (kind_of kind.now) }
{
    match kind {
        EventKind::Call { prepared, .. } => any_under(marks, prepared.as_slice(), addr),
        EventKind::Ret { .. } => false,
        EventKind::Up { .. } => false,
        EventKind::UpRet { .. } => false,
        EventKind::Alloc { .. } => false,
        EventKind::Free { .. } => false,
        EventKind::Stop { .. } => false,
    }
}

fn any_under(marks: &[Mark], prepared: &[Prepared], addr: u64) -> bool
    ensures { (w : World) → result ≡
        any_under (λ k. in_use (begin w) k (seen (past marks.now))) addr prepared.now }
{
    for one in prepared {
        if is_under(marks, one, addr) {
            return true;
        }
    }
    false
}

fn is_under(marks: &[Mark], one: &Prepared, addr: u64) -> bool
    ensures { (w : World) → result ≡
        has_byte (in_use (begin w) one.now.key (seen (past marks.now))) addr }
{
    match in_use(marks, key_of(one)) {
        Some(region) => region.has(addr),
        None => false,
    }
}

fn key_of(one: &Prepared) -> u64
    ensures { result ≡ one.now.key }
{
    one.key
}
