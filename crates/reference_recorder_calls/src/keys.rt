//! The keys of an event.

ghost use Rattle.std.specs.Prelude.{◌≡◌, [], ◌∷◌, IfOk};
ghost use Rattle.replay_runs.specs.Keys.{is_last, key as key_of};
ghost use Rattle.replay_runs.specs.Threads.{tail};
ghost use Rattle.stub_calls.specs.Calls.{call_keys as call_keys_of, return_keys as return_keys_of};
ghost use Rattle.reference_recorder_marks.specs.Marks.{kind_of, past};
ghost use Rattle.reference_recorder_calls.specs.Said.{AreEndKeys, AreKeysOf};

use crate::ups::open_ups;
use reference_recorder_marks::{EventKind, Mark};
use run_events::{Class, Key};
use std::alloc::{AllocError, Global};
use stub_calls::Done;

fn one_key(alloc: Global, class: Class, value: u64) -> Result<Vec<Key>, AllocError>
    ensures { IfOk result (λ keys. keys.items ≡ key_of class value ∷ []) }
{
    let mut keys = Vec::new(alloc);
    keys.push(Key { class, value })?;
    Ok(keys)
}

fn call_keys(alloc: Global, done: &Done) -> Result<Vec<Key>, AllocError>
    ensures { IfOk result (λ keys. keys.items ≡ call_keys_of done.now) }
{
    let mut keys = Vec::new(alloc);
    done.call_keys(&mut keys)?;
    Ok(keys)
}

fn return_keys(alloc: Global, done: &Done) -> Result<Vec<Key>, AllocError>
    ensures { IfOk result (λ keys. keys.items ≡ return_keys_of done.now) }
{
    let mut keys = Vec::new(alloc);
    done.return_keys(&mut keys)?;
    Ok(keys)
}

/// Whether there is one open callback at most.
fn is_last(ups: &[u16]) -> bool
    ensures { result ≡ is_last (tail ups.now) }
{
    ups.len() <= 1
}

/// That of the thread, where it ends its outermost callback; else none.
fn end_keys(alloc: Global, marks: &[Mark], thread: u8) -> Result<Vec<Key>, AllocError>
    ensures { IfOk result (λ keys. AreEndKeys (past marks.now) thread keys.items) }
{
    let ups = open_ups(alloc, marks, thread)?;
    if is_last(&ups) {
        let keys = one_key(alloc, Class::Thread, thread as u64)?;
        return Ok(keys);
    }
    let none = Vec::new(alloc);
    Ok(none)
}

/// The keys of the thread's next event, each once, by class and then by value. `done` is what is done in the call of a Call or
/// a Ret.
///
/// `AllocError` where there is no memory.
pub fn event_keys(
    alloc: Global,
    marks: &[Mark],
    thread: u8,
    kind: &EventKind,
    done: &Done,
) -> Result<Vec<Key>, AllocError>
    ensures { IfOk result (λ keys.
        AreKeysOf (past marks.now) thread (kind_of kind.now) done.now keys.items) }
{
    match kind {
        EventKind::Call { .. } => {
            let called = call_keys(alloc, done)?;
            Ok(called)
        }
        EventKind::Ret { .. } => {
            let returned = return_keys(alloc, done)?;
            Ok(returned)
        }
        EventKind::Up { func, .. } => {
            let back = one_key(alloc, Class::Callback, *func as u64)?;
            Ok(back)
        }
        EventKind::UpRet { .. } => {
            let ended = end_keys(alloc, marks, thread)?;
            Ok(ended)
        }
        EventKind::Alloc { .. } => {
            let taken = one_key(alloc, Class::Pool, 0)?;
            Ok(taken)
        }
        EventKind::Free { .. } => {
            let freed = one_key(alloc, Class::Pool, 0)?;
            Ok(freed)
        }
        EventKind::Stop { .. } => {
            let none = Vec::new(alloc);
            Ok(none)
        }
    }
}
