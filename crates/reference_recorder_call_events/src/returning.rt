//! What comes up with a Ret.

ghost use Rattle.std.specs.Prelude.{◌≡◌, ◌≢◌, ◌==◌, if◌then◌else◌, Some, None, IfOk};
ghost use Rattle.reference_recorder_marks.specs.Marks.{commit_of, past};
ghost use Rattle.reference_recorder_call_events.specs.Memory.{memory_of};
ghost use Rattle.reference_recorder_call_events.specs.Returns.{HasRegion, IsCommitRead, IsRegionRead, IsRepeat, region_under};

use crate::memory::Memory;
use crate::pieces::piece;
use marks::Range;
use reference_recorder_calls::{last_return, same_return};
use reference_recorder_marks::{Commit, Mark};
use reference_recorder_regions::in_use;
use run_events::Bytes;
use std::alloc::{AllocError, Global};
use stub_calls::Committing;

/// What a Ret does with the region that its function commits, if it commits one: what is released is the region that is in use under
/// the key.
///
/// `AllocError` where there is no memory.
pub fn committed(
    alloc: Global,
    memory: Memory<'_>,
    commit: Option<Committing>,
) -> Result<Commit, AllocError>
    requires { HasRegion (past memory.marks.now) commit }
    ensures { IfOk result (λ c.
        IsCommitRead (memory_of memory.entry) (past memory.entry.marks.now) commit (commit_of c)) }
{
    match commit {
        Some(commit) => committed_under(alloc, memory, commit),
        None => Ok(Commit::NoRegion),
    }
}

// The same where it commits this one.
fn committed_under(
    alloc: Global,
    memory: Memory<'_>,
    commit: Committing,
) -> Result<Commit, AllocError>
    requires { HasRegion (past memory.marks.now) (Some commit) }
    ensures { IfOk result (λ c.
        IsCommitRead (memory_of memory.entry) (past memory.entry.marks.now) (Some commit) (commit_of c)) }
{
    match commit.used {
        Some(used) => released(alloc, memory, commit.key, used),
        None => Ok(Commit::Withheld),
    }
}

// The region under the key is released, of which so many bytes are used.
fn released(alloc: Global, memory: Memory<'_>, key: u64, used: u64) -> Result<Commit, AllocError>
    requires { region_under key (past memory.marks.now) ≢ None }
    ensures { IfOk result (λ c.
        IsRegionRead (memory_of memory.entry) (past memory.entry.marks.now) key used (commit_of c)) }
{
    match in_use(memory.marks, key) {
        Some(range) => {
            let region = piece(alloc, memory, range, used_of(range, used))?;
            Ok(Commit::Released { key, region })
        }
        None => unreachable!("what is released is in use"),
    }
}

// How many bytes of a region are used: none of that of a NULL pointer.
fn used_of(range: Range, used: u64) -> u64
    ensures { result ≡ (if range.addr == 0 then 0 else used) }
{
    if range.addr == 0 { 0 } else { used }
}

/// Whether the thread's last return of the function gave this result and these bytes.
///
/// `AllocError` where there is no memory.
pub fn repeats(
    alloc: Global,
    marks: &[Mark],
    thread: u8,
    func: u16,
    value: u64,
    pieces: &[Bytes],
) -> Result<bool, AllocError>
    ensures { IfOk result (IsRepeat (past marks.now) thread func value pieces.now) }
{
    let last = last_return(alloc, marks, thread, func)?;
    Ok(same_return(&last, value, pieces))
}
