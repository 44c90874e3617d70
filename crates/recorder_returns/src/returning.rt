//! What is said of the Ret of a call, before it is made.

ghost use Rattle.std.specs.Prelude.{◌≡◌, ◌<◌, length, OnOk};
ghost use Rattle.marks.specs.Places.{thread_count};
ghost use Rattle.whole_runs.specs.Fits.{IsFit};
ghost use Rattle.recorder_state.specs.Inputs.{world_of};
ghost use Rattle.stub_meaning.specs.Meaning.{first_of};
ghost use Rattle.recorder_returns.specs.Bringing.{committing_of};
ghost use Rattle.recorder_returns.specs.Saying.{IsSaid, RepeatsLast};

use marks::Range;
use recorder_state::{Inputs, RunState};
use run_events::{Bytes, Key};
use std::alloc::{AllocError, Global};
use stub_calls::Done;

/// What the stubs say of the Ret of a call. It keeps its memory from call to call.
#[derive(Drop)]
pub struct Returning {
    /// What is done in the call, once its result is known.
    pub done: Done,
    /// The regions that the call holds to be written.
    pub ranges: Vec<Range>,
    /// The keys of the Ret.
    pub keys: Vec<Key>,
}

impl Returning {
    /// Of no call yet.
    pub fn new(alloc: Global) -> Returning {
        Returning {
            done: Done::new(alloc),
            ranges: Vec::new(alloc),
            keys: Vec::new(alloc),
        }
    }

    /// Reads what is said of the Ret of a call of the function with these arguments, which comes to this value.
    pub fn read(
        &mut self,
        inputs: Inputs<'_>,
        func: u16,
        args: &[u64],
        value: u64,
    ) -> Result<(), AllocError>
        requires { IsFit (world_of inputs) }
        ensures { OnOk result (IsSaid (world_of inputs.entry) func args.now value self.new) }
    {
        let code = inputs.code.code();
        let ops = inputs.stubs.ops(func);
        self.done
            .fill_at_return(code, ops, func, args, value, &mut self.ranges)?;
        self.done.return_keys(&mut self.keys)
    }

    /// The key that is committed, with the used size; `None` where none is, or that size is negative.
    pub fn commit(&self) -> Option<(u64, u64)>
        ensures { result ≡ committing_of (first_of self.now.done.commits) }
    {
        let commit = self.done.commit()?;
        let used = commit.used?;
        Some((commit.key, used))
    }
}

/// Whether the thread's Ret of the function, with this value and these pieces, has the form `same`: its function has `cache`, and gave
/// the same at the thread's last return from it.
pub fn repeats(
    state: &RunState,
    cached: bool,
    thread: u8,
    func: u16,
    value: u64,
    pieces: &[Bytes],
) -> bool
    requires thread { thread < thread_count }
    requires func { func < length state.now.interface.registered }
    ensures { RepeatsLast state.now cached thread func value pieces.now result }
{
    if !cached {
        return false;
    }
    let records = state.book.records(thread);
    state
        .interface
        .repeats(records, thread, func, value, pieces)
}
