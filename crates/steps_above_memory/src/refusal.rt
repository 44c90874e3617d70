//! Why a step isn't made.

ghost use Rattle.std.specs.Prelude.{◌≡◌};
ghost use Rattle.steps_above_memory.specs.Refusals.{refusal_of, refusal_by};

use marks::{BreachKind, FaultKind};
use race_watch::WatchError;
use space_memory_access::Refusal;
use std::fmt;
use thiserror::Error;

/// Why a step above the cut isn't made. What its tests find is a cause: a fault, or a breach. Want of memory is none.
#[derive(Clone, Copy, Error)]
pub enum StepRefusal {
    /// The thread's code can't go on.
    #[error("fault {}", .0.word())]
    Fault(FaultKind),
    /// The step would break the discipline of a run: at the least byte that is to blame, or for the key; a race with the
    /// thread `other`.
    #[error("breach {} at {addr}", .kind.word())]
    Breach {
        kind: BreachKind,
        addr: u64,
        other: Option<u8>,
    },
    /// There is no memory for what the watch has to keep.
    #[error("no memory")]
    Memory,
}

impl fmt::Debug for StepRefusal {
    fn fmt<W: fmt::Write>(&self, f: &mut fmt::Formatter<W>) -> fmt::Result {
        write!(f, "{self}")
    }
}

impl StepRefusal {
    /// What a refusal of memory is to the step.
    pub fn of(refusal: Refusal) -> StepRefusal
        ensures { result ≡ refusal_of refusal }
    {
        let (kind, addr) = match refusal {
            Refusal::NotLive { .. } => return StepRefusal::Fault(FaultKind::NotLive),
            Refusal::ReadOnly { .. } => return StepRefusal::Fault(FaultKind::ReadOnly),
            Refusal::StackFull { .. } => return StepRefusal::Fault(FaultKind::StackFull),
            Refusal::Pending { addr } => (BreachKind::Pending, addr),
            Refusal::OtherSpace { addr } => (BreachKind::OtherSpace, addr),
            Refusal::KeyInUse { addr } => (BreachKind::KeyInUse, addr),
            Refusal::NoKey { addr } => (BreachKind::NoKey, addr),
            Refusal::Size { addr } => (BreachKind::Size, addr),
        };
        StepRefusal::Breach {
            kind,
            addr,
            other: None,
        }
    }

    /// What a refusal by the watch is to the step.
    pub(crate) fn by(error: WatchError) -> StepRefusal
        ensures { result ≡ refusal_by error }
    {
        match error {
            WatchError::Race { other, addr } => StepRefusal::Breach {
                kind: BreachKind::Race,
                addr,
                other: Some(other),
            },
            WatchError::Memory => StepRefusal::Memory,
        }
    }
}
