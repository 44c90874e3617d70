//! Why a recording makes no more steps.

ghost use Rattle.std.specs.Prelude.{◌≡◌, ℕ, IfErr, OnOk};
ghost use Rattle.marks.specs.declared.side.Side.{Side as SideOf};
ghost use Rattle.whole_runs.specs.World.{World};
ghost use Rattle.whole_runs.specs.Ends.{fault_end as end_of_fault};
ghost use Rattle.recorder_book.specs.declared.room.Room.TheVariants.{Free};
ghost use Rattle.recorder_state.specs.declared.state.RunState.{RunState};
ghost use Rattle.recorder_state.specs.Ends.{HasRoom, IsRefused, IsStopped, LacksAnswer};

use marks::{FaultKind, Side};
use recorder_book::Room;
use std::alloc::AllocError;
use steps_above_memory::StepRefusal;
use whole_runs::{Ending, Halt};

/// Why a recording makes no more steps.
#[derive(Clone, Copy)]
pub enum Stop {
    /// The run ends so.
    Ended(Ending),
    /// Out of memory.
    Memory,
}

impl From<AllocError> for Stop {
    ghost use Rattle.recorder_state.specs.declared.stop.Stop.TheVariants.{Memory};

    ghost from_gives = { λ _ e. e ≡ Memory };

    fn from(_error: AllocError) -> Stop {
        Stop::Memory
    }
}

impl Stop {
    /// What the tests of the thread's step on this side found: code below the cut that meets a fault halts the run.
    pub fn of(thread: u8, side: Side, refusal: StepRefusal) -> Stop
        ensures { (w : World) (s : RunState) → IsRefused w s thread side refusal → IsStopped w s result }
    {
        match refusal {
            StepRefusal::Fault(kind) => Stop::Ended(fault_end(kind, thread, side)),
            StepRefusal::Breach { kind, addr, other } => Stop::Ended(Ending::Breach {
                kind: kind.number(),
                thread,
                addr,
                other,
            }),
            StepRefusal::Memory => Stop::Memory,
        }
    }

    /// The step needs an answer of the function, and the file has no more.
    pub fn for_lack(func: u16) -> Stop
        ensures { (w : World) (s : RunState) (t : ℕ) (side : SideOf) → LacksAnswer w s t side func →
            IsStopped w s result }
    {
        Stop::Ended(Ending::Halted(Halt::Script(func)))
    }

    /// Why an event isn't made for which this is the room, if it isn't.
    pub fn for_room(room: Room) -> Result<(), Stop>
        ensures free { OnOk result (room ≡ Free) }
        ensures stops { IfErr result (λ stop. (w : World) (s : RunState) (t : ℕ) (side : SideOf) →
            HasRoom w s t side room → IsStopped w s stop) }
    {
        match room {
            Room::Free => Ok(()),
            Room::Events => Err(Stop::Ended(Ending::Halted(Halt::Events))),
            Room::Full => Err(Stop::Ended(Ending::Halted(Halt::Full))),
        }
    }
}

// How a fault of the thread's code on this side ends the run.
fn fault_end(kind: FaultKind, thread: u8, side: Side) -> Ending
    ensures { result ≡ end_of_fault side kind thread }
{
    match side {
        Side::Replay => Ending::Fault {
            kind: kind.number(),
            thread,
        },
        Side::System => Ending::Halted(Halt::System {
            kind: kind.number(),
            thread,
        }),
    }
}
