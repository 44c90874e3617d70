// What waits for the ends of functions.

ghost use Rattle.std.specs.Prelude.{◌≡◌, ◌+◌, ◌<◌, ◌≤◌, [], ◌∷◌, length, IfOk, IfSome, IfNone};
ghost use Rattle.marks.specs.declared.side.Side.TheVariants.{Replay, System};
ghost use Rattle.c_machine_stack.specs.Stacks.{held, room_of};
ghost use Rattle.c_machine.specs.Moves.{one as one_of, waits_on};

use c_code::{Side, Waiting};
use c_machine_stack::Stack;
use std::alloc::{AllocError, Global};

/// What waits, the innermost on top, and how many activations of each side are among it.
#[derive(Drop)]
pub(crate) struct Waits {
    pub(crate) all: Stack<Waiting>,
    replay: usize,
    system: usize,
    ghost replay_count: { replay ≡ waits_on Replay (held all) },
    ghost system_count: { system ≡ waits_on System (held all) },
}

impl Waits {
    /// Nothing, with room for so many. It takes all the memory that it ever needs.
    pub(crate) fn new(alloc: Global, room: usize) -> Result<Waits, AllocError>
        ensures empty { IfOk result (λ waits. held waits.all ≡ []) }
        ensures room { IfOk result (λ waits. room_of waits.all ≡ room) }
    {
        Ok(Waits {
            all: Stack::new(alloc, room)?,
            replay: 0,
            system: 0,
        })
    }

    /// How many activations of the side wait.
    pub(crate) fn count(&self, side: Side) -> usize
        ensures { result ≡ waits_on side (held self.now.all) }
    {
        match side {
            Side::Replay => self.replay,
            Side::System => self.system,
        }
    }

    /// Puts what waits next on top.
    pub(crate) fn push(&mut self, waiting: Waiting)
        requires { length (held self.old.all) < room_of self.old.all }
        ensures pushed { held self.new.all ≡ waiting ∷ held self.old.all }
        ensures room { room_of self.new.all ≡ room_of self.old.all }
    {
        self.all.push(waiting);
        let _few = self.all.len();
        self.replay += caller(Side::Replay, waiting);
        self.system += caller(Side::System, waiting);
    }

    /// Takes what waits on top; `None` where nothing waits.
    pub(crate) fn pop(&mut self) -> Option<Waiting>
        ensures some { IfSome result (λ waiting. held self.old.all ≡ waiting ∷ held self.new.all) }
        ensures none { IfNone result ((held self.old.all ≡ []) × (held self.new.all ≡ [])) }
        ensures room { room_of self.new.all ≡ room_of self.old.all }
    {
        let waiting = self.all.pop()?;
        self.replay -= caller(Side::Replay, waiting);
        self.system -= caller(Side::System, waiting);
        Some(waiting)
    }

    /// Takes all away.
    pub(crate) fn clear(&mut self)
        ensures cleared { held self.new.all ≡ [] }
        ensures room { room_of self.new.all ≡ room_of self.old.all }
    {
        self.all.clear();
        self.replay = 0;
        self.system = 0;
    }
}

// The activation that waits, where there is one on the side.
pub(crate) fn caller(side: Side, waiting: Waiting) -> usize
    ensures count { result ≡ waits_on side (waiting ∷ []) }
    ensures few { result ≤ 1 }
{
    match waiting {
        Waiting::ForValue(a) => one(side, a.side),
        Waiting::ForRet(call) => one(side, call.then.side),
        Waiting::ForUpRet(a, _) => one(side, a.side),
        Waiting::ForBelow(call, _) => one(side, call.then.side),
        Waiting::ForOutside(_) => 0,
    }
}

pub(crate) fn one(side: Side, other: Side) -> usize
    ensures count { result ≡ one_of side other }
    ensures few { result ≤ 1 }
{
    match (side, other) {
        (Side::Replay, Side::Replay) => 1,
        (Side::System, Side::System) => 1,
        (Side::Replay, Side::System) => 0,
        (Side::System, Side::Replay) => 0,
    }
}
