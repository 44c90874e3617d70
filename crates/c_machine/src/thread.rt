//! A thread.

use crate::position::Position;
use std::marker::Model;

/// One simulated thread of flat code. It makes one mark after another: `next` says which, and `feed` what came of it; where
/// it comes to a call, or is in no function, `begin`, `run` and `go_up` let a function begin, and `cross` says that the event of the
/// call was made. All calls of one thread are given the same code and places.
#[derive(Drop)]
pub struct Thread {
    pub(crate) number: u8,
    pub(crate) depth: u16,
    pub(crate) position: Position,
}

impl Model for Thread {
    ghost use Rattle.c_machine.specs.Positions.{config, made_of};
    ghost use Rattle.c_machine.specs.Rooms.{HasRoom};
    ghost use Rattle.c_machine.specs.Moves.{ThreadState};

    ghost Value = { ThreadState };

    ghost view = { λ t. record {
      number = t.number;
      depth = t.depth;
      made = made_of t.position.state;
      config = config t.position;
    } };

    ghost invariant = { λ t. HasRoom t.depth t.position };
}
