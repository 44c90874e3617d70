//! Modes of functions.

ghost use Rattle.std.specs.Prelude.{◌≡◌, ◌+◌, ◌<◌, ◌≤◌, ◌^◌, ◌↔◌, ℕ, true, length, IfOk};
ghost use Rattle.marks.specs.declared.side.Side.{Side};
ghost use Rattle.marks.specs.declared.side.Side.TheVariants.{Replay, System};
ghost use Rattle.c_builtins.specs.Table.{first_source_function};
ghost use Rattle.cut_graph_rules.specs.Sources.{mentioned};
ghost use Rattle.cut_graph_rules.specs.MayRun.{MayRun};
ghost use Rattle.cut_graph_paths.specs.Graphs.{flag};
ghost use Rattle.cut_graph_modes.specs.Runs.{IsPart, may};

use crate::flags::is_flagged;
use crate::graph::whole_graph;
use c_builtins::FIRST_SOURCE_FUNCTION;
use c_syntax::Seq;
use cut_graph_paths::reached;
use cut_graph_rules::Mention;
use std::alloc::{AllocError, Global};
use std::marker::Model;

/// Which functions may run above the cut, in replay mode, and which below it, in system mode.
#[derive(Drop)]
pub struct Modes {
    above: Vec<bool>,
    below: Vec<bool>,
}

impl Model for Modes {
    ghost use Rattle.cut_graph_modes.specs.Runs.{Runs};

    ghost Value = { Runs };

    ghost view = { λ m. record { above = m.above.items; below = m.below.items } };
}

impl Modes {
    /// Whether the function may run in replay mode; of a number that no function has, false.
    pub fn replay(&self, func: u16) -> bool
        ensures { result ≡ may self.now Replay func }
    {
        is_flagged(&self.above, usize::from(func))
    }

    /// Whether the function may run in system mode; of a number that no function has, false.
    pub fn system(&self, func: u16) -> bool
        ensures { result ≡ may self.now System func }
    {
        is_flagged(&self.below, usize::from(func))
    }
}

// The flags of the first functions from a vertex on.
fn flags_from(
    alloc: Global,
    flags: &[bool],
    first: usize,
    functions: usize,
) -> Result<Vec<bool>, AllocError>
    requires { first + functions ≤ length flags.now }
    ensures { IfOk result (λ v. IsPart v.items flags.now first functions) }
{
    Vec::from_slice(alloc, &flags[first..first + functions])
}

/// In which modes functions may run, in time linear in what is mentioned: `functions` mention these by number less 16, and
/// values of `globals` by place; `faces` says by number which functions are in the interface; `main` has this number.
///
/// `AllocError` where there is no memory for it.
pub fn modes_of(
    alloc: Global,
    functions: &[Seq<Mention>],
    globals: &[Seq<Mention>],
    faces: &[bool],
    main: u16,
) -> Result<Modes, AllocError>
    requires functions { first_source_function + length functions.now ≤ 2 ^ 16 }
    requires globals { length globals.now ≤ 2 ^ 30 }
    requires main { main < first_source_function + length functions.now }
    ensures { IfOk result (λ m. (side : Side) (f : ℕ) → (may m side f ≡ true) ↔
        MayRun (mentioned functions.now globals.now) (flag faces.now) main side f) }
{
    let graph = whole_graph(alloc, faces, functions, globals)?;
    let flags = reached(alloc, &graph, &[u32::from(main)])?;
    let count = usize::from(FIRST_SOURCE_FUNCTION) + functions.len();
    let above = flags_from(alloc, &flags, 0, count)?;
    let below = flags_from(alloc, &flags, count + globals.len(), count)?;
    Ok(Modes { above, below })
}
