//! Laws of memory above the cut and its watch, as contracts of functions that do nothing.

ghost use Rattle.std.specs.Prelude.{◌<◌, ℕ, List, length};
ghost use Rattle.marks.specs.Places.{thread_count};
ghost use Rattle.marks.specs.Marks.{Mark, Turn};
ghost use Rattle.marks.specs.Bytes.{Byte};
ghost use Rattle.marks.specs.Wants.{Turns};
ghost use Rattle.replay_runs.specs.Interface.{Program};
ghost use Rattle.steps_above_memory.specs.declared.above.MemoryAbove.{MemoryAbove};
ghost use Rattle.steps_above_memory.specs.Above.{StandsForAbove};
ghost use Rattle.steps_above_memory.specs.Steps.{Makes};

/// A Turn touches nothing, so memory and watch stand for the run with it as they are.
pub fn turns_are_made()
    ensures { (above : MemoryAbove) (t : ℕ) → t < thread_count → Makes above t Turns Turn above }
{}

/// Memory that stands for a run has a stack for each thread.
pub fn threads_have_stacks()
    ensures { (program : Program) (memory : ℕ → Byte) (past : List Mark) (above : MemoryAbove) (t : ℕ) →
        StandsForAbove program memory past above → t < thread_count →
        t < length above.spaces.sides.replay.stacks }
{}

/// It knows how many calls each thread has open.
pub fn threads_have_calls()
    ensures { (program : Program) (memory : ℕ → Byte) (past : List Mark) (above : MemoryAbove) (t : ℕ) →
        StandsForAbove program memory past above → t < thread_count → t < length above.spaces.held.depths }
{}
