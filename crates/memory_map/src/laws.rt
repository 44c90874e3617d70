//! That the numbers of this crate are those in which contracts speak of runs.

ghost use Rattle.std.specs.Prelude.{◌≡◌, ◌+◌};
ghost use Rattle.memory_map.specs.declared.areas.TheConstants.{CONSTANTS, FRAMES, POOL_SIZE, REPLAY_GLOBALS, REPLAY_MEMORY, REPLAY_POOL, REPLAY_STACKS, STACK_SIZE, SYSTEM_GLOBALS, SYSTEM_MEMORY, SYSTEM_POOL, SYSTEM_STACKS, THREADS};
ghost use Rattle.marks.specs.Places.{constants, frame_count, pool_size, replay_end, replay_globals, replay_pool, replay_stacks, stack_size, system_end, system_globals, system_pool, system_stacks, thread_count};

/// A law: the areas and their bounds are those in which contracts speak of runs.
pub fn areas_are_those_of_runs()
    ensures threads { THREADS ≡ thread_count }
    ensures frames { FRAMES ≡ frame_count }
    ensures stack_size { STACK_SIZE ≡ stack_size }
    ensures pool_size { POOL_SIZE ≡ pool_size }
    ensures constants_from { CONSTANTS.addr ≡ constants }
    ensures constants_to { CONSTANTS.addr + CONSTANTS.len ≡ replay_globals }
    ensures replay_from { REPLAY_MEMORY.addr ≡ replay_globals }
    ensures replay_to { REPLAY_MEMORY.addr + REPLAY_MEMORY.len ≡ replay_end }
    ensures system_from { SYSTEM_MEMORY.addr ≡ system_globals }
    ensures system_to { SYSTEM_MEMORY.addr + SYSTEM_MEMORY.len ≡ system_end }
    ensures replay_globals { REPLAY_GLOBALS ≡ replay_globals }
    ensures replay_stacks { REPLAY_STACKS ≡ replay_stacks }
    ensures replay_pool { REPLAY_POOL ≡ replay_pool }
    ensures system_globals { SYSTEM_GLOBALS ≡ system_globals }
    ensures system_stacks { SYSTEM_STACKS ≡ system_stacks }
    ensures system_pool { SYSTEM_POOL ≡ system_pool }
{}
