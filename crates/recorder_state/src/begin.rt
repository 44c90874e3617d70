//! The state before a run.

ghost use Rattle.std.specs.Prelude.{◌≡◌, ◌+◌, ◌≤◌, [], IfOk, length, ltb};
ghost use Rattle.marks.specs.Places.{builtin_count};
ghost use Rattle.marks.specs.Wants.{same_numbers};
ghost use Rattle.c_code.specs.Machine.{func_of};
ghost use Rattle.whole_runs.specs.World.{interface as interface_in, is_main as is_main_named, main_of as main_at};
ghost use Rattle.whole_runs.specs.Fits.{IsFit};
ghost use Rattle.recorder_state.specs.Inputs.{world_of};
ghost use Rattle.recorder_memory.specs.Stands.{placed};
ghost use Rattle.recorder_threads.specs.Threads.{AreThreadsOf};
ghost use Rattle.recorder_system.specs.Stands.{IsSystemOf};
ghost use Rattle.steps_above_stamps.specs.Stamps.{AreStampsOf};
ghost use Rattle.steps_above_interface.specs.Stands as functions;
ghost use Rattle.recorder_state.specs.Stands.{IsReached};
ghost use Rattle.recorder_state.specs.Inputs.{is_main_in};

use crate::inputs::Inputs;
use crate::prepared::PreparedBelow;
use crate::state::RunState;
use c_code::FuncInfo;
use c_code_fused::FusedCode;
use recorder_book::Book;
use recorder_memory::Memory;
use recorder_system::RunSystem;
use recorder_threads::Threads;
use std::alloc::{AllocError, Global};
use steps_above_interface::InterfaceState;
use steps_above_stamps::Stamps;

// Functions with numbers below it are builtins.
const FIRST_SOURCE: u16 = 16;
// As many as there are numbers from that on.
const MOST_SOURCES: u32 = 65_520;

impl RunState {
    /// Before the first mark of the run.
    pub fn new(alloc: Global, inputs: Inputs<'_>) -> Result<RunState, AllocError>
        requires { IsFit (world_of inputs) }
        ensures { IfOk result (IsReached (world_of inputs.entry)) }
    {
        let stamps = Stamps::new(alloc)?;
        let interface = InterfaceState::new(alloc, u32::from(FIRST_SOURCE) + sources(inputs.code))?;
        with(alloc, inputs, stamps, interface)
    }
}

// The state with these numbers of events and this of functions, before the first mark of the run.
fn with(
    alloc: Global,
    inputs: Inputs<'_>,
    stamps: Stamps,
    interface: InterfaceState,
) -> Result<RunState, AllocError>
    requires fit { IsFit (world_of inputs) }
    requires stamps { AreStampsOf (placed (world_of inputs)) [] stamps }
    requires interface { functions.IsStateOf (interface_in (world_of inputs)) (placed (world_of inputs)) []
        interface }
    requires functions { length interface.registered ≡ builtin_count + length inputs.code.now.sources }
    ensures { IfOk result (IsReached (world_of inputs.entry)) }
{
    let threads = Threads::new(alloc, inputs.code, main_of(inputs.code))?;
    let system = RunSystem::new(alloc, inputs.file)?;
    complete(alloc, inputs, stamps, interface, threads, system)
}

// The same with these threads and this system.
fn complete(
    alloc: Global,
    inputs: Inputs<'_>,
    stamps: Stamps,
    interface: InterfaceState,
    threads: Threads,
    system: RunSystem,
) -> Result<RunState, AllocError>
    requires fit { IsFit (world_of inputs) }
    requires stamps { AreStampsOf (placed (world_of inputs)) [] stamps }
    requires interface { functions.IsStateOf (interface_in (world_of inputs)) (placed (world_of inputs)) []
        interface }
    requires functions { length interface.registered ≡ builtin_count + length inputs.code.now.sources }
    requires threads { AreThreadsOf (world_of inputs) [] threads }
    requires system { IsSystemOf (world_of inputs) [] system }
    ensures { IfOk result (IsReached (world_of inputs.entry)) }
{
    let book = Book::new(alloc, inputs.file.chunk)?;
    let memory = Memory::new(alloc, inputs.placed)?;
    Ok(RunState {
        threads,
        system,
        memory,
        prepared: PreparedBelow::new(alloc),
        stamps,
        interface,
        book,
        output: Vec::new(alloc),
        system_output: Vec::new(alloc),
        steps: 0,
        known: None,
    })
}

/// The number of `main`; of the first function of the source, where there is none.
pub fn main_of(code: &FusedCode) -> u16
    ensures { result ≡ main_at code.now }
{
    for place in 0..sources(code) {
        let number = FIRST_SOURCE + place as u16;
        if is_main(code, number) {
            return number;
        }
    }
    FIRST_SOURCE
}

// Whether a function has the number and is `main`.
fn is_main(code: &FusedCode, number: u16) -> bool
    ensures { result ≡ is_main_in (func_of code.now number) }
{
    match code.func(number) {
        Some(info) => is_named_main(info),
        None => false,
    }
}

// Whether the function is `main`.
fn is_named_main(info: &FuncInfo) -> bool
    ensures { result ≡ is_main_named info.now }
{
    same_bytes(info.name.as_slice(), b"main".as_slice())
}

fn same_bytes(a: &[u8], b: &[u8]) -> bool
    ensures { result ≡ same_numbers a.now b.now }
{
    a == b
}

// How many functions the source has.
fn sources(code: &FusedCode) -> u32
    ensures count { result ≡ length code.now.sources }
    ensures few { result ≤ 65520 }
{
    let mut count = 0;
    while has_source(code, count) {
        count += 1;
    }
    count
}

// Whether the source has more functions than so many.
fn has_source(code: &FusedCode, place: u32) -> bool
    ensures there { result ≡ ltb place (length code.now.sources) }
    ensures few { length code.now.sources ≤ 65520 }
{
    check(code);
    if place >= MOST_SOURCES {
        return false;
    }
    code.func(FIRST_SOURCE + place as u16).is_some()
}

// What is known of all code.
fn check(code: &FusedCode)
    ensures { length code.now.sources ≤ 65520 }
{
    let _instrs = code.instrs();
}
