//! Loops of arithmetic and accesses to memory, under one thread of flat code.

ghost use Rattle.std.specs.Prelude.{◌<◌, ◌≤◌, IfOk, IfSome, IsTrue, length};
ghost use Rattle.source_limits.specs.Limits.{most_bytes};
ghost use Rattle.marks.specs.declared.side.Side.TheVariants.{Replay, System};
ghost use Rattle.c_machine.specs.Answers.{IsNeeded};
ghost use Rattle.c_machine.specs.Moves.{IsInside, open_on};
ghost use Rattle.c_machine.specs.Positions.{laid};

use anyhow::{Context, bail};
use c_builtins::FIRST_SOURCE_FUNCTION;
use c_code::{Placed, Side};
use c_code_fused::FusedCode;
use c_machine::{Answer, Thread, Want, is_call_of};
use front_end::check_source;
use memory_map::{Bytes8, Flags, Place, Places};
use std::alloc::{AllocError, Global};

/// The loop: in each round a Turn, seven loads and three stores, all of 8 bytes.
const LOOP: &str = "
    [cut(bench)] void never(void);
    unsigned long cells[1024];
    int main(void) {
        unsigned long sum = 0;
        for (unsigned long i = 0; i < 2000000; i++) {
            sum = sum * 31 + cells[i % 1024] + 1;
            cells[i % 1024] = sum;
        }
        return sum % 1000003;
    }
";

/// The same with a call in each round: an Enter, a Leave and two loads more.
const CALLS: &str = "
    [cut(bench)] void never(void);
    unsigned long cells[1024];
    unsigned long mixed(unsigned long sum, unsigned long value) { return sum * 31 + value + 1; }
    int main(void) {
        unsigned long sum = 0;
        for (unsigned long i = 0; i < 2000000; i++) {
            sum = mixed(sum, cells[i % 1024]);
            cells[i % 1024] = sum;
        }
        return sum % 1000003;
    }
";

/// Where the global lies.
const GLOBAL: u64 = 0x1000_0000;

/// Where frames lie, and how many bytes lie between two of them.
const FRAMES: u64 = 0x2000_0000;

const FRAME_SIZE: u64 = 64;

/// How many functions may be open.
const DEPTH: u16 = 2;

/// How many cells of 8 bytes the global and each frame have.
const CELLS: u64 = 1024;

const FRAME_CELLS: u64 = FRAME_SIZE / 8;

/// So many marks are made at most.
const MOST: u64 = 1_000_000_000;

/// The memory of the thread: cells of 8 bytes, those of the global and then those of frames.
#[derive(Drop)]
struct Memory {
    cells: Vec<u64>,
}

/// The cell of an address in the global or a frame.
fn cell(addr: u64) -> usize {
    let place = if addr < FRAMES {
        addr.saturating_sub(GLOBAL) / 8
    } else {
        CELLS + (addr - FRAMES) / 8
    };
    place as usize
}

impl Memory {
    fn new(alloc: Global) -> Result<Memory, AllocError> {
        Ok(Memory {
            cells: vec![in alloc; 0; (CELLS + (u64::from(DEPTH) + 1) * FRAME_CELLS) as usize]?,
        })
    }

    fn load(&self, addr: u64) -> u64 {
        self.cells.get(cell(addr)).copied().unwrap_or(0)
    }

    fn store(&mut self, addr: u64, value: u64) {
        if let Some(cell) = self.cells.get_mut(cell(addr)) {
            *cell = value;
        }
    }

    /// A new frame at the address: parameters of 8 bytes, and zeros.
    fn enter(&mut self, addr: u64, args: &[u64]) {
        for place in 0..FRAME_CELLS {
            let value = args.get(place as usize).copied().unwrap_or(0);
            self.store(addr.wrapping_add(8 * place), value);
        }
    }
}

/// Where the global lies; no function is in the interface.
fn placed(alloc: Global) -> Result<Placed, AllocError> {
    Ok(Placed {
        globals: Places::from(vec![in alloc;
            Place {
                addr: GLOBAL,
                init: Bytes8::new(alloc),
            },
        ]?),
        strings: Places::new(alloc),
        replay: Flags::new(alloc),
        system: Flags::new(alloc),
        faces: Flags::new(alloc),
    })
}

/// A thread in which the function has begun above the cut.
fn begun(
    alloc: Global,
    code: &FusedCode,
    placed: &Placed,
    func: u16,
    args: &[u64],
) -> anyhow::Result<Thread>
    ensures { IfOk result (λ thread. IsInside (laid code.now placed.now) thread.config) }
{
    let mut thread = Thread::new(alloc, 0, DEPTH)?;
    if is_call_of(code, func, args) {
        thread.begin(code, placed, func, args, Side::Replay, false);
        return Ok(thread);
    }
    bail!("there is no such function")
}

/// Whether one more function may begin, on either side.
fn has_room(thread: &Thread) -> bool
    ensures { IsTrue result → (open_on Replay thread.now.config < thread.now.depth) ×
        (open_on System thread.now.config < thread.now.depth) }
{
    let depth = thread.depth() as usize;
    thread.open(Side::Replay) < depth && thread.open(Side::System) < depth
}

/// The function of the call that is next begins; whether it may.
fn call(thread: &mut Thread, code: &FusedCode, placed: &Placed) -> bool
    requires { IsInside (laid code.now placed.now) thread.old.config }
    ensures { IsInside (laid code.now placed.now) thread.new.config }
{
    let Want::Call { func } = thread.next(code, placed) else {
        return false;
    };
    if is_call_of(code, func, thread.args()) && has_room(thread) {
        thread.run(code, placed);
        return true;
    }
    false
}

/// What the memory answers to what the thread wants; `None` for a call, a fault and an end.
#[inline(always)]
fn answer_to(want: Want, thread: &Thread, memory: &mut Memory) -> Option<Answer>
    ensures { IfSome result (λ answer. IsNeeded want answer) }
{
    match want {
        Want::Turn => Some(Answer::Go),
        Want::Load { addr, width: 8 } => Some(Answer::Value(memory.load(addr))),
        Want::Store { addr, value, .. } => {
            memory.store(addr, value);
            Some(Answer::Go)
        }
        Want::Enter { .. } => Some(Answer::Frame(frame(thread, memory))),
        Want::Leave => Some(Answer::Go),
        _ => None,
    }
}

/// The frame of the function that is to be entered, after those of the functions that are open.
fn frame(thread: &Thread, memory: &mut Memory) -> u64 {
    let open = thread.open(Side::Replay).min(usize::from(DEPTH));
    let addr = FRAMES + FRAME_SIZE * open as u64;
    memory.enter(addr, thread.args());
    addr
}

/// How many marks the thread makes to its end, and its result; `None` where it doesn't come there.
fn made(
    thread: &mut Thread,
    code: &FusedCode,
    placed: &Placed,
    memory: &mut Memory,
) -> Option<(u64, u64)>
    requires { IsInside (laid code.now placed.now) thread.old.config }
{
    let mut calls = 0;
    let mut want = thread.next(code, placed);
    for step in 0..MOST {
        if let Want::Ended { result } = want {
            return Some((step - calls, result));
        }
        if let Want::Call { .. } = want {
            if !call(thread, code, placed) {
                return None;
            }
            calls += 1;
            want = thread.next(code, placed);
            continue;
        }
        let answer = answer_to(want, thread, memory)?;
        want = thread.feed_next(code, placed, answer);
    }
    None
}

/// The code of the source.
fn fused(alloc: Global, source: &[u8]) -> anyhow::Result<FusedCode>
    requires { length source.now ≤ most_bytes }
{
    let source = check_source(alloc, source, b"bench")?;
    Ok(FusedCode::new(alloc, source.code)?)
}

/// How many marks a loop makes whose `main` has the number, and what it gives.
fn over_source(alloc: Global, source: &[u8], main: u16) -> anyhow::Result<(u64, u64)>
    requires { length source.now ≤ most_bytes }
{
    let code = fused(alloc, source)?;
    let placed = placed(alloc)?;
    let mut thread = begun(alloc, &code, &placed, main, &[])?;
    let mut memory = Memory::new(alloc)?;
    made(&mut thread, &code, &placed, &mut memory).context("the thread doesn't end")
}

/// How many marks the loop without calls makes, and what its `main`, its second function, gives.
pub fn over_thread(alloc: Global) -> anyhow::Result<(u64, u64)> {
    over_source(alloc, LOOP.as_bytes(), FIRST_SOURCE_FUNCTION + 1)
}

/// The same of the loop with calls, whose `main` is its third function.
pub fn over_calls(alloc: Global) -> anyhow::Result<(u64, u64)> {
    over_source(alloc, CALLS.as_bytes(), FIRST_SOURCE_FUNCTION + 2)
}
