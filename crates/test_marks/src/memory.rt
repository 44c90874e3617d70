// Memory as a thread writes it.

use c_code::{Shape, Side};
use memory_map::{REPLAY_POOL, REPLAY_STACKS, SYSTEM_STACKS};
use std::alloc::Global;

/// A byte that was written.
#[derive(Clone, Copy)]
struct Written {
    addr: u64,
    byte: u8,
}

/// The frame of a function that is open.
#[derive(Clone, Copy)]
pub struct Frame {
    pub side: Side,
    pub addr: u64,
    pub size: u64,
}

/// All memory of a run. A byte is zero until it is written.
#[derive(Drop)]
pub struct Memory {
    /// In the order in which they were written.
    written: Vec<Written>,
    /// The innermost one last.
    frames: Vec<Frame>,
    next_block: u64,
    /// Something couldn't be kept.
    is_full: bool,
}

/// The bytes of a parameter.
fn width_of(shape: Shape) -> u64 {
    match shape {
        Shape::Void => 1,
        Shape::Int(kind) => u64::from(kind.width() / 8),
        Shape::Pointer => 8,
    }
}

impl Memory {
    /// Memory in which no function is open.
    pub fn new(alloc: Global) -> Memory {
        Memory {
            written: Vec::new(alloc),
            frames: Vec::new(alloc),
            next_block: REPLAY_POOL,
            is_full: false,
        }
    }

    /// Whether something couldn't be kept.
    pub fn is_full(&self) -> bool {
        self.is_full
    }

    fn byte(&self, addr: u64) -> u8 {
        for written in self.written.iter().rev() {
            if written.addr == addr {
                return written.byte;
            }
        }
        0
    }

    /// The number that lies there, with the low byte first.
    pub fn load(&self, addr: u64, width: u8) -> u64 {
        let mut number: u64 = 0;
        for place in (0..u64::from(width)).rev() {
            let byte = self.byte(addr.wrapping_add(place));
            number = number.wrapping_mul(0x100) | u64::from(byte);
        }
        number
    }

    fn write(&mut self, addr: u64, byte: u8) {
        if self.written.push(Written { addr, byte }).is_err() {
            self.is_full = true;
        }
    }

    /// Writes the number there, with the low byte first.
    pub fn store(&mut self, addr: u64, width: u64, number: u64) {
        let mut rest = number;
        for place in 0..width {
            self.write(addr.wrapping_add(place), (rest % 0x100) as u8);
            rest /= 0x100;
        }
    }

    /// Writes the bytes there, one after another.
    pub fn lay(&mut self, addr: u64, bytes: &[u8]) {
        let mut next = addr;
        for byte in bytes {
            self.write(next, *byte);
            next = next.wrapping_add(1);
        }
    }

    /// Where the next frame of the side begins.
    fn top(&self, side: Side) -> u64 {
        for frame in self.frames.iter().rev() {
            if frame.side == side {
                return frame.addr.wrapping_add(frame.size);
            }
        }
        match side {
            Side::Replay => REPLAY_STACKS,
            Side::System => SYSTEM_STACKS,
        }
    }

    /// Takes a frame of zeros after those of the side, and tells where.
    pub fn enter(&mut self, side: Side, size: u64) -> u64 {
        let addr = self.top(side);
        if self.frames.push(Frame { side, addr, size }).is_err() {
            self.is_full = true;
        }
        for place in 0..size {
            self.write(addr.wrapping_add(place), 0);
        }
        addr
    }

    /// Lays the arguments of parameters of these types, each at the next multiple of its width.
    pub fn set_args(&mut self, frame: u64, shapes: &[Shape], args: &[u64]) {
        let mut next = frame;
        for (shape, arg) in shapes.iter().zip(args) {
            let width = width_of(*shape);
            let addr = next.checked_next_multiple_of(width).unwrap_or(next);
            self.store(addr, width, *arg);
            next = addr.wrapping_add(width);
        }
    }

    /// Gives the innermost frame back.
    pub fn leave(&mut self) {
        let _ = self.frames.pop();
    }

    /// The open frames, the innermost one last.
    pub fn frames(&self) -> &[Frame] {
        self.frames.as_slice()
    }

    /// Takes a block after all others from the pool, and tells where; 0 where it has no bytes.
    pub fn block(&mut self, size: u64) -> u64 {
        if size == 0 {
            return 0;
        }
        let addr = self.next_block;
        let end = addr.wrapping_add(size);
        self.next_block = end.checked_next_multiple_of(16).unwrap_or(end);
        addr
    }
}
