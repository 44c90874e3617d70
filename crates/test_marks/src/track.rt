// What a thread did so far, as words.

use crate::image::{Area, Image};
use crate::memory::Memory;
use crate::run::Below;
use c_machine::{Thread, Want};
use std::alloc::{AllocError, Global};
use test_cases::Output;

/// The memory of a run, the words for its marks, joined by blanks, and what is still to become of calls.
///
/// A place is a global's name, `string0` and so on for strings, or `pool`, with `+` and an offset where it is
/// not 0; a place in the innermost frame is `@` and its offset, and one in a frame further out has a further
/// `@` for each. Numbers in memory are written without a sign, arguments and results with one; a number that
/// is a place is written as `&` and the place.
#[derive(Drop)]
pub struct Track<'a> {
    alloc: Global,
    memory: Memory,
    words: Output,
    below: &'a [Below<'a>],
    /// How many of them have come to pass.
    passed: usize,
    /// The last mark was the end of a function that was called back.
    came_back: bool,
    /// Something couldn't be kept.
    is_full: bool,
}

/// Where an address lies, and how far from the beginning.
#[derive(Clone, Copy)]
enum Spot<'a> {
    Area(&'a Area, u64),
    /// The frame so many further out than the innermost one.
    Frame(usize, u64),
}

fn put_spot(spot: Spot<'_>, out: &mut Output) {
    match spot {
        Spot::Area(area, offset) => {
            out.put(area.name.as_str());
            if offset != 0 {
                out.put("+");
                out.put_number(offset);
            }
        }
        Spot::Frame(outer, offset) => {
            out.put("@");
            out.put_times(outer, "@");
            out.put_number(offset);
        }
    }
}

impl<'a> Track<'a> {
    /// Nothing was done yet: memory holds the strings.
    pub fn new(alloc: Global, image: &Image, below: &'a [Below<'a>]) -> Track<'a> {
        let mut memory = Memory::new(alloc);
        for place in image.placed.strings.as_slice() {
            memory.lay(place.addr, place.init.as_slice());
        }
        Track {
            alloc,
            memory,
            words: Output::new(alloc),
            below,
            passed: 0,
            came_back: false,
            is_full: false,
        }
    }

    /// The words, where memory sufficed.
    pub fn finish(self) -> Result<String, AllocError> {
        let Track {
            alloc: _,
            memory,
            words,
            below: _,
            passed: _,
            came_back: _,
            is_full,
        } = self;
        if is_full || memory.is_full() {
            return Err(AllocError);
        }
        words.finish()
    }

    /// What its memory is from.
    pub fn alloc(&self) -> Global {
        self.alloc
    }

    /// Something couldn't be kept: nothing more is done.
    pub fn stop(&mut self) -> bool {
        self.is_full = true;
        false
    }

    /// What becomes of the next call.
    pub fn next_below(&mut self) -> Option<Below<'a>> {
        let next = self.below.get(self.passed).copied();
        self.passed = self.passed.saturating_add(1);
        next
    }

    /// Whether the next call by system code through an address calls its function back.
    pub fn goes_up(&mut self) -> bool {
        let up = matches!(self.below.get(self.passed), Some(Below::GoesUp));
        if up {
            self.passed = self.passed.saturating_add(1);
        }
        up
    }

    /// Adds a word, or the beginning of one.
    pub fn word(&mut self, word: &str) {
        self.words.put_after(" ", word);
    }

    /// Where the address lies.
    fn spot<'b>(&self, image: &'b Image, addr: u64) -> Option<Spot<'b>> {
        if let Some(area) = image.area_at(addr) {
            return Some(Spot::Area(area, addr.wrapping_sub(area.addr)));
        }
        let mut outer: usize = 0;
        for frame in self.memory.frames().iter().rev() {
            if addr >= frame.addr && addr - frame.addr < frame.size {
                return Some(Spot::Frame(outer, addr - frame.addr));
            }
            outer = outer.saturating_add(1);
        }
        None
    }

    fn put_place(&mut self, image: &Image, addr: u64) {
        match self.spot(image, addr) {
            Some(spot) => put_spot(spot, &mut self.words),
            None => self.words.put_number(addr),
        }
    }

    /// A number as it lies in memory.
    fn put_stored(&mut self, image: &Image, number: u64) {
        if self.spot(image, number).is_some() {
            self.words.put("&");
        }
        self.put_place(image, number);
    }

    /// A number as an argument or a result.
    fn put_value(&mut self, image: &Image, number: u64) {
        match self.spot(image, number) {
            Some(spot) => {
                self.words.put("&");
                put_spot(spot, &mut self.words);
            }
            None => self.words.put_signed(number.cast_signed()),
        }
    }

    /// A function with its arguments, after the kind of what is done with it.
    fn with_args(&mut self, image: &Image, kind: &str, func: u16, args: &[u64]) {
        self.word(kind);
        image.put_name(func, &mut self.words);
        self.words.put("(");
        let mut between = "";
        for arg in args {
            self.words.put(between);
            self.put_value(image, *arg);
            between = ",";
        }
        self.words.put(")");
    }

    /// A result, after what has it.
    fn with_result(&mut self, image: &Image, value: u64) {
        self.words.put("=");
        self.put_value(image, value);
    }

    /// Adds that a call crosses the cut, but not again where code below it has called a function back.
    pub fn call(&mut self, image: &Image, func: u16, args: &[u64]) {
        if self.came_back {
            self.came_back = false;
            return;
        }
        self.with_args(image, "call.", func, args);
    }

    /// Adds that a function is called back.
    pub fn up(&mut self, image: &Image, func: u16, args: &[u64]) {
        self.with_args(image, "up.", func, args);
    }

    /// Adds that a builtin or an external is one step of system code.
    pub fn one_step(&mut self, image: &Image, func: u16, args: &[u64], value: u64) {
        self.with_args(image, "step.", func, args);
        self.with_result(image, value);
    }

    /// Adds that a call that crossed the cut returns.
    pub fn ret(&mut self, image: &Image, func: u16, value: u64) {
        self.word("ret.");
        image.put_name(func, &mut self.words);
        self.with_result(image, value);
    }

    /// A place and the number in it, after the kind of what is done with it.
    fn access(&mut self, image: &Image, kind: &str, addr: u64, width: u8, number: u64) {
        self.word(kind);
        self.put_place(image, addr);
        self.words.put(".");
        self.words.put_number(u64::from(width));
        self.words.put("=");
        self.put_stored(image, number);
    }

    fn load(&mut self, image: &Image, addr: u64, width: u8) -> u64 {
        let number = self.memory.load(addr, width);
        self.access(image, "load.", addr, width, number);
        number
    }

    fn store(&mut self, image: &Image, addr: u64, width: u8, number: u64) {
        self.memory.store(addr, u64::from(width), number);
        self.access(image, "store.", addr, width, number);
    }

    /// The word comes first: the arguments are written as the caller sees them.
    fn enter(&mut self, image: &Image, thread: &Thread, func: u16, size: u64) -> u64 {
        self.with_args(image, "enter.", func, thread.args());
        let frame = self.memory.enter(thread.side(), size);
        if let Some(info) = image.code.func(func) {
            self.memory
                .set_args(frame, info.params.as_slice(), thread.args());
        }
        frame
    }

    fn leave(&mut self) {
        self.memory.leave();
        self.word("leave");
    }

    fn block(&mut self, image: &Image, size: u64) -> u64 {
        let block = self.memory.block(size);
        self.word("alloc.");
        self.words.put_number(size);
        self.with_result(image, block);
        block
    }

    /// A word and a result.
    fn result(&mut self, image: &Image, word: &str, value: u64) {
        self.word(word);
        self.with_result(image, value);
    }

    /// A word that ends in a place.
    fn free(&mut self, image: &Image, addr: u64) {
        self.word("free.");
        self.put_place(image, addr);
    }

    fn fault(&mut self, kind: u8) {
        self.word("fault.");
        self.words.put_number(u64::from(kind));
    }

    /// Makes what the thread wants, if it is no call, and adds the word for it. The value or address that the
    /// thread is to be told, 0 where it needs none.
    pub fn make(&mut self, image: &Image, thread: &Thread, want: Want) -> u64 {
        self.came_back = matches!(want, Want::UpRet { result: _ });
        match want {
            Want::Load { addr, width } => return self.load(image, addr, width),
            Want::Enter { func, size } => return self.enter(image, thread, func, size),
            Want::Alloc { size } => return self.block(image, size),
            Want::Turn => self.word("turn"),
            Want::Store { addr, width, value } => self.store(image, addr, width, value),
            Want::Leave => self.leave(),
            Want::Ret { func, result } => self.ret(image, func, result),
            Want::Free { addr } => self.free(image, addr),
            Want::Call { func: _ } => {}
            Want::UpRet { result } => self.result(image, "upret", result),
            Want::Fault(kind) => self.fault(kind),
            Want::Ended { result } => self.result(image, "ends", result),
        }
        0
    }
}
