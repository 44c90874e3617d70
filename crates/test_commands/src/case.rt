//! A case: its files, its runs, and what they should leave.

use crate::difference::{Wanted, compare_run, compare_texts};
use crate::fault::Fault;
use crate::line::{Call, Line};
use crate::text::{cut, put, put_hex, put_line, put_times, set, words_of};
use std::alloc::Global;
use std::mem;
use test_runs::{Faults, Left, Named, run_words};

/// What the text in hand is.
#[derive(Clone, Copy)]
enum Hand<'a> {
    Nothing,
    /// What this file holds before the next run.
    File(&'a str),
    /// What this file should hold.
    Holds(&'a str),
}

/// A case so far.
#[derive(Drop)]
pub struct Case<'a> {
    alloc: Global,
    files: Named,
    hand: Hand<'a>,
    text: Vec<u8>,
    faults: Faults,
    has_run: bool,
    /// What the last run left, until it is compared.
    left: Option<Left>,
    wanted: Wanted,
}

impl<'a> Case<'a> {
    /// A case without files.
    pub fn new(alloc: Global) -> Self {
        Case {
            alloc,
            files: Named::new(alloc),
            hand: Hand::Nothing,
            text: Vec::new(alloc),
            faults: Faults::none(alloc),
            has_run: false,
            left: None,
            wanted: Wanted::nothing(alloc),
        }
    }

    /// Whether it has a run.
    pub fn has_run(&self) -> bool {
        self.has_run
    }

    /// Does what a line says that isn't about the data.
    pub fn does(&mut self, line: Line<'a>) -> Result<(), Fault> {
        match line {
            Line::Change(name) => self.change(name),
            Line::Holds(name) => self.hold(name),
            Line::Same(first, second) => self.compare_files(first, second),
            Line::Run(words) => self.run(words),
            Line::Reads(most) => self.set_reads(most),
            Line::Fail(call, number) => self.fail(call, number),
            Line::Status(_) | Line::Out(_) | Line::OutPiece(_) => self.want(line),
            Line::Err(_) | Line::ErrPiece(_) => self.want(line),
            _ => self.write(line),
        }
    }

    // ---- the text in hand

    /// Takes a file in hand that holds these bytes.
    pub fn take(&mut self, name: &'a str, bytes: Vec<u8>) {
        self.hand = Hand::File(name);
        self.text = bytes;
    }

    fn change(&mut self, name: &'a str) -> Result<(), Fault> {
        let Some(bytes) = self.files.get(name) else {
            return Err(Fault::NoFile);
        };
        let bytes = Vec::from_slice(self.alloc, bytes)?;
        self.take(name, bytes);
        Ok(())
    }

    fn hold(&mut self, name: &'a str) -> Result<(), Fault> {
        self.hand = Hand::Holds(name);
        Ok(())
    }

    fn write(&mut self, line: Line<'a>) -> Result<(), Fault> {
        if matches!(self.hand, Hand::Nothing) {
            return Err(Fault::NoFile);
        }
        match line {
            Line::Text(text) => put_line(&mut self.text, text),
            Line::Piece(text) => put(&mut self.text, text),
            Line::Times(count, text) => put_times(self.alloc, &mut self.text, count, text),
            Line::Hex(digits) => put_hex(self.alloc, &mut self.text, digits),
            Line::Set(place, digits) => set(self.alloc, &mut self.text, place, digits),
            Line::Cut(length) => cut(&mut self.text, length),
            _ => Err(Fault::NoForm),
        }
    }

    /// Puts down the text in hand: as a file, or to be compared with one.
    fn put_down(&mut self) -> Result<(), Fault> {
        let text = mem::replace(&mut self.text, Vec::new(self.alloc));
        match mem::replace(&mut self.hand, Hand::Nothing) {
            Hand::Nothing => Ok(()),
            Hand::File(name) => self.keep(name, text),
            Hand::Holds(name) => self.compare(name, &text),
        }
    }

    fn keep(&mut self, name: &str, bytes: Vec<u8>) -> Result<(), Fault> {
        let name = String::from_str(self.alloc, name)?;
        self.files.insert(name, bytes)?;
        Ok(())
    }

    fn compare(&self, name: &str, wanted: &[u8]) -> Result<(), Fault> {
        match self.files.get(name) {
            Some(bytes) => compare_texts(self.alloc, "the file", wanted, bytes),
            None => Err(Fault::NoFile),
        }
    }

    fn compare_files(&self, first: &str, second: &str) -> Result<(), Fault> {
        let (Some(one), Some(other)) = (self.files.get(first), self.files.get(second)) else {
            return Err(Fault::NoFile);
        };
        if one.as_slice() == other.as_slice() {
            return Ok(());
        }
        Err(Fault::NotSame)
    }

    // ---- runs

    fn set_reads(&mut self, most: u64) -> Result<(), Fault> {
        self.faults.at_once = most;
        Ok(())
    }

    fn fail(&mut self, call: Call, number: u64) -> Result<(), Fault> {
        match call {
            Call::Read => self.faults.reads.push(number)?,
            Call::Write => self.faults.writes.push(number)?,
            Call::Out => self.faults.out.push(number)?,
            Call::Err => self.faults.err.push(number)?,
        }
        Ok(())
    }

    fn run(&mut self, words: &str) -> Result<(), Fault> {
        self.has_run = true;
        let words = words_of(self.alloc, words)?;
        let faults = mem::replace(&mut self.faults, Faults::none(self.alloc));
        let left = run_words(self.alloc, &words, &mut self.files, &faults)?;
        self.left = Some(left);
        Ok(())
    }

    /// Adds to what the last run should leave.
    fn want(&mut self, line: Line<'a>) -> Result<(), Fault> {
        if self.left.is_none() {
            return Err(Fault::NoRun);
        }
        match line {
            Line::Status(status) => self.want_status(status),
            Line::Out(text) => put_line(&mut self.wanted.out, text),
            Line::OutPiece(text) => put(&mut self.wanted.out, text),
            Line::Err(text) => put_line(&mut self.wanted.err, text),
            Line::ErrPiece(text) => put(&mut self.wanted.err, text),
            _ => Err(Fault::NoForm),
        }
    }

    fn want_status(&mut self, status: u8) -> Result<(), Fault> {
        self.wanted.status = status;
        Ok(())
    }

    /// Compares what the last run left, or what a file holds, with what is wanted, unless that is done.
    pub fn settle(&mut self) -> Result<(), Fault> {
        self.put_down()?;
        let wanted = mem::replace(&mut self.wanted, Wanted::nothing(self.alloc));
        match self.left.take() {
            Some(left) => compare_run(self.alloc, &wanted, &left),
            None => Ok(()),
        }
    }
}
