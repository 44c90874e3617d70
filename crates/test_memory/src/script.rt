// A script: cases of calls, each with its answer.

use crate::answer::Answer;
use crate::calls::make;
use crate::error::LineError;
use crate::memory::Memory;
use crate::words::{number, number_at, words_at};
use std::alloc::{AllocError, Global};

/// A script as far as it was read.
#[derive(Drop)]
pub struct Script {
    memory: Memory,
    name: String,
    is_wrong: bool,
    cases: u64,
    wrong: u64,
}

impl Script {
    /// A script of which nothing was read.
    pub fn new(alloc: Global) -> Result<Script, AllocError> {
        Ok(Script {
            memory: Memory::new(alloc)?,
            name: String::new(alloc),
            is_wrong: false,
            cases: 0,
            wrong: 0,
        })
    }

    /// How many cases were read.
    pub fn cases(&self) -> u64 {
        self.cases
    }

    /// How many of them have only calls with the right answer.
    pub fn passed(&self) -> u64 {
        self.cases.saturating_sub(self.wrong)
    }

    /// Takes a line: the name of a case, which begins with a memory without objects, a call with its answer, or a note. Answers what is
    /// wrong with the line, and in which case.
    pub fn take(&mut self, alloc: Global, line: &str) -> Result<Option<String>, AllocError> {
        if line.is_empty() || line.starts_with('#') {
            return Ok(None);
        }
        if let Some(name) = line.strip_prefix("== ") {
            self.memory = Memory::new(alloc)?;
            self.name = String::from_str(alloc, name)?;
            self.is_wrong = false;
            self.cases = self.cases.saturating_add(1);
            return Ok(None);
        }
        let Some(found) = self.difference(alloc, line)? else {
            return Ok(None);
        };
        if !self.is_wrong {
            self.is_wrong = true;
            self.wrong = self.wrong.saturating_add(1);
        }
        let name = self.name.as_str();
        Ok(Some(format!(in alloc; "{name}: {found}")?))
    }

    // What is wrong with a line that is neither a note nor a name: an answer, or its form.
    fn difference(&mut self, alloc: Global, line: &str) -> Result<Option<String>, AllocError> {
        match self.make_all(alloc, line) {
            Ok(found) => Ok(found),
            Err(LineError::NoForm) => {
                Ok(Some(String::from_str(alloc, "no call with its answer")?))
            }
            Err(LineError::Memory) => Err(AllocError),
        }
    }

    // Makes the calls of a line: one, or as many as stand before the word `times`.
    fn make_all(&mut self, alloc: Global, line: &str) -> Result<Option<String>, LineError> {
        let (count, line) = line.split_once(" times ").unwrap_or(("1", line));
        let (Some(count @ 1..), Some((call, wanted))) = (number(count), line.split_once(" = "))
        else {
            return Err(LineError::NoForm);
        };
        let mut found = None;
        for turn in 0..count {
            if found.is_none() {
                found = self.make(alloc, call, wanted, turn)?;
            }
        }
        Ok(found)
    }

    // Makes a call, and compares its answer.
    fn make(
        &mut self,
        alloc: Global,
        call: &str,
        wanted: &str,
        turn: u64,
    ) -> Result<Option<String>, LineError> {
        let (name, rest) = call.split_once(' ').unwrap_or((call, ""));
        let words = words_at(alloc, rest, turn)?;
        let answer = make(alloc, &mut self.memory, name, words.as_slice())?;
        let wanted = wanted_at(alloc, wanted, turn)?;
        let got = format!(in alloc; "{answer}")?;
        if got.as_str() == wanted.as_str() {
            return Ok(None);
        }
        Ok(Some(format!(in alloc; "wanted {wanted}, got {got}")?))
    }
}

// The wanted answer at a turn.
fn wanted_at(alloc: Global, wanted: &str, turn: u64) -> Result<String, AllocError> {
    match number_at(wanted, turn) {
        Some(number) => format!(in alloc; "{}", Answer::Number(number)),
        None => String::from_str(alloc, wanted),
    }
}
