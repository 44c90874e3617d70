//! What several lines say together.

ghost use Rattle.std.specs.Prelude.{◌≡◌, ◌∷◌, ◌++◌, [], IfOk, IfSome, codes};
ghost use Rattle.std.specs.Option.{option_and_then};
ghost use Rattle.sys_script_lines.specs.Externals.{named_in};
ghost use Rattle.sys_script_lines.specs.Lines.{answer_line, budget_line, chunk_line, said_by, schedule_line};
ghost use Rattle.sys_script_lines.specs.Says.{Says};
ghost use Rattle.sys_script_lines.specs.Scripts.{after_line, file_of, heard, nothing, once};

use crate::answer::AnswersRead;
use crate::cut::cut;
use crate::error::Wrong;
use crate::finder::Finder;
use crate::number::number;
use crate::turns::turns;
use std::alloc::{AllocError, Global};
use std::marker::Model;
use system_side::{Schedule, SysFile};

/// The most steps of a budget.
const MOST_BUDGET: u64 = 100_000_000;

/// How many steps a run may make where no line says it.
const BUDGET: u64 = 1_000_000;

/// How many records a chunk has where no line says it.
const CHUNK: u16 = 64;

/// What the lines so far say.
#[derive(Drop)]
pub(crate) struct Said<'a> {
    budget: Option<u64>,
    chunk: Option<u16>,
    schedule: Option<Schedule>,
    answers: AnswersRead<'a>,
}

impl<'a> Model for Said<'a> {
    ghost use Rattle.sys_script_lines.specs.Scripts.{SaidSoFar};

    ghost Value = { SaidSoFar };

    ghost view = { λ s. record {
      budget = s.budget;
      chunk = s.chunk;
      schedule = s.schedule;
      answers = s.answers;
    } };
}

impl<'a> Said<'a> {
    /// Nothing. The lines to come are of this text.
    pub(crate) fn new(alloc: Global, text: &'a [u8]) -> Said<'a>
        ensures { result ≡ nothing }
    {
        Said {
            budget: None,
            chunk: None,
            schedule: None,
            answers: AnswersRead::new(alloc, text),
        }
    }

    // Takes a line that says a number of steps.
    fn hear_budget(&mut self, text: &[u8]) -> Result<(), Wrong>
        ensures { Says (λ _. self.new) result (option_and_then (heard self.old) (budget_line text.now)) }
    {
        let Some(steps) = number(text, 0, MOST_BUDGET) else {
            return Err(Wrong::Text);
        };
        set(&mut self.budget, steps)
    }

    // Takes a line that says a number of records.
    fn hear_chunk(&mut self, text: &[u8]) -> Result<(), Wrong>
        ensures { Says (λ _. self.new) result (option_and_then (heard self.old) (chunk_line text.now)) }
    {
        let Some(records) = number(text, 1, u64::from(u16::MAX)) else {
            return Err(Wrong::Text);
        };
        set(&mut self.chunk, records as u16)
    }

    // Takes a line that says turns.
    fn hear_schedule(&mut self, alloc: Global, text: &[u8]) -> Result<(), Wrong>
        ensures { Says (λ _. self.new) result (option_and_then (heard self.old) (schedule_line text.now)) }
    {
        let turns = turns(alloc, text)?;
        set(&mut self.schedule, turns)
    }

    // Takes a line that says what a function answers.
    #[inline(always)]
    fn hear_answer(
        &mut self,
        alloc: Global,
        finder: &mut Finder<'a>,
        text: &'a [u8],
    ) -> Result<(), Wrong>
        ensures heard { Says (λ _. self.new) result
            (option_and_then (heard self.old) (answer_line (named_in finder.old.externals.now) text.now)) }
        ensures same { finder.new.externals.now ≡ finder.old.externals.now }
    {
        self.answers.add(alloc, finder, text)
    }

    // Takes a line that begins with this word, where this follows after a blank.
    #[inline(never)]
    fn hear_by(
        &mut self,
        alloc: Global,
        finder: &mut Finder<'a>,
        word: &[u8],
        rest: &'a [u8],
    ) -> Result<(), Wrong>
        ensures heard { Says (λ _. self.new) result
            (option_and_then (heard self.old)
            (said_by (named_in finder.old.externals.now) word.now rest.now)) }
        ensures same { finder.new.externals.now ≡ finder.old.externals.now }
    {
        if word == b"budget".as_slice() {
            self.hear_budget(rest)
        } else if word == b"chunk".as_slice() {
            self.hear_chunk(rest)
        } else if word == b"schedule".as_slice() {
            self.hear_schedule(alloc, rest)
        } else if word == b"answer".as_slice() {
            self.hear_answer(alloc, finder, rest)
        } else {
            Err(Wrong::Text)
        }
    }

    /// Takes what one more line says, without the byte that ends it. What stands once at most is wrong where it stands again.
    pub(crate) fn hear(
        &mut self,
        alloc: Global,
        finder: &mut Finder<'a>,
        line: &'a [u8],
    ) -> Result<(), Wrong>
        ensures heard { Says (λ _. self.new) result
            (after_line (named_in finder.old.externals.now) self.old line.now) }
        ensures same { finder.new.externals.now ≡ finder.old.externals.now }
    {
        if let Some(words) = answer_words(line) {
            return self.hear_answer(alloc, finder, words);
        }
        match line {
            [] | [b'#', ..] => Ok(()),
            _ => match cut(line, b' ') {
                Some((word, rest)) => self.hear_by(alloc, finder, word, rest),
                None => Err(Wrong::Text),
            },
        }
    }

    /// The file in which all lines are read.
    pub(crate) fn finish(self, alloc: Global) -> Result<SysFile, AllocError>
        ensures { IfOk result (λ file. file ≡ file_of self.entry) }
    {
        let Said {
            budget,
            chunk,
            schedule,
            answers,
        } = self;
        let schedule = match schedule {
            Some(schedule) => schedule,
            None => first_thread(alloc)?,
        };
        Ok(SysFile {
            budget: budget.unwrap_or(BUDGET),
            chunk: chunk.unwrap_or(CHUNK),
            schedule,
            answers: answers.finish(),
        })
    }
}

// The words after `answer `, with which most lines begin.
fn answer_words(line: &[u8]) -> Option<&[u8]>
    ensures { IfSome result (λ words. line.now ≡ codes "answer " ++ words.now) }
{
    match line {
        [b'a', b'n', b's', b'w', b'e', b'r', b' ', words @ ..] => Some(words),
        _ => None,
    }
}

// Keeps what is said once.
fn set<T: Drop>(place: &mut Option<T>, value: T) -> Result<(), Wrong>
    ensures { Says (λ _. place.new) result (once place.old value) }
{
    if place.is_some() {
        return Err(Wrong::Text);
    }
    *place = Some(value);
    Ok(())
}

// The schedule where no line says it: each step is thread 0's.
fn first_thread(alloc: Global) -> Result<Schedule, AllocError>
    ensures { IfOk result (λ schedule. schedule ≡ (0, 1) ∷ []) }
{
    let mut schedule = Schedule::with_capacity(alloc, 1)?;
    schedule.push(0, 1)?;
    Ok(schedule)
}
