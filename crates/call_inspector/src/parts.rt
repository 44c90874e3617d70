//! The report of a run, part by part.

ghost use Rattle.std.specs.Prelude.{◌≡◌, ◌<◌, ◌++◌, [], true, false, IfOk, OnOk, codes, decimal};
ghost use Rattle.call_inspector.specs.declared.parts.Position.TheVariants as places;
ghost use Rattle.call_inspector.specs.Parts.{IsNext};
ghost use Rattle.call_inspector.specs.ReportText.{report_text};

use crate::crossings::Crossings;
use crate::ends::{RunEnd, Shown, ThreadEnd, put_ending};
use crate::lines::{Passed, put_lines};
use crate::memory::put_row_from;
use c_code::Code;
use call_inspector_run::{Records, Run};
use r2_base::put_dec;
use run_events::Record;
use std::alloc::{AllocError, Global};
use std::marker::Model;

/// How many lines of events a part has at most.
const LINES: usize = 64;

/// What comes next.
#[derive(Clone, Copy)]
enum Position<'a> {
    /// The next thread, or the memory where there is none.
    Thread,
    /// The events of this thread from `index` on.
    Events {
        thread: usize,
        records: &'a [Record],
        index: usize,
    },
    /// The rows of memory from this one on, and the ending.
    Rows {
        row: u32,
        shown: Shown,
    },
    /// Nothing.
    Nothing,
}

#[derive(Drop)]
struct State<'a> {
    run: &'a Run,
    code: &'a Code,
    // The number of the next thread.
    next: usize,
    // What the threads before this one say.
    end: RunEnd,
    // What the events of this thread say so far.
    passed: Passed,
    place: Position<'a>,
}

/// Adds the line of a thread.
fn put_heading(text: &mut Vec<u8>, thread: usize) -> Result<(), AllocError>
    ensures { OnOk result (text.new.items ≡ text.old.items ++
        (codes "thread " ++ decimal thread ++ codes "\n")) }
{
    text.extend_from_slice(b"thread ")?;
    put_dec(text, thread as i128)?;
    text.push(b'\n')?;
    Ok(())
}

/// The text of a report that is still to come. It is made part by part: some lines of a thread, a row of memory, the ending.
#[derive(Drop)]
pub struct ReportParts<'a> {
    state: State<'a>,
}

impl<'a> Model for ReportParts<'a> {
    ghost use Rattle.call_inspector.specs.Parts.{Left, left};

    ghost Value = { Left };

    ghost view = { λ p. left p.state };
}

impl<'a> ReportParts<'a> {
    /// All of the report of a run of the code.
    pub fn new(alloc: Global, run: &'a Run, code: &'a Code) -> ReportParts<'a>
        ensures { result.text ≡ report_text run.now code.now }
    {
        let passed = Passed {
            active: Crossings::new(alloc),
            end: ThreadEnd::new(),
        };
        ReportParts {
            state: State {
                run,
                code,
                next: 0,
                end: RunEnd::new(),
                passed,
                place: Position::Thread,
            },
        }
    }

    /// Adds the next part to the text, if there is one, and answers whether more may come. After `AllocError` the parts are of no use.
    pub fn put_next(&mut self, text: &mut Vec<u8>) -> Result<bool, AllocError>
        ensures text { OnOk result (text.new.items ++ self.new.text ≡ text.old.items ++ self.old.text) }
        ensures fewer { IfOk result (λ more. more ≡ true → self.new.most < self.old.most) }
        ensures end { IfOk result (λ more. more ≡ false → self.new.text ≡ []) }
    {
        let state = &mut self.state;
        match state.place {
            Position::Thread => state.begin(text)?,
            Position::Events {
                thread,
                records,
                index,
            } => state.put_events(text, thread, records, index)?,
            Position::Rows { row, shown } => state.put_row(text, row, shown)?,
            Position::Nothing => return Ok(false),
        }
        Ok(true)
    }
}

impl<'a> State<'a> {
    /// Goes to the next thread, and adds its number where it has an event; or to the memory.
    fn begin(&mut self, text: &mut Vec<u8>) -> Result<(), AllocError>
        requires { self.old.place ≡ places.Thread }
        ensures { OnOk result (IsNext text.old.items self.old text.new.items self.new) }
    {
        let threads = self.run.threads.as_slice();
        let thread = self.next;
        if thread >= threads.len() {
            text.extend_from_slice(b"memory\n")?;
            let shown = self.end.shown(threads);
            self.place = Position::Rows { row: 0, shown };
            return Ok(());
        }
        self.next = thread + 1;
        let records = threads[thread].as_slice();
        if records.is_empty() {
            return Ok(());
        }
        put_heading(text, thread)?;
        self.passed.active.clear();
        self.passed.end = ThreadEnd::new();
        self.place = Position::Events {
            thread,
            records,
            index: 0,
        };
        Ok(())
    }

    /// Adds the lines of a few events of the thread, or ends it.
    fn put_events(
        &mut self,
        text: &mut Vec<u8>,
        thread: usize,
        records: &'a [Record],
        index: usize,
    ) -> Result<(), AllocError>
        requires { self.old.place ≡ places.Events thread records index }
        ensures { OnOk result (IsNext text.old.items self.old text.new.items self.new) }
    {
        if index >= records.len() {
            let Passed { active, end } = &self.passed;
            self.end
                .pass(thread, end.fault, end.begun && active.is_empty());
            self.place = Position::Thread;
            return Ok(());
        }
        let to = index + LINES.min(records.len() - index);
        let threads = self.run.threads.as_slice();
        let next = put_lines(
            text,
            self.code,
            &mut self.passed,
            threads,
            records,
            index,
            to,
        )?;
        self.place = Position::Events {
            thread,
            records,
            index: next,
        };
        Ok(())
    }

    /// Adds the next row of memory, or the ending.
    fn put_row(&mut self, text: &mut Vec<u8>, row: u32, shown: Shown) -> Result<(), AllocError>
        requires { self.old.place ≡ places.Rows row shown }
        ensures { OnOk result (IsNext text.old.items self.old text.new.items self.new) }
    {
        match put_row_from(text, &self.run.memory, row)? {
            Some(row) => self.place = Position::Rows { row, shown },
            None => {
                text.extend_from_slice(b"end ")?;
                put_ending(text, shown)?;
                text.push(b'\n')?;
                self.place = Position::Nothing;
            }
        }
        Ok(())
    }
}
