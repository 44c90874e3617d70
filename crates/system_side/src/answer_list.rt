//! What functions answer, in the order of the file. All pieces of all answers lie in one vector, so that an answer takes no
//! memory of its own, and an answer that repeats the pieces of the one before shares its group of them.

ghost use Rattle.std.specs.Prelude.{◌≡◌, ◌<◌, ◌++◌, [], ◌∷◌, length, Some, OnOk, OnErr};
ghost use Rattle.std.specs.List.{slice_get};
ghost use Rattle.system_side.specs.AnswerLists.{IsWithin, as_scripted, last_pieces, pieces_in};

use crate::file::Scripted;
use run_events::Bytes;
use std::alloc::{AllocError, Global};
use std::marker::Model;

/// How many pieces all answers have at most, and how many groups of them.
const MOST: usize = 0xffff_ffff;

/// One answer: its result, a 64-bit two's complement pattern, the place of the group of its pieces, and the number of its
/// function.
#[derive(Clone, Copy)]
pub struct Entry {
    result: u64,
    group: u32,
    func: u16,
}

/// Pieces that lie together: the place of the first among those of all answers, and how many they are.
#[derive(Clone, Copy)]
pub struct Group {
    first: u32,
    count: u32,
}

/// One answer of a list, as `Scripted`, whose pieces stay where they are.
#[derive(Clone, Copy)]
pub struct Answer<'a> {
    pub func: u16,
    pub result: u64,
    pub pieces: &'a [Bytes],
}

/// What functions answer, in the order of the file.
#[derive(Drop)]
pub struct Answers {
    entries: Vec<Entry>,
    groups: Vec<Group>,
    pieces: Vec<Bytes>,
}

impl Model for Answers {
    ghost use Rattle.std.specs.Prelude.{List};
    ghost use Rattle.system_side.specs.declared.file.Scripted.{Scripted};
    ghost use Rattle.std.specs.Prelude.{length};
    ghost use Rattle.system_side.specs.AnswerLists.{AreThere, answers_in};

    ghost Value = { List Scripted };

    ghost view = { λ l. answers_in l.groups.items l.pieces.items l.entries.items };

    ghost invariant = { λ l. AreThere (length l.pieces.items) l.groups.items l.entries.items };
}

impl Answers {
    /// How many answers there are.
    pub fn len(&self) -> usize
        ensures { result ≡ length self.now }
    {
        self.entries.len()
    }

    /// The answer at a place, counted from 0.
    pub fn get(&self, place: usize) -> Answer<'_>
        requires { place < length self.now }
        ensures { slice_get self.now place ≡ Some (as_scripted result) }
    {
        let entry = self.entries[place];
        let group = self.groups[entry.group as usize];
        Answer {
            func: entry.func,
            result: entry.result,
            pieces: pieces_of(&self.pieces, group),
        }
    }
}

// The pieces of a group, among those of all.
fn pieces_of(pieces: &[Bytes], group: Group) -> &[Bytes]
    requires { IsWithin (length pieces.now) group }
    ensures { result.now ≡ pieces_in pieces.now group }
{
    let first = group.first as usize;
    &pieces[first..first + group.count as usize]
}

/// A list of answers that is being made: the answers that are ended, and the pieces of one more.
#[derive(Drop)]
pub struct AnswersSoFar {
    entries: Vec<Entry>,
    groups: Vec<Group>,
    pieces: Vec<Bytes>,
    first: usize,
}

impl Model for AnswersSoFar {
    ghost use Rattle.std.specs.Prelude.{drop};
    ghost use Rattle.system_side.specs.AnswerLists.{AreBegun, SoFar, answers_in};

    ghost Value = { SoFar };

    ghost view = { λ l. record {
      ended = answers_in l.groups.items l.pieces.items l.entries.items;
      begun = drop l.first l.pieces.items;
    } };

    ghost invariant = { λ l. AreBegun l.first l.groups.items l.pieces.items l.entries.items };
}

impl AnswersSoFar {
    /// No answers.
    pub fn new(alloc: Global) -> AnswersSoFar
        ensures ended { result.ended ≡ [] }
        ensures begun { result.begun ≡ [] }
    {
        AnswersSoFar {
            entries: Vec::new(alloc),
            groups: Vec::new(alloc),
            pieces: Vec::new(alloc),
            first: 0,
        }
    }

    /// Begins an answer. The pieces of one that wasn't ended are of none.
    pub fn begin(&mut self)
        ensures { self.new ≡ record self.old { begun = [] } }
    {
        self.pieces.truncate(self.first);
    }

    /// Adds a piece to the answer.
    pub fn add(&mut self, piece: Bytes) -> Result<(), AllocError>
        ensures added { OnOk result (self.new ≡ record self.old { begun = self.old.begun ++ piece ∷ [] }) }
        ensures unchanged { OnErr result (self.new ≡ self.old) }
    {
        self.pieces.push(piece)?;
        Ok(())
    }

    /// How many pieces the answer has.
    pub fn count(&self) -> usize
        ensures { result ≡ length self.now.begun }
    {
        self.pieces.len() - self.first
    }

    /// Ends the answer, which is one of the function with this number, with this result.
    ///
    /// `AllocError` also where all answers have 2^32 pieces, which take 96 GiB, or as many groups, which take 32.
    pub fn end(&mut self, func: u16, value: u64) -> Result<(), AllocError>
        ensures ended { OnOk result (self.new.ended ≡ self.old.ended ++
            record { func = func; result = value; pieces = self.old.begun } ∷ []) }
        ensures unchanged { OnErr result (self.new ≡ self.old) }
    {
        let end = self.pieces.len();
        let group = self.groups.len();
        if end > MOST || group > MOST {
            return Err(AllocError);
        }
        self.groups.reserve(1)?;
        self.entries.push(Entry {
            result: value,
            group: group as u32,
            func,
        })?;
        self.groups.push_reserved(Group {
            first: self.first as u32,
            count: (end - self.first) as u32,
        });
        self.first = end;
        Ok(())
    }

    /// One more answer, of the function with this number, with this result and the pieces of the answer that was ended last. What
    /// was begun stays so.
    pub fn repeat(&mut self, func: u16, value: u64) -> Result<(), AllocError>
        requires some { 0 < length self.old.ended }
        ensures ended { OnOk result (self.new ≡ record self.old {
          ended = self.old.ended ++
              record { func = func; result = value; pieces = last_pieces self.old.ended } ∷ [];
        }) }
        ensures unchanged { OnErr result (self.new ≡ self.old) }
    {
        let last = self.entries[self.entries.len() - 1];
        self.entries.push(Entry {
            result: value,
            group: last.group,
            func,
        })?;
        Ok(())
    }

    /// The answers that are ended.
    pub fn finish(self) -> Answers
        ensures { result ≡ self.ended }
    {
        let AnswersSoFar {
            entries,
            groups,
            pieces,
            first: _,
        } = self;
        Answers {
            entries,
            groups,
            pieces,
        }
    }
}
