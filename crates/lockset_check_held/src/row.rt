//! Rows of bits.

ghost use Rattle.std.specs.Prelude.{◌≡◌, ℕ, ◌<◌, false, true, length, nat_eq, IfOk, OnErr, OnOk, [], bit_and};
ghost use Rattle.lockset_check_held.specs.Changes.{AreBoth, StaysWithin, Xors, is_turned, one_word, turned};
ghost use Rattle.lockset_check_held.specs.Rows.{Includes, is_on, row_at, word_of};

use crate::changed::Changed;
use std::alloc::{AllocError, Global};
use std::marker::Model;

// The word of a number, 0 past the last one.
fn word_at(words: &[u64], number: usize) -> u64
    ensures { result ≡ word_of words.now number }
{
    match words.get(number) {
        Some(word) => *word,
        None => 0,
    }
}

// Words up to that of a number, those that are more all 0.
#[tactic(auto, using(crate::proofs::Bits::zero_more))]
fn reach(words: &mut Vec<u64>, number: usize) -> Result<(), AllocError>
    ensures long { OnOk result (number < length words.new.items) }
    ensures same { (n : ℕ) → word_of words.new.items n ≡ word_of words.old.items n }
{
    while words.len() <= number {
        words.push(0)?;
    }
    Ok(())
}

// Whether all bits of others are among these.
#[tactic(auto, using(crate::proofs::Bits::none_left_out, crate::proofs::Bits::one_included, crate::proofs::Bits::all_included, crate::proofs::Bits::left_out))]
fn are_all(words: &[u64], others: &[u64]) -> bool
    ensures all { result ≡ true → Includes words.now others.now }
    ensures others { result ≡ false → ¬ (Includes words.now others.now) }
{
    for i in 0..others.len() {
        let other = word_at(others, i);
        if word_at(words, i) & other != other {
            return false;
        }
    }
    true
}

/// A set of places, one bit for each. Contracts see its words.
#[derive(Drop)]
pub struct Row {
    alloc: Global,
    words: Vec<u64>,
}

impl Model for Row {
    ghost use Rattle.std.specs.Prelude.{List, ℕ};

    ghost Value = { List ℕ };

    ghost view = { λ r. r.words.items };
}

impl Row {
    /// No places.
    pub(crate) fn new(alloc: Global) -> Row
        ensures { result ≡ [] }
    {
        Row {
            alloc,
            words: Vec::new(alloc),
        }
    }

    /// The bits of 64 places.
    pub(crate) fn word(&self, number: usize) -> u64
        ensures { result ≡ word_of self.now number }
    {
        word_at(self.words.as_slice(), number)
    }

    /// Whether a place is among them.
    #[tactic(auto, using(crate::proofs::Bits::tested))]
    pub(crate) fn has(&self, place: usize) -> bool
        ensures { result ≡ is_on self.now place }
    {
        self.word(place / 64) >> (place % 64) & 1 == 1
    }

    // Without these places of 64, but with those of them that weren't among them.
    fn turn_word(&mut self, number: usize, bits: u64) -> Result<(), AllocError>
        ensures done { OnOk result (Xors (one_word number bits) (word_of self.old) (word_of self.new)) }
        ensures err { OnErr result ((n : ℕ) → word_of self.new n ≡ word_of self.old n) }
    {
        reach(&mut self.words, number)?;
        self.words[number] ^= bits;
        Ok(())
    }

    /// Without the place, or with it if it wasn't among them. `AllocError` where there is no memory for it.
    pub(crate) fn turn(&mut self, place: usize) -> Result<(), AllocError>
        ensures done { OnOk result (is_on self.new ≡ turned (nat_eq place) (is_on self.old)) }
        ensures within { StaysWithin (nat_eq place) (is_on self.old) (is_on self.new) }
    {
        self.turn_word(place / 64, 1u64 << (place % 64))
    }

    /// The same for each of those that changed.
    pub(crate) fn turn_all(&mut self, changed: &Changed) -> Result<(), AllocError>
        ensures done { OnOk result (is_on self.new ≡ turned (is_turned changed.now) (is_on self.old)) }
        ensures within { StaysWithin (is_turned changed.now) (is_on self.old) (is_on self.new) }
    {
        for i in 0..changed.len() {
            let (number, bits) = changed.at(i);
            self.turn_word(number, bits)?;
        }
        Ok(())
    }

    /// Those of them that changed.
    pub(crate) fn among(&self, changed: &Changed) -> Result<Changed, AllocError>
        ensures { IfOk result (λ both. AreBoth self.now changed.now both) }
    {
        let mut both = Changed::new(self.alloc);
        for i in 0..changed.len() {
            let (number, bits) = changed.at(i);
            both.turn_word(number, self.word(number) & bits)?;
        }
        Ok(both)
    }

    /// Whether all places of another row are among them.
    pub(crate) fn has_all(&self, other: &Row) -> bool
        ensures all { result ≡ true → Includes self.now other.now }
        ensures others { result ≡ false → ¬ (Includes self.now other.now) }
    {
        are_all(self.words.as_slice(), other.words.as_slice())
    }

    /// The same row.
    pub(crate) fn copy(&self) -> Result<Row, AllocError>
        ensures { IfOk result (λ copy. copy ≡ self.now) }
    {
        let words = Vec::from_slice(self.alloc, self.words.as_slice())?;
        Ok(Row {
            alloc: self.alloc,
            words,
        })
    }
}

/// Whether a row has all places of the row of a place among some; past the last one, there are none.
#[tactic(auto, using(crate::proofs::Bits::nothing_included))]
pub(crate) fn has_all_at(row: &Row, rows: &[Row], place: usize) -> bool
    ensures all { result ≡ true → Includes row.now (row_at rows.now place) }
    ensures others { result ≡ false → ¬ (Includes row.now (row_at rows.now place)) }
{
    match rows.get(place) {
        Some(other) => row.has_all(other),
        None => true,
    }
}

/// The row of a place among some once more; past the last one, no places.
pub(crate) fn copy_at(alloc: Global, rows: &[Row], place: usize) -> Result<Row, AllocError>
    ensures { IfOk result (λ row. row ≡ row_at rows.now place) }
{
    match rows.get(place) {
        Some(row) => row.copy(),
        None => Ok(Row::new(alloc)),
    }
}
