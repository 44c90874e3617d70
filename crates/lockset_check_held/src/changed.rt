//! Places in which two sets differ.

ghost use Rattle.std.specs.Prelude.{◌≡◌, ◌<◌, ℕ, [], false, length, nat_eq, slice_get, true, OnErr, OnOk, Some};
ghost use Rattle.std.specs.List.{IsDistinct};
ghost use Rattle.std.specs.Map.{keys_of};
ghost use Rattle.lockset_check_held.specs.Changes.{StaysWithin, Xors, change_of, is_turned, one_word, turned};

use indexmap::IndexMap;
use std::alloc::{AllocError, Global};
use std::marker::Model;

/// The places that exactly one of two sets has: the bits of words of 64 places, without the words that have no bit. Contracts see the
/// words with their numbers, in an order that means nothing.
#[derive(Drop)]
pub struct Changed {
    words: IndexMap<usize, u64>,
}

impl Model for Changed {
    ghost use Rattle.lockset_check_held.specs.Changes.{AreWords, Changes};

    ghost Value = { Changes };

    ghost view = { λ c. c.words.entries };

    ghost invariant = { λ c. AreWords c.words.entries };
}

impl Changed {
    /// No places.
    pub(crate) fn new(alloc: Global) -> Changed
        ensures { result ≡ [] }
    {
        Changed {
            words: IndexMap::new(alloc),
        }
    }

    // The bits of the word of a number.
    fn bits_of(&self, number: usize) -> u64
        ensures { result ≡ change_of self.now number }
    {
        match self.words.get(&number) {
            Some(bits) => *bits,
            None => 0,
        }
    }

    /// How many words have bits.
    pub(crate) fn len(&self) -> usize
        ensures count { result ≡ length self.now }
        ensures once { IsDistinct nat_eq (keys_of self.now) }
    {
        self.words.len()
    }

    /// The number and the bits of one of the words that have bits.
    pub(crate) fn at(&self, index: usize) -> (usize, u64)
        requires { index < length self.now }
        ensures { slice_get self.now index ≡ Some result }
    {
        let (number, bits) = self.words.get_index(index).unwrap();
        (*number, *bits)
    }

    /// Without these places of a word, but with those of them that weren't among them.
    pub(crate) fn turn_word(&mut self, number: usize, bits: u64) -> Result<(), AllocError>
        ensures done { OnOk result (Xors (one_word number bits) (change_of self.old) (change_of self.new)) }
        ensures err { OnErr result (self.new ≡ self.old) }
    {
        let word = self.bits_of(number) ^ bits;
        if word == 0 {
            self.words.swap_remove(&number);
            return Ok(());
        }
        self.words.insert(number, word)?;
        Ok(())
    }

    /// Without the place, or with it if it wasn't among them. `AllocError` where there is no memory for it.
    pub(crate) fn turn(&mut self, place: usize) -> Result<(), AllocError>
        ensures done { OnOk result (is_turned self.new ≡ turned (nat_eq place) (is_turned self.old)) }
        ensures within { StaysWithin (nat_eq place) (is_turned self.old) (is_turned self.new) }
    {
        self.turn_word(place / 64, 1u64 << (place % 64))
    }

    /// The same for each of the others.
    pub(crate) fn turn_all(&mut self, others: &Changed) -> Result<(), AllocError>
        ensures done { OnOk result (is_turned self.new ≡ turned (is_turned others.now) (is_turned self.old)) }
        ensures within { StaysWithin (is_turned others.now) (is_turned self.old) (is_turned self.new) }
    {
        for i in 0..others.len() {
            let (number, bits) = others.at(i);
            self.turn_word(number, bits)?;
        }
        Ok(())
    }

    /// Whether there are none.
    pub(crate) fn is_empty(&self) -> bool
        ensures none { result ≡ true → self.now ≡ [] }
        ensures some { result ≡ false → ((p : ℕ) × (is_turned self.now p ≡ true)) }
    {
        self.words.is_empty()
    }
}
