//! Functions that are looked up by name, one after the other.

ghost use Rattle.std.specs.Prelude.{◌≡◌, ◌∷◌, ◌<◌, ◌^◌, [], Some, IfSome, IfNone};
ghost use Rattle.std.specs.Option.{option_copied};
ghost use Rattle.sys_script_lines.specs.Externals.{IsNamed, external_named};
ghost use Rattle.sys_script_lines.specs.Parts.{IsPart, parts};

use crate::externals::{External, Externals};

/// How many places a finder remembers by a sum.
const ROOM: usize = 8192;

/// Of how many functions it remembers the successor; a source has no more.
const SUCCESSORS: usize = 1024;

/// Finds functions by name. Answers mostly come in the order of calls, so it remembers of each function which one came next the last time,
/// its successor, and tries that first; else it looks where the name was found, by a sum over its bytes. Both only make a search
/// needless: a name that is no successor, or takes the room of another, is found as well.
#[derive(Drop)]
pub(crate) struct Finder<'a> {
    pub(crate) externals: &'a Externals,
    last: usize,
    successors: [u16; SUCCESSORS],
    places: [u16; ROOM],
}

/// What follows the name and a blank, where the words begin with them.
#[inline(always)]
fn after_name<'a>(words: &'a [u8], name: &[u8]) -> Option<&'a [u8]>
    requires { IsPart 32 name.now }
    ensures { IfSome result (λ rest. parts 32 words.now ≡ name.now ∷ parts 32 rest.now) }
{
    let len = name.len();
    if len < words.len() && words[len] == b' ' && &words[..len] == name {
        Some(&words[len + 1..])
    } else {
        None
    }
}

/// What stands before the first blank and what after it, and a sum over the bytes of the former.
#[inline(always)]
fn cut_name(words: &[u8]) -> Option<(&[u8], &[u8], u32)>
    ensures parts { IfSome result (λ x. parts 32 words.now ≡ x.0.now ∷ parts 32 x.1.now) }
    ensures last { IfNone result (parts 32 words.now ≡ words.now ∷ []) }
{
    let mut sum: u32 = 0;
    for (at, byte) in words.iter().enumerate() {
        if *byte == b' ' {
            return Some((&words[..at], &words[at + 1..], sum));
        }
        sum = sum.wrapping_mul(31).wrapping_add(u32::from(*byte));
    }
    None
}

impl<'a> Finder<'a> {
    pub(crate) fn new(externals: &'a Externals) -> Finder<'a>
        ensures { result.externals.now ≡ externals.now }
    {
        Finder {
            externals,
            last: 0,
            successors: [0; SUCCESSORS],
            places: [0; ROOM],
        }
    }

    /// The function whose name is the first of the words, and what follows the blank after it; `None` where there is no blank.
    #[inline(always)]
    pub(crate) fn cut(&mut self, words: &'a [u8]) -> Option<(Option<&'a External>, &'a [u8])>
        ensures found { IfSome result (λ x.
            IsNamed self.old.externals.now words.now (option_copied x.0) x.1.now) }
        ensures last { IfNone result (parts 32 words.now ≡ words.now ∷ []) }
        ensures same { self.new.externals.now ≡ self.old.externals.now }
    {
        match self.cut_successor(words) {
            Some((external, rest)) => Some((Some(external), rest)),
            None => self.cut_any(words),
        }
    }

    // The same where the name is the successor of the last one; `None` where it isn't.
    #[inline(always)]
    fn cut_successor(&mut self, words: &'a [u8]) -> Option<(&'a External, &'a [u8])>
        ensures found { IfSome result (λ x.
            IsNamed self.old.externals.now words.now (Some x.0.now) x.1.now) }
        ensures same { self.new.externals.now ≡ self.old.externals.now }
    {
        let externals = self.externals;
        let place = usize::from(self.successors[self.last % SUCCESSORS]);
        let (name, external) = externals.named_at(place)?;
        let rest = after_name(words, name)?;
        self.last = place;
        Some((external, rest))
    }

    // The same as `cut`, of any name.
    #[inline(never)]
    fn cut_any(&mut self, words: &'a [u8]) -> Option<(Option<&'a External>, &'a [u8])>
        ensures found { IfSome result (λ x.
            IsNamed self.old.externals.now words.now (option_copied x.0) x.1.now) }
        ensures last { IfNone result (parts 32 words.now ≡ words.now ∷ []) }
        ensures same { self.new.externals.now ≡ self.old.externals.now }
    {
        let (name, rest, sum) = cut_name(words)?;
        let found = self.find(name, sum as usize % ROOM);
        Some((found, rest))
    }

    // The function of this name, for which this room is kept.
    #[inline(always)]
    fn find(&mut self, name: &[u8], room: usize) -> Option<&'a External>
        requires { room < 8192 }
        ensures found { option_copied result ≡ external_named name.now self.old.externals.now }
        ensures same { self.new.externals.now ≡ self.old.externals.now }
    {
        let externals = self.externals;
        let place = usize::from(self.places[room]);
        match externals.at(place, name) {
            Some(external) => {
                self.remember_successor(place);
                Some(external)
            }
            None => self.search(name, room),
        }
    }

    // The same by a search.
    #[inline(never)]
    fn search(&mut self, name: &[u8], room: usize) -> Option<&'a External>
        requires { room < 8192 }
        ensures found { option_copied result ≡ external_named name.now self.old.externals.now }
        ensures same { self.new.externals.now ≡ self.old.externals.now }
    {
        let externals = self.externals;
        let (place, external) = externals.place_of(name)?;
        if place <= usize::from(u16::MAX) {
            self.places[room] = place as u16;
            self.remember_successor(place);
        }
        Some(external)
    }

    // The function at this place is the successor of the last one.
    #[inline(always)]
    fn remember_successor(&mut self, place: usize)
        requires { place < 2 ^ 16 }
        ensures { self.new.externals.now ≡ self.old.externals.now }
    {
        self.successors[self.last % SUCCESSORS] = place as u16;
        self.last = place;
    }
}
