//! Values of 64 bits.

ghost use Rattle.std.specs.Prelude.{◌≡◌, [], ℕ, List, IfOk, IfSome, length};
ghost use Rattle.run_events.specs.Words.{pattern, unpacked_words, words_of};

use smallvec::SmallVec;
use std::alloc::{AllocError, Global};
use std::marker::Model;
use std::slice;

/// How values lie in 24 bytes: two as they are, three to eight that are small numbers with a sign in fewer bits, others in one block, and
/// more than eight in two.
#[derive(Drop)]
enum PackedWords {
    Empty,
    One(u64),
    Two([u64; 2]),
    Three(i32, i32, i32),
    Four(i32, i32, i32, i32),
    Five(i32, i32, i32, i32, i32),
    Six(i16, i16, i16, i16, i16, i16),
    Seven(i16, i16, i16, i16, i16, i16, i16),
    Eight(i16, i16, i16, i16, i16, i16, i16, i16),
    WideThree(Box<[u64; 3]>),
    WideFour(Box<[u64; 4]>),
    WideFive(Box<[u64; 5]>),
    WideSix(Box<[u64; 6]>),
    WideSeven(Box<[u64; 7]>),
    WideEight(Box<[u64; 8]>),
    More(Box<SmallVec<u64, 8>>),
}

/// The number of 32 bits with this pattern of 64, if there is one.
fn half(word: u64) -> Option<i32>
    ensures { IfSome result (λ half. pattern half ≡ word) }
{
    i32::try_from(word.cast_signed()).ok()
}

/// The number of 16 bits with this pattern of 64, if there is one.
fn quarter(word: u64) -> Option<i16>
    ensures { IfSome result (λ quarter. pattern quarter ≡ word) }
{
    i16::try_from(word.cast_signed()).ok()
}

/// The pattern of 64 bits of a number of 32.
#[inline]
fn of_half(half: i32) -> u64
    ensures { result ≡ pattern half }
{
    i64::from(half).cast_unsigned()
}

/// The pattern of 64 bits of a number of 16.
#[inline]
fn of_quarter(quarter: i16) -> u64
    ensures { result ≡ pattern quarter }
{
    i64::from(quarter).cast_unsigned()
}

/// Three values that fit.
fn three(words: &[u64]) -> Option<PackedWords>
    ensures { IfSome result (λ packed. words_of packed ≡ words.now) }
{
    let [a, b, c] = *words else {
        return None;
    };
    Some(PackedWords::Three(half(a)?, half(b)?, half(c)?))
}

/// Four values that fit.
fn four(words: &[u64]) -> Option<PackedWords>
    ensures { IfSome result (λ packed. words_of packed ≡ words.now) }
{
    let [a, b, c, d] = *words else {
        return None;
    };
    Some(PackedWords::Four(half(a)?, half(b)?, half(c)?, half(d)?))
}

/// Five values that fit.
fn five(words: &[u64]) -> Option<PackedWords>
    ensures { IfSome result (λ packed. words_of packed ≡ words.now) }
{
    let [a, b, c, d, e] = *words else {
        return None;
    };
    Some(PackedWords::Five(half(a)?, half(b)?, half(c)?, half(d)?, half(e)?))
}

/// Six values that fit.
fn six(words: &[u64]) -> Option<PackedWords>
    ensures { IfSome result (λ packed. words_of packed ≡ words.now) }
{
    let [a, b, c, d, e, f] = *words else {
        return None;
    };
    Some(PackedWords::Six(
        quarter(a)?,
        quarter(b)?,
        quarter(c)?,
        quarter(d)?,
        quarter(e)?,
        quarter(f)?,
    ))
}

/// Seven values that fit.
fn seven(words: &[u64]) -> Option<PackedWords>
    ensures { IfSome result (λ packed. words_of packed ≡ words.now) }
{
    let [a, b, c, d, e, f, g] = *words else {
        return None;
    };
    Some(PackedWords::Seven(
        quarter(a)?,
        quarter(b)?,
        quarter(c)?,
        quarter(d)?,
        quarter(e)?,
        quarter(f)?,
        quarter(g)?,
    ))
}

/// Eight values that fit.
fn eight(words: &[u64]) -> Option<PackedWords>
    ensures { IfSome result (λ packed. words_of packed ≡ words.now) }
{
    let [a, b, c, d, e, f, g, h] = *words else {
        return None;
    };
    Some(PackedWords::Eight(
        quarter(a)?,
        quarter(b)?,
        quarter(c)?,
        quarter(d)?,
        quarter(e)?,
        quarter(f)?,
        quarter(g)?,
        quarter(h)?,
    ))
}

/// The values in fewer bits, where there are three to eight and each fits.
fn narrow(words: &[u64]) -> Option<PackedWords>
    ensures { IfSome result (λ packed. words_of packed ≡ words.now) }
{
    match words.len() {
        3 => three(words),
        4 => four(words),
        5 => five(words),
        6 => six(words),
        7 => seven(words),
        8 => eight(words),
        _ => None,
    }
}

/// The values as they are, in a block, where there are three to eight.
fn wide(alloc: Global, words: &[u64]) -> Result<Option<PackedWords>, AllocError>
    ensures { IfOk result (λ packed. IfSome packed (λ packed. words_of packed ≡ words.now)) }
{
    if let Ok(all) = <[u64; 3]>::try_from(words) {
        return Ok(Some(PackedWords::WideThree(Box::new(alloc, all)?)));
    }
    if let Ok(all) = <[u64; 4]>::try_from(words) {
        return Ok(Some(PackedWords::WideFour(Box::new(alloc, all)?)));
    }
    if let Ok(all) = <[u64; 5]>::try_from(words) {
        return Ok(Some(PackedWords::WideFive(Box::new(alloc, all)?)));
    }
    if let Ok(all) = <[u64; 6]>::try_from(words) {
        return Ok(Some(PackedWords::WideSix(Box::new(alloc, all)?)));
    }
    if let Ok(all) = <[u64; 7]>::try_from(words) {
        return Ok(Some(PackedWords::WideSeven(Box::new(alloc, all)?)));
    }
    if let Ok(all) = <[u64; 8]>::try_from(words) {
        return Ok(Some(PackedWords::WideEight(Box::new(alloc, all)?)));
    }
    Ok(None)
}

/// The values, where there are more than two.
fn packed(alloc: Global, words: &[u64]) -> Result<PackedWords, AllocError>
    ensures { IfOk result (λ packed. words_of packed ≡ words.now) }
{
    if let Some(packed) = narrow(words) {
        return Ok(packed);
    }
    if let Some(packed) = wide(alloc, words)? {
        return Ok(packed);
    }
    let many = Box::new(alloc, SmallVec::from_slice(alloc, words)?)?;
    Ok(PackedWords::More(many))
}

/// Values of 64 bits, as the arguments of a call. Up to two take no memory besides the list itself, nor up to five that are numbers of
/// 32 bits with a sign, nor up to eight of 16.
#[derive(Drop)]
pub struct Words {
    items: PackedWords,
}

impl Model for Words {
    ghost use Rattle.std.specs.Prelude.{ℕ, List};

    ghost Value = { List ℕ };

    ghost use Rattle.run_events.specs.Words.{words_of};

    ghost view = { λ l. words_of l.items };
}

impl Words {
    /// The empty list.
    pub fn new() -> Self
        ensures { result ≡ [] }
    {
        Words {
            items: PackedWords::Empty,
        }
    }

    /// A copy of these values. `AllocError` where there is no memory.
    pub fn from_slice(alloc: Global, values: &[u64]) -> Result<Self, AllocError>
        ensures { IfOk result (λ copy. copy ≡ values.now) }
    {
        let items = match *values {
            [] => PackedWords::Empty,
            [a] => PackedWords::One(a),
            [a, b] => PackedWords::Two([a, b]),
            _ => packed(alloc, values)?,
        };
        Ok(Words { items })
    }

    /// How many values there are.
    #[inline]
    pub fn len(&self) -> usize
        ensures { result ≡ length self.now }
    {
        match &self.items {
            PackedWords::Empty => 0,
            PackedWords::One(_) => 1,
            PackedWords::Two(both) => both.as_slice().len(),
            PackedWords::Three(..) => 3,
            PackedWords::Four(..) => 4,
            PackedWords::Five(..) => 5,
            PackedWords::Six(..) => 6,
            PackedWords::Seven(..) => 7,
            PackedWords::Eight(..) => 8,
            PackedWords::WideThree(all) => all.as_slice().len(),
            PackedWords::WideFour(all) => all.as_slice().len(),
            PackedWords::WideFive(all) => all.as_slice().len(),
            PackedWords::WideSix(all) => all.as_slice().len(),
            PackedWords::WideSeven(all) => all.as_slice().len(),
            PackedWords::WideEight(all) => all.as_slice().len(),
            PackedWords::More(many) => many.len(),
        }
    }

    /// The values as a slice can be taken of them.
    #[inline]
    pub fn unpacked(&self) -> UnpackedWords<'_>
        ensures { result ≡ self.now }
    {
        UnpackedWords {
            items: unpack(&self.items),
        }
    }
}

/// Values as a slice can be taken of them.
#[derive(Clone, Copy)]
enum Unpacked<'a> {
    Three([u64; 3]),
    Four([u64; 4]),
    Five([u64; 5]),
    Six([u64; 6]),
    Seven([u64; 7]),
    Eight([u64; 8]),
    All(&'a [u64]),
}

/// The values as a slice can be taken of them.
#[inline]
fn unpack(items: &PackedWords) -> Unpacked<'_>
    ensures { unpacked_words result ≡ words_of items.now }
{
    match items {
        PackedWords::Empty => Unpacked::All(&[]),
        PackedWords::One(only) => Unpacked::All(slice::from_ref(only)),
        PackedWords::Two(both) => Unpacked::All(both),
        PackedWords::Three(a, b, c) => Unpacked::Three([of_half(*a), of_half(*b), of_half(*c)]),
        PackedWords::Four(a, b, c, d) => Unpacked::Four([
            of_half(*a),
            of_half(*b),
            of_half(*c),
            of_half(*d),
        ]),
        PackedWords::Five(a, b, c, d, e) => Unpacked::Five([
            of_half(*a),
            of_half(*b),
            of_half(*c),
            of_half(*d),
            of_half(*e),
        ]),
        PackedWords::Six(a, b, c, d, e, f) => Unpacked::Six([
            of_quarter(*a),
            of_quarter(*b),
            of_quarter(*c),
            of_quarter(*d),
            of_quarter(*e),
            of_quarter(*f),
        ]),
        PackedWords::Seven(a, b, c, d, e, f, g) => Unpacked::Seven([
            of_quarter(*a),
            of_quarter(*b),
            of_quarter(*c),
            of_quarter(*d),
            of_quarter(*e),
            of_quarter(*f),
            of_quarter(*g),
        ]),
        PackedWords::Eight(a, b, c, d, e, f, g, h) => Unpacked::Eight([
            of_quarter(*a),
            of_quarter(*b),
            of_quarter(*c),
            of_quarter(*d),
            of_quarter(*e),
            of_quarter(*f),
            of_quarter(*g),
            of_quarter(*h),
        ]),
        PackedWords::WideThree(all) => Unpacked::All(all.as_slice()),
        PackedWords::WideFour(all) => Unpacked::All(all.as_slice()),
        PackedWords::WideFive(all) => Unpacked::All(all.as_slice()),
        PackedWords::WideSix(all) => Unpacked::All(all.as_slice()),
        PackedWords::WideSeven(all) => Unpacked::All(all.as_slice()),
        PackedWords::WideEight(all) => Unpacked::All(all.as_slice()),
        PackedWords::More(many) => Unpacked::All(many.as_slice()),
    }
}

/// Values of 64 bits as a slice can be taken of them.
#[derive(Drop)]
pub struct UnpackedWords<'a> {
    items: Unpacked<'a>,
}

impl<'a> Model for UnpackedWords<'a> {
    ghost use Rattle.std.specs.Prelude.{ℕ, List};

    ghost Value = { List ℕ };

    ghost use Rattle.run_events.specs.Words.{unpacked_words};

    ghost view = { λ l. unpacked_words l.items };
}

impl<'a> UnpackedWords<'a> {
    /// The values, in order.
    #[inline]
    pub fn as_slice(&self) -> &[u64]
        ensures { result.now ≡ self.now }
    {
        match &self.items {
            Unpacked::Three(few) => few,
            Unpacked::Four(few) => few,
            Unpacked::Five(few) => few,
            Unpacked::Six(few) => few,
            Unpacked::Seven(few) => few,
            Unpacked::Eight(few) => few,
            Unpacked::All(all) => all,
        }
    }
}
