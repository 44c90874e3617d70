// The bytes of an area.
ghost use Rattle.std.specs.Bool.{OnTrue, OnFalse};
ghost use Rattle.std.specs.Prelude.{◌≡◌, ◌≢◌, ℕ, ◌+◌, ◌-◌, ◌^◌, ◌<◌, ◌≤◌, ◌↔◌, IsTrue, IsSome, IfOk, IfSome, None, Some, replicate, length, vec_capacity, slice_index, slice_index_or, if◌then◌else◌};
ghost use Rattle.memchr.specs.Find.{IsFirst};
ghost use Rattle.marks.specs.Ranges.{covers};
ghost use Rattle.space_memory_bytes.specs.Numbers.{digit};
ghost use Rattle.space_memory_bytes.specs.Marks.{AreLive, HasDigits, FillsCells, PutsCells, WritesDigits};

use memchr::memchr;
use std::alloc::{AllocError, Global};
use std::marker::Model;

/// Bytes, each dead or live with a value. Beside the values lie as many marks, 1 where a byte lives and 0 where it is dead,
/// so that the bytes of a number are tested and read at once, and those of a range are whole slices. Both go up to the last
/// byte that was ever made live, in memory that is reserved for all; bytes past them are dead.
#[derive(Drop)]
pub struct MarkedBytes {
    size: usize,
    marks: Vec<u8>,
    values: Vec<u8>,
}

impl Model for MarkedBytes {
    ghost use Rattle.std.specs.Prelude.{ℕ, ◌≤◌, List, Option};
    ghost use Rattle.std.specs.Vec.{vec_capacity};
    ghost use Rattle.space_memory_bytes.specs.Marks.{cells_in, AreMarks};

    ghost Value = { List (Option ℕ) };

    ghost view = { λ c. cells_in c.size c.marks.items c.values.items };

    ghost invariant = { λ c. AreMarks c.size c.marks.items c.values.items ×
        (c.size ≤ vec_capacity c.marks) × (c.size ≤ vec_capacity c.values) };
}

impl MarkedBytes {
    /// So many dead bytes.
    pub fn new(alloc: Global, n: usize) -> Result<MarkedBytes, AllocError>
        ensures { IfOk result (λ cells. cells ≡ replicate n None) }
    {
        let marks = Vec::with_capacity(alloc, n)?;
        let values = Vec::with_capacity(alloc, n)?;
        Ok(MarkedBytes {
            size: n,
            marks,
            values,
        })
    }

    /// How many bytes there are.
    #[inline]
    pub fn len(&self) -> usize
        ensures { result ≡ length self.now }
    {
        self.size
    }

    /// The byte at a place, `None` where it is dead.
    #[inline]
    pub fn get(&self, at: usize) -> Option<u8>
        requires { at < length self.now }
        ensures { result ≡ slice_index_or self.now at None }
    {
        if self.marks.len() <= at {
            return None;
        }
        let value = self.values[at];
        if self.marks[at] == 1 {
            Some(value)
        } else {
            None
        }
    }

    /// The first place from the given one on whose byte is live.
    pub fn first_live(&self, from: usize) -> Option<usize>
        requires { from ≤ length self.now }
        ensures { IsFirst (λ k. slice_index_or self.now k None ≢ None) from (length self.now) result }
    {
        let start = from.min(self.marks.len());
        let at = memchr(1, &self.marks[start..])?;
        Some(start + at)
    }

    /// The first place from one up to another whose byte is dead.
    pub fn first_dead(&self, from: usize, to: usize) -> Option<usize>
        requires order { from ≤ to }
        requires in_cells { to ≤ length self.now }
        ensures { IsFirst (λ k. slice_index_or self.now k None ≡ None) from to result }
    {
        first_unmarked(&self.marks, from, to)
    }

    /// The values of the live bytes from one place up to another.
    pub fn part(&self, from: usize, to: usize) -> &[u8]
        requires order { from ≤ to }
        requires in_cells { to ≤ length self.now }
        requires live { AreLive self.now from (to - from) }
        ensures len { length result.now + from ≡ to }
        ensures values { (i : ℕ) → i < length result.now →
            slice_index_or self.now (from + i) None ≡ Some (slice_index result.now i) }
    {
        if from == to {
            return &[];
        }
        &self.values[from..to]
    }

    /// The number of the `width` bytes from a place on, the lowest first; `None` where one is dead.
    // The commonest widths stand here, the others apart, so that little is done before either. It stands in one place, and what calls it
    // is inlined.
    #[inline(never)]
    pub fn number(&self, at: usize, width: u8) -> Option<u64>
        requires in_cells { at < length self.now }
        requires some { 1 ≤ width }
        requires at_most_8 { width ≤ 8 }
        ensures live { IsSome result ↔ AreLive self.now at width }
        ensures digits { IfSome result (HasDigits self.now at width) }
        ensures fits { IfSome result (λ value. value < 256 ^ width) }
    {
        match width {
            4 => self.number_of(at, 4),
            8 => self.number_of(at, 8),
            1 => self.number_of(at, 1),
            _ => self.number_of_any(at, width),
        }
    }

    // The same, of any width.
    #[inline(never)]
    fn number_of_any(&self, at: usize, width: u8) -> Option<u64>
        requires in_cells { at < length self.now }
        requires some { 1 ≤ width }
        requires at_most_8 { width ≤ 8 }
        ensures live { IsSome result ↔ AreLive self.now at width }
        ensures digits { IfSome result (HasDigits self.now at width) }
        ensures fits { IfSome result (λ value. value < 256 ^ width) }
    {
        match width {
            2 => self.number_of(at, 2),
            _ => self.number_of(at, width as usize),
        }
    }

    /// The same where it is read at a glance: `None` also where the width is an uncommon one. It is inlined where it's used.
    #[inline(always)]
    pub fn glance(&self, at: usize, width: u8) -> Option<u64>
        requires { at < length self.now }
        ensures live { IsSome result → AreLive self.now at width }
        ensures digits { IfSome result (HasDigits self.now at width) }
        ensures fits { IfSome result (λ value. value < 256 ^ width) }
    {
        match width {
            4 => self.number_of(at, 4),
            8 => self.number_of(at, 8),
            1 => self.number_of(at, 1),
            _ => None,
        }
    }

    /// Makes the `width` bytes from a place on those of the number, the lowest first, if all are live; whether they are.
    // It stands in one place, as `number` does.
    #[inline(never)]
    pub fn overwrite(&mut self, at: usize, width: u8, value: u64) -> bool
        requires in_cells { at < length self.old }
        requires some { 1 ≤ width }
        requires at_most_8 { width ≤ 8 }
        ensures live { IsTrue result ↔ AreLive self.old at width }
        ensures written { OnTrue result (WritesDigits at width value self.old self.new) }
        ensures unchanged { OnFalse result (self.new ≡ self.old) }
    {
        match width {
            4 => self.overwrite_with(at, 4, value),
            8 => self.overwrite_with(at, 8, value),
            1 => self.overwrite_with(at, 1, value),
            _ => self.overwrite_any(at, width, value),
        }
    }

    // The same, of any width.
    #[inline(never)]
    fn overwrite_any(&mut self, at: usize, width: u8, value: u64) -> bool
        requires in_cells { at < length self.old }
        requires some { 1 ≤ width }
        requires at_most_8 { width ≤ 8 }
        ensures live { IsTrue result ↔ AreLive self.old at width }
        ensures written { OnTrue result (WritesDigits at width value self.old self.new) }
        ensures unchanged { OnFalse result (self.new ≡ self.old) }
    {
        match width {
            2 => self.overwrite_with(at, 2, value),
            _ => self.overwrite_with(at, width as usize, value),
        }
    }

    /// Makes each byte from one place up to another the given one.
    pub fn fill(&mut self, from: usize, to: usize, byte: Option<u8>)
        requires order { from ≤ to }
        requires in_cells { to ≤ length self.old }
        ensures { FillsCells from (to - from) byte self.old self.new }
    {
        match byte {
            Some(value) => {
                fill_grown(&mut self.marks, from, to, 1);
                fill_grown(&mut self.values, from, to, value);
            }
            None => unmark(&mut self.marks, from, to),
        }
    }

    /// Makes the bytes from a place on those of the list.
    pub fn put(&mut self, at: usize, bytes: &[u8])
        requires in_cells { at + length bytes.now ≤ length self.old }
        requires ends { at + length bytes.now < 2 ^ 64 }
        ensures { PutsCells at bytes.now self.old self.new }
    {
        let to = at + bytes.len();
        fill_grown(&mut self.marks, at, to, 1);
        grow(&mut self.values, to);
        put_part(&mut self.values, at, bytes);
    }

    // The number of the n bytes from a place on, if all are live.
    #[inline(always)]
    fn number_of(&self, at: usize, n: usize) -> Option<u64>
        requires in_cells { at < length self.now }
        requires some { 1 ≤ n }
        requires at_most_8 { n ≤ 8 }
        ensures live { IsSome result ↔ AreLive self.now at n }
        ensures digits { IfSome result (HasDigits self.now at n) }
        ensures fits { IfSome result (λ value. value < 256 ^ n) }
    {
        if self.are_live(at, n) {
            Some(number_at(&self.values, at, n))
        } else {
            None
        }
    }

    // Makes the n bytes from a place on those of the number, if all are live; whether they are.
    #[inline(always)]
    fn overwrite_with(&mut self, at: usize, n: usize, value: u64) -> bool
        requires in_cells { at < length self.old }
        requires some { 1 ≤ n }
        requires at_most_8 { n ≤ 8 }
        ensures live { IsTrue result ↔ AreLive self.old at n }
        ensures written { OnTrue result (WritesDigits at n value self.old self.new) }
        ensures unchanged { OnFalse result (self.new ≡ self.old) }
    {
        if self.are_live(at, n) {
            put_part(&mut self.values, at, &value.to_le_bytes()[..n]);
            true
        } else {
            false
        }
    }

    // Whether each of the n bytes from a place on is live: their marks make the number of as many ones.
    #[inline(always)]
    fn are_live(&self, at: usize, n: usize) -> bool
        requires in_cells { at < length self.now }
        requires some { 1 ≤ n }
        requires at_most_8 { n ≤ 8 }
        ensures { IsTrue result ↔ AreLive self.now at n }
    {
        if self.marks.len() < at + n {
            return false;
        }
        number_at(&self.marks, at, n) == number_at(&[1; 8], 0, n)
    }
}

// The first place from one up to another whose mark is 0, as are those past the marks.
fn first_unmarked(marks: &[u8], from: usize, to: usize) -> Option<usize>
    requires { from ≤ to }
    ensures { IsFirst (λ k. slice_index marks.now k ≡ 0) from to result }
{
    let start = from.min(marks.len());
    let end = to.min(marks.len());
    if let Some(at) = memchr(0, &marks[start..end]) {
        return Some(start + at);
    }
    let past = from.max(end);
    if past < to { Some(past) } else { None }
}

// Makes each mark from one place up to another 0, as are those past the marks.
fn unmark(marks: &mut [u8], from: usize, to: usize)
    requires { from ≤ to }
    ensures len { length marks.new ≡ length marks.old }
    ensures unmarked { (k : ℕ) → slice_index marks.new k ≡
        (if covers (record { addr = from; len = to - from }) k then 0 else slice_index marks.old k) }
{
    let end = to.min(marks.len());
    if from < end {
        fill_part(marks, from, end, 0);
    }
}

// Makes bytes end no earlier than a place, with zeros where they did, in memory that they have.
fn grow(bytes: &mut Vec<u8>, to: usize)
    requires { to ≤ vec_capacity bytes.old }
    ensures len { length bytes.new.items ≡ length bytes.old.items + (to - length bytes.old.items) }
    ensures same { (k : ℕ) → slice_index bytes.new.items k ≡ slice_index bytes.old.items k }
    ensures capacity { vec_capacity bytes.old ≤ vec_capacity bytes.new }
{
    if bytes.len() < to {
        match bytes.resize(to, 0) {
            Ok(()) => (),
            Err(_) => unreachable!("the memory is reserved"),
        }
    }
}

// Makes each byte from one place up to another the given one, those past the end too.
fn fill_grown(bytes: &mut Vec<u8>, from: usize, to: usize, byte: u8)
    requires order { from ≤ to }
    requires room { to ≤ vec_capacity bytes.old }
    ensures len { length bytes.new.items ≡ length bytes.old.items + (to - length bytes.old.items) }
    ensures filled { (k : ℕ) → slice_index bytes.new.items k ≡
        (if covers (record { addr = from; len = to - from }) k then byte else slice_index bytes.old.items k) }
    ensures capacity { vec_capacity bytes.old ≤ vec_capacity bytes.new }
{
    grow(bytes, to);
    fill_part(bytes, from, to, byte);
}

// The number of the n bytes from a place on, the lowest first.
#[inline(always)]
fn number_at(bytes: &[u8], at: usize, n: usize) -> u64
    requires in_bytes { at + n ≤ length bytes.now }
    requires at_most_8 { n ≤ 8 }
    ensures fits { result < 256 ^ n }
    ensures digits { (i : ℕ) → i < n → digit result i ≡ slice_index bytes.now (at + i) }
{
    if n == 8 {
        word_at(bytes, at)
    } else {
        digits_at(bytes, at, n)
    }
}

// The number of eight bytes, which are read at once.
#[inline(always)]
fn word_at(bytes: &[u8], at: usize) -> u64
    requires { at + 8 ≤ length bytes.now }
    ensures fits { result < 256 ^ 8 }
    ensures digits { (i : ℕ) → i < 8 → digit result i ≡ slice_index bytes.now (at + i) }
{
    u64::from_le_bytes([
        bytes[at],
        bytes[at + 1],
        bytes[at + 2],
        bytes[at + 3],
        bytes[at + 4],
        bytes[at + 5],
        bytes[at + 6],
        bytes[at + 7],
    ])
}

// The number of n bytes, one after another. The loop goes down from n, so that it is unrolled where n is known.
#[inline(always)]
fn digits_at(bytes: &[u8], at: usize, n: usize) -> u64
    requires in_bytes { at + n ≤ length bytes.now }
    requires at_most_8 { n ≤ 8 }
    ensures fits { result < 256 ^ n }
    ensures digits { (i : ℕ) → i < n → digit result i ≡ slice_index bytes.now (at + i) }
{
    let mut value = 0;
    for place in (0..n).rev() {
        value = value * 256 + u64::from(bytes[at + place]);
    }
    value
}

// Makes the bytes from a place on those of the part.
#[inline(always)]
fn put_part(bytes: &mut [u8], at: usize, part: &[u8])
    requires { at + length part.now ≤ length bytes.old }
    ensures len { length bytes.new ≡ length bytes.old }
    ensures put { (k : ℕ) → slice_index bytes.new k ≡
        (if covers (record { addr = at; len = length part.now }) k then slice_index part.now (k - at)
        else slice_index bytes.old k) }
{
    bytes[at..at + part.len()].copy_from_slice(part);
}

// Makes each byte from one place up to another the given one.
fn fill_part(bytes: &mut [u8], from: usize, to: usize, byte: u8)
    requires order { from ≤ to }
    requires in_bytes { to ≤ length bytes.old }
    ensures len { length bytes.new ≡ length bytes.old }
    ensures filled { (k : ℕ) → slice_index bytes.new k ≡
        (if covers (record { addr = from; len = to - from }) k then byte else slice_index bytes.old k) }
{
    bytes[from..to].fill(byte);
}
