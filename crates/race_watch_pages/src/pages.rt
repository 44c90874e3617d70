//! Numbers by cell.

ghost use Rattle.std.specs.Prelude.{◌≡◌, ◌+◌, ◌*◌, ◌/◌, ◌%◌, ◌<◌, ◌≤◌, ◌&&◌, ℕ, nat_le, nat_lt, if◌then◌else◌, length, slice_index, IfOk, OnOk, IsTrue, IsFalse, MatchOption};
ghost use Rattle.race_watch_pages.specs.Kept.{kept, size, IsThere, IsSplit, IsReady, StandsAt, StandsInWords, StandsInCells};

use crate::index::{grow, listed};
use crate::part::{
    are_all, are_at_most, are_few, are_few_words, are_few_words_at_most, are_words, fill, fill_two,
    spread,
};
use std::alloc::{AllocError, Global};

/// A page of 256 cells: one number for four in a row, or where each has its own.
#[derive(Drop)]
pub struct WordPage {
    number: u32,
    split: Option<u32>,
    values: [u32; 64],
}

/// The numbers of the 256 cells of a page, one for each.
#[derive(Drop)]
pub struct CellPage {
    number: u32,
    values: [u32; 256],
}

/// Where the numbers of a page stand.
#[derive(Clone, Copy)]
pub enum PageAt {
    Words(u32),
    Cells(u32),
}

/// Numbers by cell. A page that isn't there has zeros.
#[derive(Drop)]
pub struct Pages {
    /// How many pages there may be.
    size: u32,
    /// By page, where it stands if it is there; no number counts where another page stands (Briggs and Torczon 1993). It ends with
    /// the last page that was made, in memory that is reserved for all; past its end it counts as zeros.
    index: Vec<u32>,
    words: Vec<WordPage>,
    cells: Vec<CellPage>,
}

impl Pages {
    /// Zeros, over the cells of so many pages.
    pub fn new(alloc: Global, pages: u32) -> Result<Pages, AllocError>
        ensures size { IfOk result (λ m. size m ≡ pages) }
        ensures zeros { IfOk result (λ m. (c : ℕ) → kept m c ≡ 0) }
    {
        Ok(Pages {
            size: pages,
            index: Vec::with_capacity(alloc, pages as usize)?,
            words: Vec::new(alloc),
            cells: Vec::new(alloc),
        })
    }

    /// Where a page stands, if it is there.
    #[inline(always)]
    fn find(&self, page: u32) -> Option<PageAt>
        requires { page < size self.now }
        ensures { MatchOption result (IsThere self.now page → ⊥) (λ at. StandsAt self.now page at) }
    {
        let at = listed(&self.index, page as usize);
        if (at as usize) < self.words.len() && self.words[at as usize].number == page {
            match self.words[at as usize].split {
                None => return Some(PageAt::Words(at)),
                Some(to) => {
                    if (to as usize) < self.cells.len() && self.cells[to as usize].number == page {
                        return Some(PageAt::Cells(to));
                    }
                }
            }
        }
        None
    }

    /// The number of a cell.
    pub fn get(&self, cell: u32) -> u32
        requires { cell / 256 < size self.now }
        ensures { result ≡ kept self.now cell }
    {
        match self.find(cell / 256) {
            None => 0,
            Some(PageAt::Words(at)) => self.words[at as usize].values[(cell % 256 / 4) as usize],
            Some(PageAt::Cells(at)) => self.cells[at as usize].values[(cell % 256) as usize],
        }
    }

    /// Whether the cells of one page, from the first to before the last, are seen to have no number above the bound.
    fn is_part_at_most(&self, from: u32, to: u32, bound: u32) -> bool
        requires order { from < to }
        requires page { to ≤ from / 256 * 256 + 256 }
        requires within { from / 256 < size self.now }
        ensures { IsTrue result → (c : ℕ) → from ≤ c → c < to → kept self.now c ≤ bound }
    {
        let first = (from % 256) as usize;
        let last = first + (to - from) as usize;
        match self.find(from / 256) {
            None => true,
            Some(PageAt::Words(at)) => {
                let values = &self.words[at as usize].values;
                are_at_most(values, first / 4, (last - 1) / 4 + 1, bound)
            }
            Some(PageAt::Cells(at)) => {
                are_at_most(&self.cells[at as usize].values, first, last, bound)
            }
        }
    }

    /// Whether the cells of one page are seen to have this number.
    #[inline(always)]
    fn is_part_all(&self, from: u32, to: u32, value: u32) -> bool
        requires order { from < to }
        requires page { to ≤ from / 256 * 256 + 256 }
        requires within { from / 256 < size self.now }
        ensures { IsTrue result → (c : ℕ) → from ≤ c → c < to → kept self.now c ≡ value }
    {
        let first = (from % 256) as usize;
        let last = first + (to - from) as usize;
        match self.find(from / 256) {
            None => false,
            Some(PageAt::Words(at)) => {
                are_words(&self.words[at as usize].values, first, last, value)
            }
            Some(PageAt::Cells(at)) => are_all(&self.cells[at as usize].values, first, last, value),
        }
    }

    /// Whether no cell, from the first to before the last, has a number above the bound.
    pub fn is_at_most(&self, from: u32, to: u32, bound: u32) -> bool
        requires order { from ≤ to }
        requires within { to ≤ 256 * size self.now }
        requires small { to ≤ 4000000000 }
        ensures { IsTrue result → (c : ℕ) → from ≤ c → c < to → kept self.now c ≤ bound }
    {
        let mut at = from;
        while at < to {
            let stop = to.min(at / 256 * 256 + 256);
            if !self.is_part_at_most(at, stop, bound) {
                return false;
            }
            at = stop;
        }
        true
    }

    /// The same of a few cells, of which none lies past the eight in a row that the first is one of.
    #[inline(always)]
    pub fn is_at_most_of_few(&self, from: u32, len: u32, bound: u32) -> bool
        requires some { 1 ≤ len }
        requires few { from % 8 + len ≤ 8 }
        requires within { from < 256 * size self.now }
        ensures { IsTrue result → (c : ℕ) → from ≤ c → c < from + len → kept self.now c ≤ bound }
    {
        let first = (from % 256) as usize;
        let len = len as usize;
        match self.find(from / 256) {
            None => true,
            Some(PageAt::Words(at)) => {
                are_few_words_at_most(&self.words[at as usize].values, first, len, bound)
            }
            Some(PageAt::Cells(at)) => {
                are_at_most(&self.cells[at as usize].values, first, first + len, bound)
            }
        }
    }

    /// Whether each cell, from the first to before the last, has this number; `false` may be answered for a page that isn't there.
    #[inline(always)]
    pub fn is_all(&self, from: u32, to: u32, value: u32) -> bool
        requires order { from ≤ to }
        requires within { to ≤ 256 * size self.now }
        requires small { to ≤ 4000000000 }
        ensures { IsTrue result → (c : ℕ) → from ≤ c → c < to → kept self.now c ≡ value }
    {
        if from < to && to - from <= 256 - from % 256 {
            return self.is_part_all(from, to, value);
        }
        self.are_parts_all(from, to, value)
    }

    /// The same of a few cells, of which none lies past the eight in a row that the first is one of.
    #[inline(always)]
    pub fn is_all_of_few(&self, from: u32, len: u32, value: u32) -> bool
        requires some { 1 ≤ len }
        requires few { from % 8 + len ≤ 8 }
        requires within { from < 256 * size self.now }
        ensures { IsTrue result → (c : ℕ) → from ≤ c → c < from + len → kept self.now c ≡ value }
    {
        let first = (from % 256) as usize;
        let len = len as usize;
        match self.find(from / 256) {
            None => false,
            Some(PageAt::Words(at)) => {
                are_few_words(&self.words[at as usize].values, first, len, value)
            }
            Some(PageAt::Cells(at)) => are_few(&self.cells[at as usize].values, first, len, value),
        }
    }

    // The same of the cells of several pages.
    #[inline(never)]
    fn are_parts_all(&self, from: u32, to: u32, value: u32) -> bool
        requires order { from ≤ to }
        requires within { to ≤ 256 * size self.now }
        requires small { to ≤ 4000000000 }
        ensures { IsTrue result → (c : ℕ) → from ≤ c → c < to → kept self.now c ≡ value }
    {
        let mut at = from;
        while at < to {
            let stop = to.min(at / 256 * 256 + 256);
            if !self.is_part_all(at, stop, value) {
                return false;
            }
            at = stop;
        }
        true
    }

    /// Makes a page, if it isn't there.
    fn make_page(&mut self, page: u32) -> Result<(), AllocError>
        requires { page < size self.old }
        ensures size { size self.new ≡ size self.old }
        ensures same { (c : ℕ) → kept self.new c ≡ kept self.old c }
        ensures there { OnOk result (IsThere self.new page) }
        ensures stays { (p : ℕ) → IsThere self.old p → IsThere self.new p }
        ensures split { (p : ℕ) → IsSplit self.old p → IsSplit self.new p }
    {
        if let Some(_at) = self.find(page) {
            return Ok(());
        }
        self.list(page)?;
        self.add_page(page)
    }

    /// Lets the index go on to a page.
    fn list(&mut self, page: u32) -> Result<(), AllocError>
        ensures size { size self.new ≡ size self.old }
        ensures listed { OnOk result (page < length self.new.index.items) }
        ensures same { (c : ℕ) → kept self.new c ≡ kept self.old c }
        ensures stays { (p : ℕ) → IsThere self.old p → IsThere self.new p }
        ensures split { (p : ℕ) → IsSplit self.old p → IsSplit self.new p }
        ensures away { (p : ℕ) → IsThere self.new p → IsThere self.old p }
    {
        grow(&mut self.index, page as usize + 1)
    }

    /// Makes a page that isn't there.
    fn add_page(&mut self, page: u32) -> Result<(), AllocError>
        requires listed { page < length self.old.index.items }
        requires away { IsThere self.old page → ⊥ }
        ensures size { size self.new ≡ size self.old }
        ensures same { (c : ℕ) → kept self.new c ≡ kept self.old c }
        ensures there { OnOk result (IsThere self.new page) }
        ensures stays { (p : ℕ) → IsThere self.old p → IsThere self.new p }
        ensures split { (p : ℕ) → IsSplit self.old p → IsSplit self.new p }
    {
        let at = self.words.len();
        if at > 0xffff_ffff {
            return Err(AllocError);
        }
        self.words.push(WordPage {
            number: page,
            split: None,
            values: [0; 64],
        })?;
        self.index[page as usize] = at as u32;
        Ok(())
    }

    /// Gives each cell of a page that is there a number of its own, if it has none.
    fn split(&mut self, page: u32) -> Result<(), AllocError>
        requires page { page < size self.old }
        requires there { IsThere self.old page }
        ensures size { size self.new ≡ size self.old }
        ensures same { (c : ℕ) → kept self.new c ≡ kept self.old c }
        ensures there { OnOk result (IsSplit self.new page) }
        ensures stays { (p : ℕ) → IsThere self.old p → IsThere self.new p }
        ensures split { (p : ℕ) → IsSplit self.old p → IsSplit self.new p }
    {
        match self.find(page) {
            Some(PageAt::Words(at)) => {
                let values = spread(&self.words[at as usize].values);
                self.put_cells(page, at, values)
            }
            Some(PageAt::Cells(_to)) => Ok(()),
            None => Ok(()),
        }
    }

    /// Gives each cell of a page its own number, the one that it has.
    fn put_cells(&mut self, page: u32, at: u32, values: [u32; 256]) -> Result<(), AllocError>
        requires place { StandsInWords self.old page at }
        requires values { (c : ℕ) → c / 256 ≡ page → slice_index values (c % 256) ≡ kept self.old c }
        ensures size { size self.new ≡ size self.old }
        ensures same { (c : ℕ) → kept self.new c ≡ kept self.old c }
        ensures there { OnOk result (IsSplit self.new page) }
        ensures stays { (p : ℕ) → IsThere self.old p → IsThere self.new p }
        ensures split { (p : ℕ) → IsSplit self.old p → IsSplit self.new p }
    {
        let to = self.cells.len();
        if to > 0xffff_ffff {
            return Err(AllocError);
        }
        self.cells.push(CellPage {
            number: page,
            values,
        })?;
        self.words[at as usize].split = Some(to as u32);
        Ok(())
    }

    /// Makes the page of cells of one page, so that they can be filled.
    fn make_part(&mut self, from: u32, to: u32) -> Result<(), AllocError>
        requires page { to ≤ from / 256 * 256 + 256 }
        requires within { from / 256 < size self.old }
        ensures size { size self.new ≡ size self.old }
        ensures same { (c : ℕ) → kept self.new c ≡ kept self.old c }
        ensures ready { OnOk result (IsReady self.new from to) }
        ensures stays { (p : ℕ) → IsThere self.old p → IsThere self.new p }
        ensures split { (p : ℕ) → IsSplit self.old p → IsSplit self.new p }
    {
        self.make_page(from / 256)?;
        if from % 4 == 0 && to % 4 == 0 {
            return Ok(());
        }
        self.split(from / 256)
    }

    /// Makes the pages of the cells from the first to before the last, so that they can be filled. No number changes.
    pub fn make(&mut self, from: u32, to: u32) -> Result<(), AllocError>
        requires order { from ≤ to }
        requires within { to ≤ 256 * size self.old }
        requires small { to ≤ 4000000000 }
        ensures size { size self.new ≡ size self.old }
        ensures same { (c : ℕ) → kept self.new c ≡ kept self.old c }
        ensures ready { OnOk result (IsReady self.new from to) }
        ensures stays { (p : ℕ) → IsThere self.old p → IsThere self.new p }
        ensures split { (p : ℕ) → IsSplit self.old p → IsSplit self.new p }
    {
        let mut at = from;
        while at < to {
            let stop = to.min(at / 256 * 256 + 256);
            self.make_part(at, stop)?;
            at = stop;
        }
        Ok(())
    }

    /// Puts a number at the cells of one page, which are made ready.
    fn fill_part(&mut self, from: u32, to: u32, value: u32)
        requires order { from < to }
        requires page { to ≤ from / 256 * 256 + 256 }
        requires within { from / 256 < size self.old }
        requires ready { IsReady self.old from to }
        ensures size { size self.new ≡ size self.old }
        ensures stays { (p : ℕ) → IsThere self.old p → IsThere self.new p }
        ensures split { (p : ℕ) → IsSplit self.old p → IsSplit self.new p }
        ensures filled { (c : ℕ) → kept self.new c ≡
            (if nat_le from c && nat_lt c to then value else kept self.old c) }
    {
        match self.find(from / 256) {
            None => {}
            Some(PageAt::Words(at)) => self.fill_words(at, from, to, value),
            Some(PageAt::Cells(at)) => self.fill_cells(at, from, to, value),
        }
    }

    // The same of a page in which four cells in a row have one number.
    fn fill_words(&mut self, at: u32, from: u32, to: u32, value: u32)
        requires order { from < to }
        requires page { to ≤ from / 256 * 256 + 256 }
        requires place { StandsInWords self.old (from / 256) at }
        requires ready { IsReady self.old from to }
        ensures size { size self.new ≡ size self.old }
        ensures stays { (p : ℕ) → IsThere self.old p → IsThere self.new p }
        ensures split { (p : ℕ) → IsSplit self.old p → IsSplit self.new p }
        ensures filled { (c : ℕ) → kept self.new c ≡
            (if nat_le from c && nat_lt c to then value else kept self.old c) }
    {
        let first = (from % 256) as usize;
        let last = first + (to - from) as usize;
        fill(
            &mut self.words[at as usize].values,
            first / 4,
            last / 4,
            value,
        );
    }

    // The same of a page in which each cell has its own.
    fn fill_cells(&mut self, at: u32, from: u32, to: u32, value: u32)
        requires order { from < to }
        requires page { to ≤ from / 256 * 256 + 256 }
        requires place { StandsInCells self.old (from / 256) at }
        ensures size { size self.new ≡ size self.old }
        ensures stays { (p : ℕ) → IsThere self.old p → IsThere self.new p }
        ensures split { (p : ℕ) → IsSplit self.old p → IsSplit self.new p }
        ensures filled { (c : ℕ) → kept self.new c ≡
            (if nat_le from c && nat_lt c to then value else kept self.old c) }
    {
        let first = (from % 256) as usize;
        let last = first + (to - from) as usize;
        fill(&mut self.cells[at as usize].values, first, last, value);
    }

    /// Puts a number at the cells from the first to before the last, which are made ready.
    pub fn fill(&mut self, from: u32, to: u32, value: u32)
        requires order { from ≤ to }
        requires within { to ≤ 256 * size self.old }
        requires small { to ≤ 4000000000 }
        requires ready { IsReady self.old from to }
        ensures size { size self.new ≡ size self.old }
        ensures stays { (p : ℕ) → IsThere self.old p → IsThere self.new p }
        ensures split { (p : ℕ) → IsSplit self.old p → IsSplit self.new p }
        ensures filled { (c : ℕ) → kept self.new c ≡
            (if nat_le from c && nat_lt c to then value else kept self.old c) }
    {
        let mut at = from;
        while at < to {
            let stop = to.min(at / 256 * 256 + 256);
            self.fill_part(at, stop, value);
            at = stop;
        }
    }

    // Puts a number at one word, or at two, of a page in which four cells in a row have one number.
    #[inline(always)]
    fn fill_two_words(&mut self, at: u32, from: u32, to: u32, value: u32)
        requires order { from < to }
        requires few { to ≤ from + 8 }
        requires page { to ≤ from / 256 * 256 + 256 }
        requires first { from % 4 ≡ 0 }
        requires last { to % 4 ≡ 0 }
        requires place { StandsInWords self.old (from / 256) at }
        ensures size { size self.new ≡ size self.old }
        ensures stays { (p : ℕ) → IsThere self.old p → IsThere self.new p }
        ensures split { (p : ℕ) → IsSplit self.old p → IsSplit self.new p }
        ensures filled { (c : ℕ) → kept self.new c ≡
            (if nat_le from c && nat_lt c to then value else kept self.old c) }
    {
        let first = (from % 256) as usize;
        let last = first + (to - from) as usize;
        fill_two(
            &mut self.words[at as usize].values,
            first / 4,
            last / 4,
            value,
        );
    }

    /// Puts a number at a few cells, of which none lies past the eight in a row that the first is one of, where they are seen to be
    /// made ready. Else it answers `false`, and nothing changes.
    #[inline(always)]
    pub fn fill_few(&mut self, from: u32, len: u32, value: u32) -> bool
        requires some { 1 ≤ len }
        requires few { from % 8 + len ≤ 8 }
        requires within { from < 256 * size self.old }
        requires small { from ≤ 4000000000 }
        ensures size { size self.new ≡ size self.old }
        ensures stays { (p : ℕ) → IsThere self.old p → IsThere self.new p }
        ensures split { (p : ℕ) → IsSplit self.old p → IsSplit self.new p }
        ensures filled { IsTrue result → (c : ℕ) → kept self.new c ≡
            (if nat_le from c && nat_lt c (from + len) then value else kept self.old c) }
        ensures unchanged { IsFalse result → self.new ≡ self.old }
    {
        match self.find(from / 256) {
            None => false,
            Some(PageAt::Words(at)) => {
                if from % 4 == 0 && len % 4 == 0 {
                    self.fill_two_words(at, from, from + len, value);
                    return true;
                }
                false
            }
            Some(PageAt::Cells(at)) => {
                self.fill_cells(at, from, from + len, value);
                true
            }
        }
    }
}
