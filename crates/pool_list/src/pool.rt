// The pool: a sorted `Vec` of its live blocks, with room for as many as fit from the start.
ghost use Rattle.std.specs.Prelude.{◌≡◌, ℕ, ◌+◌, ◌%◌, ◌^◌, ◌<◌, ◌≤◌, [], IfSome, IfNone, IfOk, IsErr, OnErr, OnOk, ◌↔◌};
ghost use Rattle.pool_list.specs.Blocks.{IsLaidOut, length_at, with_block, without_block, IsAt};
ghost use Rattle.pool_list.specs.Places.{IsPlace, IsLeastPlace, IsGap};

use crate::Block;
use std::alloc::{AllocError, Global};
use std::marker::Model;
use thiserror::Error;

/// No live block begins at the address that was given.
#[derive(Clone, Copy, Debug, Error)]
#[error("no live block begins there")]
pub struct NotLive;

/// The live blocks of `size` bytes from `base` on, each at a multiple of 16.
#[derive(Drop)]
pub struct Pool {
    base: u64,
    size: u64,
    blocks: Vec<Block>,
}

impl Model for Pool {
    ghost use Rattle.std.specs.Vec.{vec_capacity};
    ghost use Rattle.pool_list.specs.Blocks.{PoolState, IsKept};

    ghost Value = { PoolState };

    ghost view = { λ p. record { base = p.base; size = p.size; blocks = p.blocks.items } };

    ghost invariant = { λ p. IsKept p.base p.size (vec_capacity p.blocks) p.blocks.items };
}

impl Pool {
    /// An empty pool of `size` bytes, 16 to 1 MiB. It takes the memory for all the blocks that it may ever have.
    pub fn new(alloc: Global, base: u64, size: u64) -> Result<Pool, AllocError>
        requires base_aligned { base % 16 ≡ 0 }
        requires size_aligned { size % 16 ≡ 0 }
        requires not_empty { 16 ≤ size }
        requires at_most_a_mebibyte { size ≤ 1048576 }
        requires ends { base + size < 2 ^ 64 }
        ensures { IfOk result (λ pool. pool ≡ record { base = base; size = size; blocks = [] }) }
    {
        let blocks = Vec::with_capacity(alloc, (size / 16) as usize)?;
        Ok(Pool { base, size, blocks })
    }

    /// The length of the live block that begins at `addr`; `None` where none does.
    pub fn length(&self, addr: u64) -> Option<u64>
        ensures length { result ≡ length_at self.now.blocks addr }
        ensures laid_out { IsLaidOut self.now }
    {
        let at = self.search(addr)?;
        Some(self.blocks[at].len)
    }

    /// Makes the block at `addr` free and answers its length; `NotLive` where no live block begins there.
    pub fn give(&mut self, addr: u64) -> Result<u64, NotLive>
        ensures length { IfOk result (λ len. length_at self.old.blocks addr ≡ Some len) }
        ensures not_live { IsErr result ↔ (length_at self.old.blocks addr ≡ None) }
        ensures given { OnOk result (self.new ≡
            record self.old { blocks = without_block self.old.blocks addr }) }
        ensures unchanged { OnErr result (self.new ≡ self.old) }
        ensures laid_out { IsLaidOut self.new }
    {
        let Some(at) = self.search(addr) else {
            return Err(NotLive);
        };
        let block = self.blocks.remove(at);
        Ok(block.len)
    }

    /// Makes `n` bytes, at least 1, a live block at the least place where they fit, and answers its address;
    /// `None` where they fit nowhere.
    pub fn take(&mut self, n: u64) -> Option<u64>
        requires { 1 ≤ n }
        ensures place { IfSome result (IsLeastPlace self.old n) }
        ensures taken { IfSome result (λ addr. self.new ≡
            record self.old { blocks = with_block self.old.blocks (record { addr = addr; len = n }) }) }
        ensures no_place { IfNone result ((addr : ℕ) → ¬ IsPlace self.old n addr) }
        ensures unchanged { IfNone result (self.new ≡ self.old) }
        ensures laid_out { IsLaidOut self.new }
    {
        let (at, addr) = self.first_gap(n)?;
        match self.blocks.insert(at, Block { addr, len: n }) {
            Ok(()) => Some(addr),
            Err(_) => unreachable!("the pool has room for as many blocks as fit"),
        }
    }

    // Where the block that begins at `addr` stands in the list.
    fn search(&self, addr: u64) -> Option<usize>
        ensures found { IfSome result (IsAt self.now.blocks addr) }
        ensures absent { IfNone result (length_at self.now.blocks addr ≡ None) }
        ensures laid_out { IsLaidOut self.now }
    {
        self.blocks
            .binary_search_by_key(&addr, |block| block.addr)
            .ok()
    }

    // The least place for `n` bytes, and where a block there stands in the list.
    fn first_gap(&self, n: u64) -> Option<(usize, u64)>
        requires { 1 ≤ n }
        ensures gap { IfSome result (λ gap. IsGap self.now n gap.0 gap.1) }
        ensures none { IfNone result ((addr : ℕ) → ¬ IsPlace self.now n addr) }
    {
        let mut addr = self.base;
        for (at, block) in self.blocks.iter().enumerate() {
            if block.addr - addr >= n {
                return Some((at, addr));
            }
            addr = (block.addr + block.len).next_multiple_of(16);
        }
        let end = self.base + self.size;
        if end - addr >= n {
            Some((self.blocks.len(), addr))
        } else {
            None
        }
    }
}
