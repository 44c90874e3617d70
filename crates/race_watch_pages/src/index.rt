//! An index of pages: by page, where it stands. Past its end it counts as zeros.

ghost use Rattle.std.specs.Prelude.{◌≡◌, ◌≤◌, ℕ, length, slice_index, OnOk};

use std::alloc::AllocError;

/// Where a page stands if it is there.
#[inline(always)]
pub fn listed(index: &[u32], page: usize) -> u32
    ensures { result ≡ slice_index index.now page }
{
    match index.get(page) {
        Some(at) => *at,
        None => 0,
    }
}

/// Makes the index end no earlier than a place, with zeros after what it had. Without memory no number changes either.
pub fn grow(index: &mut Vec<u32>, to: usize) -> Result<(), AllocError>
    ensures len { OnOk result (to ≤ length index.new.items) }
    ensures same { (p : ℕ) → slice_index index.new.items p ≡ slice_index index.old.items p }
{
    if index.len() < to {
        index.resize(to, 0)?;
    }
    Ok(())
}
