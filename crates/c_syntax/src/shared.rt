// A list that several nodes share.

ghost use Rattle.std.specs.Prelude.{◌≡◌, [], List, IfOk, option_map, unwrap_or};
ghost use Rattle.std.specs.Rc.{rc_slice_items};

use std::alloc::AllocError;
use std::marker::Model;
use std::rc::RcSlice;

/// What several nodes have alike, in the order of the source: one list in memory, however many share it. Contracts see it as a
/// list.
#[derive(Drop)]
pub struct SharedSeq<T> {
    /// `None` is the empty list, which takes no memory.
    items: Option<RcSlice<T>>,
}

impl<T> Model for SharedSeq<T> {
    ghost Value = { List T };

    ghost view = { λ s. unwrap_or (option_map rc_slice_items s.items) [] };
}

impl<T> SharedSeq<T> {
    /// No items.
    pub fn empty() -> SharedSeq<T>
        ensures { result ≡ [] }
    {
        SharedSeq { items: None }
    }

    /// Its items.
    pub fn as_slice(&self) -> &[T]
        ensures items { result.now ≡ self.now }
    {
        match &self.items {
            None => &[],
            Some(items) => items.as_slice(),
        }
    }
}

impl<T: Drop> SharedSeq<T> {
    /// A list of these items, which one node has so far.
    ///
    /// `AllocError` where there is no memory to share it by.
    pub fn from_vec(items: Vec<T>) -> Result<SharedSeq<T>, AllocError>
        ensures items { IfOk result (λ s. s ≡ items.items) }
    {
        if items.is_empty() {
            return Ok(SharedSeq::empty());
        }
        Ok(SharedSeq {
            items: Some(RcSlice::from_vec(items)?),
        })
    }

    /// The same list for one node more.
    ///
    /// `AllocError` where 2^64 - 1 nodes share it.
    pub fn share(&self) -> Result<SharedSeq<T>, AllocError>
        ensures items { IfOk result (λ s. s ≡ self.now) }
    {
        match &self.items {
            None => Ok(SharedSeq::empty()),
            Some(items) => Ok(SharedSeq {
                items: Some(items.clone()?),
            }),
        }
    }
}
