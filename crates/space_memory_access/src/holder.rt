// Who holds a region.
ghost use Rattle.std.specs.Prelude.{◌≡◌};

use memory_map::{Bytes8, Range};

/// A call that its thread has open: the thread, and how many calls it had open with this one.
#[derive(Clone, Copy)]
pub struct OpenCall {
    pub thread: u8,
    pub depth: u64,
}

/// What a region is held for: a call reads it, a call writes it, or it is prepared under a key, by a call that may
/// still be open.
#[derive(Clone, Copy)]
pub enum Holder {
    In(OpenCall),
    Out(OpenCall),
    Key { key: u64, by: Option<OpenCall> },
}

/// A region, with its bytes as they were when it was held to be written.
#[derive(Drop)]
pub struct Region {
    pub range: Range,
    pub before: Bytes8,
    pub holder: Holder,
}

impl OpenCall {
    ghost use Rattle.space_memory_access.specs.Holders.{is_same_call};

    /// Whether both are one call.
    pub fn is(self, other: OpenCall) -> bool
        ensures { result ≡ is_same_call self other }
    {
        self.thread == other.thread && self.depth == other.depth
    }
}

impl Holder {
    ghost use Rattle.space_memory_access.specs.Holders.{is_pending, serves, is_out_of, is_of, outlives, has_key, disowned};

    /// Whether replay code may not touch the region.
    pub fn is_pending(self) -> bool
        ensures { result ≡ is_pending self }
    {
        match self {
            Holder::In(_) => false,
            Holder::Out(_) | Holder::Key { .. } => true,
        }
    }

    /// Whether system code of the thread may read the region, or write it.
    pub fn serves(self, thread: u8, write: bool) -> bool
        ensures { result ≡ serves thread write self }
    {
        match self {
            Holder::In(call) => !write && call.thread == thread,
            Holder::Out(call) => call.thread == thread,
            Holder::Key { .. } => true,
        }
    }

    /// Whether the call holds the region to write it.
    pub fn is_out_of(self, call: OpenCall) -> bool
        ensures { result ≡ is_out_of call self }
    {
        match self {
            Holder::Out(holder) => holder.is(call),
            Holder::In(_) | Holder::Key { .. } => false,
        }
    }

    /// Whether the call holds the region, or, still open, has prepared it.
    pub fn is_of(self, call: OpenCall) -> bool
        ensures { result ≡ is_of call self }
    {
        match self {
            Holder::In(holder) | Holder::Out(holder) => holder.is(call),
            Holder::Key {
                by: Some(holder),
                ..
            } => holder.is(call),
            Holder::Key { by: None, .. } => false,
        }
    }

    /// Whether the region stays held once the call is closed, which may commit a key.
    pub fn outlives(self, call: OpenCall, commit: Option<u64>) -> bool
        ensures { result ≡ outlives call commit self }
    {
        match self {
            Holder::In(holder) | Holder::Out(holder) => !holder.is(call),
            Holder::Key { key, .. } => commit != Some(key),
        }
    }

    /// Whether the region is prepared under the key.
    pub fn has_key(self, key: u64) -> bool
        ensures { result ≡ has_key key self }
    {
        match self {
            Holder::Key { key: own, .. } => own == key,
            Holder::In(_) | Holder::Out(_) => false,
        }
    }

    /// The same, once the call is closed.
    pub fn disowned(self, call: OpenCall) -> Holder
        ensures { result ≡ disowned call self }
    {
        match self {
            Holder::Key {
                key,
                by: Some(holder),
            } if holder.is(call) => Holder::Key { key, by: None },
            holder => holder,
        }
    }
}
