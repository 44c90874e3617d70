// A live block of a pool.

/// The bytes from `addr` on, `len` of them.
#[derive(Clone, Copy)]
pub struct Block {
    pub addr: u64,
    pub len: u64,
}
