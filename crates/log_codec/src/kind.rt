//! What the bytes of a log say comes next.

/// The kinds of event.
#[derive(Clone, Copy)]
pub enum EventTag {
    Call,
    Ret,
    Up,
    UpRet,
    Alloc,
    Free,
    Stop,
}

/// The parts of a log after its head.
#[derive(Clone, Copy)]
pub enum Section {
    Chunk,
    End,
}
