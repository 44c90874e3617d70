// What a byte of memory shows.

/// A byte as a report shows it: in no live object, live and to be written below the cut, or live with a value.
#[derive(Clone, Copy)]
pub enum Cell {
    Dead,
    Pending,
    Byte(u8),
}
