// What a stack is.

ghost use Rattle.std.specs.Prelude.{◌≤◌, length, vec_capacity};

/// A stack of at most so many values as it was made for.
#[derive(Drop)]
pub struct Stack<T> {
    pub(crate) items: Vec<T>,
    pub(crate) room: usize,
    ghost fits: { room ≤ vec_capacity items },
    ghost few: { length items.items ≤ room },
}
