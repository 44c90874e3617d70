//! What is known of a function beside its annotations.

use c_types_table::TypeId;

/// Which function it is, as far as its annotations ask.
#[derive(Clone, Copy)]
pub struct FunctionKind {
    /// It is the function where a program begins.
    pub is_main: bool,
    pub has_body: bool,
}

/// What is known of a function beside its annotations: its kind, and the numbers of the types of its result and of its parameters.
#[derive(Clone, Copy)]
pub struct Prototype<'a> {
    pub kind: FunctionKind,
    pub result: TypeId,
    pub params: &'a [TypeId],
}
