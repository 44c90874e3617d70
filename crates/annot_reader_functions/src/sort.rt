//! Sorts of types.

ghost use Rattle.std.specs.Prelude.{◌≡◌};
ghost use Rattle.annot_reader_functions.specs.Sorts.{is_function_pointer_sort, is_integer_sort, is_object_pointer_sort, is_scalar_sort, target_size as target_size_of};

/// What a pointer points to.
#[derive(Clone, Copy)]
pub enum Pointee {
    Function,
    /// An object, with its size in bytes where its type is complete. A size past 2^64 - 1 counts as 2^64 - 1.
    Object(Option<u64>),
}

/// Of which sort a type is, as far as annotations of a parameter ask.
#[derive(Clone, Copy)]
pub enum Sort {
    Integer,
    Pointer(Pointee),
    Other,
}

impl Sort {
    /// Whether it is that of integers.
    pub fn is_integer(self) -> bool
        ensures { result ≡ is_integer_sort self }
    {
        matches!(self, Sort::Integer)
    }

    /// Whether it is that of integers or of pointers (C11 6.2.5, 21).
    pub fn is_scalar(self) -> bool
        ensures { result ≡ is_scalar_sort self }
    {
        matches!(self, Sort::Integer | Sort::Pointer(_))
    }

    /// Whether it is that of pointers to objects, complete or not.
    pub fn is_object_pointer(self) -> bool
        ensures { result ≡ is_object_pointer_sort self }
    {
        matches!(self, Sort::Pointer(Pointee::Object(_)))
    }

    /// Whether it is that of pointers to functions.
    pub fn is_function_pointer(self) -> bool
        ensures { result ≡ is_function_pointer_sort self }
    {
        matches!(self, Sort::Pointer(Pointee::Function))
    }

    /// The size in bytes of what it points to; `None` where that isn't known, or where it doesn't point to an object.
    pub fn target_size(self) -> Option<u64>
        ensures { result ≡ target_size_of self }
    {
        match self {
            Sort::Pointer(Pointee::Object(size)) => size,
            _ => None,
        }
    }
}
