//! The builtins and the types that they are declared with.

/// A function that every source may call without declaring it.
#[derive(Clone, Copy)]
pub enum Builtin {
    /// `void *r2_malloc(unsigned long n)`
    Malloc,
    /// `void r2_free(void *p)`
    Free,
    /// `int r2_spawn(int (*f)(void *), void *arg)`
    Spawn,
    /// `int r2_join(int t)`
    Join,
    /// `int r2_lock(int m)`
    Lock,
    /// `int r2_unlock(int m)`
    Unlock,
    /// `void r2_print(char *p, unsigned long n)`
    Print,
}

/// A type of a builtin's parameter or result.
#[derive(Clone, Copy)]
pub enum BuiltinType {
    Void,
    Int,
    UnsignedLong,
    /// `void *`
    VoidPointer,
    /// `char *`
    CharPointer,
    /// `int (*)(void *)`
    ThreadFunction,
}
