//! Keys: what orders events of different threads.

ghost use Rattle.std.specs.Prelude.{◌≡◌};
ghost use Rattle.run_events.specs.Class.{number_of, word_of};

/// What the value of a key names.
#[derive(Clone, Copy, PartialEq, Eq)]
pub enum Class {
    /// A mutex of the program.
    Mutex,
    /// A value that the annotations say two calls share.
    User,
    /// A function that was handed down to be called back.
    Callback,
    /// A thread, at its end and where another one waits for it.
    Thread,
    /// The pool of blocks.
    Pool,
    /// The printed output.
    Out,
    /// A region that is filled after the call that handed it down.
    Async,
}

impl Class {
    /// The number of the class, 1 to 7. Keys are sorted by it, and logs hold it.
    pub fn number(self) -> u8
        ensures { result ≡ number_of self }
    {
        match self {
            Class::Mutex => 1,
            Class::User => 2,
            Class::Callback => 3,
            Class::Thread => 4,
            Class::Pool => 5,
            Class::Out => 6,
            Class::Async => 7,
        }
    }

    /// The word that printed text has for the class.
    pub fn word(self) -> &'static str
        ensures { result.now ≡ word_of self }
    {
        match self {
            Class::Mutex => "mutex",
            Class::User => "user",
            Class::Callback => "callback",
            Class::Thread => "thread",
            Class::Pool => "pool",
            Class::Out => "out",
            Class::Async => "async",
        }
    }
}

/// What events have in common that happen one after the other.
#[derive(Clone, Copy, PartialEq, Eq)]
pub struct Key {
    pub class: Class,
    pub value: u64,
}

/// A key at an event. Its ticket is the number of earlier events that have the key.
#[derive(Clone, Copy, PartialEq, Eq)]
pub struct KeyMark {
    pub key: Key,
    pub ticket: u32,
}
