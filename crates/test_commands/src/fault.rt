//! Why a line of a case file counts as a failure.

use std::alloc::{AllocError, AllocFailed};

/// Why a line of a case file counts as a failure.
#[derive(Drop)]
pub enum Fault {
    /// It is none of the forms.
    NoForm,
    /// No case has begun.
    NoCase,
    /// The file of the data that it names isn't there.
    NoData,
    /// The file that it names isn't there, or none is in hand.
    NoFile,
    /// The place isn't in the file.
    NoPlace,
    /// No run is there that it could speak of.
    NoRun,
    /// No mark says where the rule is broken.
    NoMark,
    /// Two files don't hold the same.
    NotSame,
    /// Something else is left than is wanted.
    Differs(String),
    Memory,
}

impl Fault {
    /// The words that are printed.
    pub fn words(&self) -> &str {
        match self {
            Fault::NoForm => "this has none of the forms",
            Fault::NoCase => "no case has begun",
            Fault::NoData => "no such file of the data",
            Fault::NoFile => "no such file",
            Fault::NoPlace => "no such place in the file",
            Fault::NoRun => "no run",
            Fault::NoMark => "no mark",
            Fault::NotSame => "the files aren't the same",
            Fault::Differs(words) => words.as_str(),
            Fault::Memory => "out of memory",
        }
    }
}

impl From<AllocError> for Fault {
    fn from(_e: AllocError) -> Fault {
        Fault::Memory
    }
}

impl<T: Drop> From<AllocFailed<T>> for Fault {
    fn from(_e: AllocFailed<T>) -> Fault {
        Fault::Memory
    }
}
