//! The files of a run, and which calls on the outside fail in it.

use r2_base::{MemFiles, MemSink};
use std::alloc::{AllocError, Global};
use std::collections::BTreeMap;

/// What files hold, by name.
pub type Named = BTreeMap<String, Vec<u8>>;

/// Which calls of a run fail, each kind counted from 0, and how many bytes a read gives at most, at least 1.
#[derive(Drop)]
pub struct Faults {
    pub at_once: u64,
    /// Reads of files.
    pub reads: Vec<u64>,
    /// Calls that make a file empty or add to one.
    pub writes: Vec<u64>,
    /// Writes to standard output.
    pub out: Vec<u64>,
    /// Writes to standard error.
    pub err: Vec<u64>,
}

impl Faults {
    /// No call fails.
    pub fn none(alloc: Global) -> Faults {
        Faults {
            at_once: 100,
            reads: Vec::new(alloc),
            writes: Vec::new(alloc),
            out: Vec::new(alloc),
            err: Vec::new(alloc),
        }
    }
}

/// Files in memory that hold these, and whose calls with these numbers fail.
pub fn files_of(
    alloc: Global,
    named: &Named,
    at_once: u64,
    fail: Vec<u64>,
) -> Result<MemFiles, AllocError> {
    let mut files = MemFiles::new(alloc, at_once, fail);
    for (name, bytes) in named {
        files.hold(alloc, name.as_str(), bytes)?;
    }
    Ok(files)
}

/// A sink that was given nothing, and whose calls with these numbers fail.
pub fn sink_of(alloc: Global, fail: &[u64]) -> Result<MemSink, AllocError> {
    Ok(MemSink::new(alloc, Vec::from_slice(alloc, fail)?))
}

/// Puts down what the file of this name holds after a run, if there is one.
pub fn keep_file(
    alloc: Global,
    named: &mut Named,
    files: &MemFiles,
    name: &str,
) -> Result<(), AllocError> {
    if let Some(bytes) = files.file(name) {
        named.insert(
            String::from_str(alloc, name)?,
            Vec::from_slice(alloc, bytes)?,
        )?;
    }
    Ok(())
}
