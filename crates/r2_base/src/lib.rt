//! What a program has of the outside: files by name and sinks for bytes, with their implementations in memory, and
//! numbers as text.
#![tactic(auto)]

mod fault;
mod held;
mod hex;
mod mem_files;
mod numbers;
mod outside;
mod sinks;
mod sure_files;

pub use fault::Fault;
pub use hex::hex_digit;
pub use mem_files::MemFiles;
pub use numbers::{put_dec, put_hex, read_dec};
pub use outside::{Files, Sink};
pub use sinks::{MemSink, SureSink};
pub use sure_files::SureFiles;
