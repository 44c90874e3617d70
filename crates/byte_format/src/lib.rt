//! Formats of bytes: readers from a slice to a value and the bytes after it, and their laws.
#![tactic(auto)]

mod bytes;
mod numbers;
mod stop;

pub use bytes::{byte_at, chars_at, count_at, flag_at, literal_at};
pub use numbers::{some_u16_at, u16_at, u32_at, u64_at};
pub use stop::Stop;
