//! Flat code: the instructions of a program, what its functions are, and which marks a thread of it can make.
#![tactic(auto)]

mod activation;
mod code;
mod instr;
mod laws;
mod lists;
mod shape;
mod values;

pub use activation::{Activation, Call, Waiting};
pub use code::{Code, FuncInfo};
pub use instr::{Change, Combine, Instr, Push};
pub use laws::{
    above_forgets, each_mark_is_wanted, marks_are_open, prefixes_are_lists, typed_code_forgets,
    valid_code_goes_on, what_is_expected_is_wanted,
};
pub use lists::Shapes;
pub use marks::Side;
pub use memory_map::{Bytes8, Place, Placed, THREADS};
pub use shape::Shape;
pub use values::convert;
