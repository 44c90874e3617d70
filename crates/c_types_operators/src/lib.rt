//! What operators make of typed nodes, and which rules they break (C11 6.3 and 6.5).
#![tactic(auto)]

mod addresses;
mod arithmetic;
mod around;
mod arrays;
mod assignments;
mod between;
mod calls;
mod choices;
mod comparison;
mod compound;
mod conversions;
mod error;
mod indirection;
mod logic;
mod pointers;
mod prototypes;
mod queries;
mod steps;
mod subscripts;
mod unary;

pub use addresses::address;
pub use around::{postfixed, prefixed};
pub use arrays::{complete, length_of};
pub use assignments::assignment;
pub use between::binary;
pub use calls::{CallTarget, builtin_called, called, parameter};
pub use choices::choice;
pub use conversions::{assigned, cast};
pub use error::TypeError;
pub use indirection::pointed;
pub use prototypes::add_prototype;
pub use queries::size_of;
pub use steps::step;
pub use subscripts::subscript;
pub use unary::signed_operand;
