//! A table of typed nodes that name each other by number.
#![tactic(auto)]

mod basics;
mod constants;
mod entry;
mod forms;
mod ids;
mod node;
mod number;
mod sorts;
mod table;
mod values;

pub use basics::BasicTypes;
pub use entry::Entry;
pub use ids::{Arguments, NodeId, NodeIds};
pub use node::{Given, Node, Sum, Way};
pub use number::Number;
pub use sorts::Sort;
pub use table::TypedTable;
