//! The limits that a source may not exceed.
#![tactic(auto)]

mod limits;

pub use limits::{
    GREATEST_FRAME, GREATEST_OBJECT, MOST_BYTES, MOST_FUNCTIONS, MOST_HOLDERS, MOST_MEMBERS,
    MOST_NODES, MOST_PARAMS, MOST_VALUES,
};
