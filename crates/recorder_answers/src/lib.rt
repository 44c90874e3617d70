//! The results of calls of builtins and externals by code above the cut: the Rets with which their answers come up.
#![tactic(auto)]

mod answering;
mod giving;

pub use giving::give;
