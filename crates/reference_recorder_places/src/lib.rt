//! Where a block lies in a pool, found as the definition has it: the first place, from the first byte of the pool on, that none
//! of the live blocks meets.
#![tactic(auto)]

mod places;

pub use places::place_in;
