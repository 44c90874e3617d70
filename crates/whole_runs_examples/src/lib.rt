//! Small whole runs, by computation.
#![tactic(auto)]

mod crossings;
mod locks;
mod regions;
mod sums;

pub use crossings::{
    asks_in_order, calls_back_twice, calls_main_back, doubles, forbids, frees, hands_down, peeks,
    points_above, points_below, races_with_a_free, spawns, spawns_below,
};
pub use locks::{
    adds, is_cut_short, keeps_bytes_apart, names_the_least, puts_out_chunks, races,
    races_with_reads, shares_the_pool, waits,
};
pub use regions::{
    commits, commits_below, leaves_no_change, names_the_first, prepares, prepares_below, reads,
    reads_nothing, receives, repeats, repeats_its_own, restores,
};
pub use sums::{adds_up, divides, halts};
