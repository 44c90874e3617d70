//! That the memory of a run, as `Spaces` keeps it, is that of the whole run on both sides of the cut: laws, each the
//! contract of a function that does nothing.
#![tactic(auto)]

mod above_cut;
mod before_run;
mod below_cut;
mod own_marks;
mod refused;
mod returned;
mod same_memory;

pub use above_cut::{
    allocs_above_are_whole, bytes_kept_off_are_real, calls_above_are_whole, enters_above_are_whole,
    frees_above_are_whole, frees_of_null_above_are_whole, leaves_above_are_whole,
    real_memory_above, refused_allocs_above_are_whole, runs_seen_are_whole, stores_above_are_whole,
};
pub use before_run::new_memory_is_whole;
pub use below_cut::{
    allocs_below_are_whole, enters_below_are_whole, frees_below_are_whole,
    frees_of_null_below_are_whole, leaves_below_are_whole, pieces_grow,
    refused_allocs_below_are_whole, steps_are_whole, steps_begin_with_no_piece,
    stores_below_are_whole, writes_are_pieces,
};
pub use own_marks::{
    code_ends_innermost, leaves_innermost, returns_are_from_source, threads_answer_their_code,
    threads_are_few,
};
pub use refused::{
    free_refusals_below_are_findings, full_stacks_below_are_found, leaves_below_are_taken,
    long_pieces_are_found, missing_regions_are_found, pieces_to_nowhere_pass, reads_below_pass,
    refused_pieces_are_found, refused_reads_below_are_found, touch_refusals_are_findings,
    written_pieces_pass,
};
pub use returned::{
    answers_lie_in_regions, body_ret_refusals_are_findings, lacking_keys_are_found,
    long_committed_pieces_are_found, long_pieces_of_regions_are_found, regions_may_be_touched,
    ret_refusals_are_findings, rets_bring_what_is_there, returns_are_whole,
};
pub use same_memory::{
    copies_are_whole, frames_are_there, loads_are_whole, memory_above_is_real,
    plain_marks_leave_memory, plain_marks_leave_memory_above,
};
