//! Flags of what has a number.

ghost use Rattle.std.specs.Prelude.{◌≡◌};
ghost use Rattle.cut_graph_paths.specs.Graphs.{flag};

/// Whether the number is flagged; none is past the end.
#[tactic(auto, using(crate::proofs::Parts::flag_inside, crate::proofs::Parts::flag_past))]
pub(crate) fn is_flagged(flags: &[bool], number: usize) -> bool
    ensures { result ≡ flag flags.now number }
{
    if number < flags.len() {
        flags[number]
    } else {
        false
    }
}
