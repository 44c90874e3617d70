//! Which functions may run where. `h` is the function of number 16.

ghost use Rattle.std.specs.Prelude.{◌==◌, false};
ghost use Rattle.marks.specs.declared.side.Side.{Side};
ghost use Rattle.marks.specs.declared.side.Side.TheVariants.{Replay, System};
ghost use Rattle.cut_graph_rules.specs.MayRun.{MayRun};
ghost use Rattle.cut_graph_examples.specs.Sources.{mentions_in_source};
ghost use Rattle.cut_graph_examples.specs.Programs.{called_below, compared, compared_external, hidden, in_a_value, never_named, through_a_pointer, under_sizeof};

/// What is named may run, called or not; a function of the interface only below the cut.
pub fn names_pass_modes_on()
    ensures compared { MayRun (mentions_in_source compared) (λ f. false) 17 Replay 16 }
    ensures across { MayRun (mentions_in_source compared) (λ f. f == 16) 17 System 16 }
    ensures not_above { MayRun (mentions_in_source compared) (λ f. f == 16) 17 Replay 16 → ⊥ }
    ensures hidden { (side : Side) → MayRun (mentions_in_source hidden) (λ f. false) 17 side 16 → ⊥ }
    ensures under_sizeof { MayRun (mentions_in_source under_sizeof) (λ f. f == 17) 18 System 16 }
    ensures never { (side : Side) → MayRun (mentions_in_source never_named) (λ f. false) 17 side 16 → ⊥ }
{}

/// Functions that the value of a global names may run where the global is named. Globals in that value are followed no further.
pub fn values_pass_modes_on()
    ensures named { MayRun (mentions_in_source in_a_value) (λ f. f == 17) 18 System 16 }
    ensures no_further { (side : Side) → MayRun (mentions_in_source through_a_pointer) (λ f. f == 17) 18 side
        16 → ⊥ }
{}

/// An external that is only called below the cut doesn't run above it; one that is compared there may.
pub fn externals_are_named_as_functions_are()
    ensures below { MayRun (mentions_in_source called_below) (λ f. f == 17) 18 System 16 }
    ensures not_above { MayRun (mentions_in_source called_below) (λ f. f == 17) 18 Replay 16 → ⊥ }
    ensures compared { MayRun (mentions_in_source compared_external) (λ f. false) 17 Replay 16 }
{}
