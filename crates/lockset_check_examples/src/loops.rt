//! Loops.

ghost use Rattle.std.specs.Prelude.{◌≡◌, codes, [], ◌∷◌, Some};
ghost use Rattle.lockset_check_rules.specs.declared.finding.LockFinding.TheVariants.{LoopLocks, Unheld};
ghost use Rattle.lockset_check_examples.specs.Found.{found};
ghost use Rattle.lockset_check_examples.specs.Further.{inner_break, unlocked_at_continue, unlocked_by_do};
ghost use Rattle.lockset_check_examples.specs.Programs.{kept_by_rounds, locked_at_break, locked_before_rounds, locked_by_condition, locked_in_round, unlocked_by_condition};

/// A loop keeps what is held at its start, and after it that is held.
pub fn loops_keep_what_is_held()
    ensures by_condition { found unlocked_by_condition ≡ Some (LoopLocks 52 ∷ []) }
    ensures kept { found kept_by_rounds ≡ Some [] }
    ensures by_for { found locked_by_condition ≡ Some (LoopLocks 47 ∷ []) }
    ensures before { found locked_before_rounds ≡ Some [] }
    ensures in_round { found locked_in_round ≡ Some (LoopLocks 40 ∷ []) }
    ensures at_continue { found unlocked_at_continue ≡ Some (LoopLocks 52 ∷ []) }
    ensures by_inner_break { found inner_break ≡ Some [] }
    ensures by_do { found unlocked_by_do ≡ Some (LoopLocks 52 ∷ []) }
    ensures at_break { found locked_at_break ≡ Some (LoopLocks 40 ∷ Unheld 73 (codes "n") ∷ []) }
{}
