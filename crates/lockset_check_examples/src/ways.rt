//! Ways that join, and what no way leads to.

ghost use Rattle.std.specs.Prelude.{◌≡◌, codes, [], ◌∷◌, Some};
ghost use Rattle.lockset_check_rules.specs.declared.finding.LockFinding.TheVariants.{Unheld};
ghost use Rattle.lockset_check_examples.specs.Found.{found};
ghost use Rattle.lockset_check_examples.specs.Programs.{after_one_return, after_return, after_two_returns, kept_by_choice, kept_by_or, locked_again, locked_twice, unlocked_by_and, unlocked_by_choice, unlocked_one_way};

/// After ways that join, what all of them share is held.
pub fn ways_share_what_is_held()
    ensures by_if { found unlocked_one_way ≡ Some (Unheld 73 (codes "n") ∷ []) }
    ensures kept_by_if { found locked_again ≡ Some [] }
    ensures by_and { found unlocked_by_and ≡ Some (Unheld 73 (codes "n") ∷ []) }
    ensures kept_by_or { found kept_by_or ≡ Some [] }
    ensures by_choice { found unlocked_by_choice ≡ Some (Unheld 73 (codes "n") ∷ []) }
    ensures kept_by_choice { found kept_by_choice ≡ Some [] }
    ensures twice { found locked_twice ≡ Some [] }
{}

/// What stands after a statement that doesn't go on isn't looked at.
pub fn what_is_not_reached_is_not_looked_at()
    ensures one { found after_return ≡ Some [] }
    ensures both { found after_two_returns ≡ Some [] }
    ensures reached { found after_one_return ≡ Some (Unheld 73 (codes "n") ∷ []) }
{}
