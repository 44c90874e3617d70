//! Functions and calls.

ghost use Rattle.std.specs.Prelude.{◌≡◌, ◌==◌, codes, [], ◌∷◌, Some};
ghost use Rattle.lockset_check_rules.specs.declared.finding.LockFinding.TheVariants.{Address, ReturnLocks, Unheld, UnlockUnheld};
ghost use Rattle.lockset_check_examples.specs.Found.{found, found_where};
ghost use Rattle.lockset_check_examples.specs.Further.{locked_in_argument, unlocked_by_return, unlocked_in_argument};
ghost use Rattle.lockset_check_examples.specs.Programs.{called_by_pointer, called_freely, called_with, called_without, lent_and_given_back, lent_and_unlocked, locks_alone, locks_and_unlocks, named_in_a_value, nothing_guarded, spawned_by_number, unlocked_at_the_end, unlocked_in_brackets, unlocks_alone};

/// A function with callers that hold a mutex is called by its name, where all of them are held.
pub fn calls_keep_what_is_held()
    ensures without { found called_without ≡ Some (Unheld 60 (codes "f") ∷ []) }
    ensures argument { found locked_in_argument ≡ Some [] }
    ensures not_argument { found unlocked_in_argument ≡ Some (Unheld 60 (codes "f") ∷ []) }
    ensures held { found called_with ≡ Some [] }
    ensures pointer { found called_by_pointer ≡ Some (Address 54 (codes "f") ∷ []) }
    ensures freely { found called_freely ≡ Some [] }
    ensures number { found spawned_by_number ≡ Some [] }
    ensures value { found named_in_a_value ≡ Some (Address 89 (codes "f") ∷ []) }
{}

/// A function ends with what is held at its start, and unlocks only what is held.
pub fn functions_keep_what_is_held()
    ensures lent { found lent_and_unlocked ≡ Some (ReturnLocks 90 ∷ []) }
    ensures by_return { found unlocked_by_return ≡ Some (ReturnLocks 30 ∷ []) }
    ensures end { found unlocked_at_the_end ≡ Some (ReturnLocks 20 ∷ []) }
    ensures given_back { found lent_and_given_back ≡ Some [] }
    ensures unlocked { found unlocks_alone ≡ Some (UnlockUnheld 22 ∷ []) }
    ensures locked { found locks_alone ≡ Some (ReturnLocks 90 ∷ []) }
    ensures both { found locks_and_unlocks ≡ Some [] }
    ensures brackets { found unlocked_in_brackets ≡ Some (UnlockUnheld 41 ∷ []) }
    ensures unguarded { found nothing_guarded ≡ Some [] }
    ensures not_run { found_where (λ number. number == 17) unlocks_alone ≡ Some [] }
{}
