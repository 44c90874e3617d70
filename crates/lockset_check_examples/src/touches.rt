//! Mentions, loads and stores, addresses, and the arguments of locks.

ghost use Rattle.std.specs.Prelude.{◌≡◌, codes, [], ◌∷◌, Some};
ghost use Rattle.lockset_check_rules.specs.declared.finding.LockFinding.TheVariants.{Address, NotConstant, Unheld};
ghost use Rattle.lockset_check_examples.specs.Found.{found};
ghost use Rattle.lockset_check_examples.specs.Further.{named_mutex, part_is_address, pointed_is_address};
ghost use Rattle.lockset_check_examples.specs.Programs.{address_taken, array_is_address, changed_unheld, chosen_mutex, converted_mutex, divided_mutex, loaded_unheld, named_unheld, other_address, row_is_no_address, sequence_mutex, size_is_not_looked_at, stored_unheld, struct_not_loaded, touched_held, turned_unheld};

/// A guarded global is held where it is named, and where it is loaded or stored to.
pub fn touches_are_guarded()
    ensures held { found touched_held ≡ Some [] }
    ensures stored { found stored_unheld ≡ Some (Unheld 52 (codes "n") ∷ []) }
    ensures named { found named_unheld ≡ Some (Unheld 40 (codes "n") ∷ []) }
    ensures changed { found changed_unheld ≡ Some (Unheld 52 (codes "n") ∷ []) }
    ensures loaded { found loaded_unheld ≡ Some (Unheld 52 (codes "n") ∷ []) }
    ensures turned { found turned_unheld ≡ Some (Unheld 54 (codes "n") ∷ []) }
    ensures not_loaded { found struct_not_loaded ≡ Some [] }
    ensures size { found size_is_not_looked_at ≡ Some [] }
{}

/// No pointer is made to a guarded global.
pub fn addresses_are_found()
    ensures taken { found address_taken ≡
        Some (Address 53 (codes "n") ∷ Unheld 53 (codes "n") ∷ []) }
    ensures other { found other_address ≡ Some [] }
    ensures row { found row_is_no_address ≡ Some [] }
    ensures part { found part_is_address ≡ Some (Address 57 (codes "n") ∷ []) }
    ensures pointed { found pointed_is_address ≡ Some (Address 53 (codes "n") ∷ []) }
    ensures array { found array_is_address ≡ Some (Address 56 (codes "n") ∷ []) }
{}

/// Integer constant expressions name mutexes, as values of int.
pub fn constants_name_mutexes()
    ensures converted { found converted_mutex ≡ Some [] }
    ensures chosen { found chosen_mutex ≡ Some [] }
    ensures divided { found divided_mutex ≡ Some (NotConstant 40 ∷ []) }
    ensures named { found named_mutex ≡ Some (NotConstant 40 ∷ []) }
    ensures sequence { found sequence_mutex ≡ Some (NotConstant 40 ∷ []) }
{}
