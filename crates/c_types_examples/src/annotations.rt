//! Annotations.

ghost use Rattle.std.specs.Prelude.{◌≡◌, codes, [], ◌∷◌, true, false, Some, None};
ghost use Rattle.c_syntax.specs.declared.declaration.Base.TheVariants as bases;
ghost use Rattle.c_syntax.specs.Syntax.{NameAtom, NumberAtom, ReturnAtom};
ghost use Rattle.stub_core.specs.declared.terms.Term.TheVariants.{Const, Param, Return};
ghost use Rattle.c_types_examples.specs.Annotated.{annotated, parameter_of, rule_of, word, word_with};
ghost use Rattle.c_types_examples.specs.Small.{char_base, int_base};

/// What the annotations of a region say of its sizes: its capacity and what is used of it, or the size of what the
/// pointer points to.
pub fn regions_have_sizes()
    ensures filled { parameter_of (annotated [] (word (codes "out") ∷
        word_with (codes "cap") (NameAtom (codes "n")) ∷ word_with (codes "bsize") ReturnAtom ∷ [])
        char_base) ≡ Some (record {
          reads = None;
          writes =
              Some (record { a = Param 1; b = None }, record { a = Return; b = None });
          prepares = None;
          callback = false;
        }) }
    ensures own { parameter_of (annotated [] (word (codes "in") ∷ []) int_base) ≡
        Some (record {
          reads = Some (record { a = Const 4; b = None });
          writes = None;
          prepares = None;
          callback = false;
        }) }
    ensures both { parameter_of (annotated [] (word (codes "out") ∷
        word_with (codes "cap") (NumberAtom 9) ∷ []) bases.Void) ≡
        Some (record {
          reads = None;
          writes =
              Some (record { a = Const 9; b = None }, record { a = Const 9; b = None });
          prepares = None;
          callback = false;
        }) }
{}

/// Annotations keep their rules, or break them where they stand.
pub fn annotations_keep_their_rules()
    ensures unknown { rule_of (annotated (word (codes "pure") ∷ []) [] char_base) ≡ Some (1, 1) }
    ensures no_item { rule_of (annotated (word (codes "cut") ∷ []) [] char_base) ≡ Some (1, 1) }
    ensures cut_on_a_parameter { rule_of (annotated [] (word_with (codes "cut") (NameAtom (codes "a")) ∷
        []) char_base) ≡ Some (1, 1) }
    ensures twice { rule_of (annotated [] (word (codes "in") ∷ word (codes "in") ∷ []) char_base) ≡
        Some (1, 2) }
    ensures no_function { rule_of (annotated [] (word (codes "callback") ∷ []) char_base) ≡ Some (5, 3) }
    ensures no_integer { rule_of (annotated [] (word (codes "in") ∷
        word_with (codes "bsize") (NameAtom (codes "p")) ∷ []) char_base) ≡ Some (2, 4) }
    ensures no_capacity { rule_of (annotated [] (word (codes "out") ∷
        word_with (codes "bsize") ReturnAtom ∷ []) char_base) ≡ Some (5, 5) }
    ensures no_size { rule_of (annotated [] (word (codes "out") ∷ []) bases.Void) ≡ Some (5, 6) }
    ensures no_key { rule_of (annotated (word_with (codes "sync") (NumberAtom 1) ∷ []) [] char_base) ≡
        Some (2, 7) }
    ensures no_body { rule_of (annotated (word_with (codes "holds") (NumberAtom 1) ∷ []) [] char_base) ≡
        Some (1, 8) }
{}
