//! Small cases, computed.

ghost use Rattle.std.specs.Prelude.{◌≡◌, ◌==◌, [], ◌∷◌, false};
ghost use Rattle.marks.specs.declared.side.Side.TheVariants.{Replay, System};
ghost use Rattle.c_types_model.specs.Types.{PointerTo};
ghost use Rattle.c_builtins.specs.declared.builtin.Builtin.TheVariants.{Lock};
ghost use Rattle.c_types_rules.specs.TypedTree.{AValue, AnObject, AddressOf, Assigned, BuiltinFunction, CallOf, FunctionAddress, MoreValues, NoValues, Old, ReadOf, SourceFunction, Stepped, Up, int};
ghost use Rattle.cut_graph_rules.specs.declared.mention.Mention.TheVariants.{Function, Global, Written};
ghost use Rattle.cut_graph_rules.specs.Mentions.{evaluated_mentions, unevaluated_mentions};
ghost use Rattle.cut_graph_rules.specs.Sources.{mentioned};
ghost use Rattle.cut_graph_rules.specs.MayRun.{MayRun};
ghost use Rattle.cut_graph_rules.specs.Cases.{element, element_of, one, pointed, row, row_of_grid, scalar, through_pointer};

/// What is assigned to, changed, or under `&` is written at the root of its path, by subscripts in either order; what a
/// pointer leads to is no part of a global.
pub fn paths_are_written_at_their_roots()
    ensures assigned { evaluated_mentions (Assigned scalar one) ≡ Written 0 ∷ Global 0 ∷ [] }
    ensures stepped { evaluated_mentions (Stepped scalar Up Old 1) ≡ Written 0 ∷ Global 0 ∷ [] }
    ensures address { evaluated_mentions (AddressOf scalar (PointerTo int)) ≡ Written 0 ∷ Global 0 ∷ [] }
    ensures subscripted { evaluated_mentions (Assigned element one) ≡ Written 0 ∷ Global 0 ∷ [] }
    ensures in_other_order { evaluated_mentions (Assigned element_of one) ≡ Written 0 ∷ Global 0 ∷ [] }
    ensures through { evaluated_mentions (Assigned through_pointer one) ≡ Global 0 ∷ [] }
    ensures unevaluated { unevaluated_mentions (AValue (Assigned scalar one) ∷ []) ≡
        Written 0 ∷ Global 0 ∷ [] }
{}

/// The name of an array counts as written where it stands alone: neither subscripted, nor below `sizeof`.
pub fn arrays_that_stand_alone_are_written()
    ensures alone { evaluated_mentions (ReadOf pointed) ≡ Written 0 ∷ Global 0 ∷ [] }
    ensures subscripted { evaluated_mentions (ReadOf element) ≡ Global 0 ∷ [] }
    ensures part { evaluated_mentions (AddressOf row_of_grid (PointerTo int)) ≡ Global 0 ∷ [] }
    ensures sized { unevaluated_mentions (AnObject row ∷ []) ≡ Global 0 ∷ [] }
    ensures below_sizeof { unevaluated_mentions (AnObject pointed ∷ []) ≡ Global 0 ∷ [] }
{}

/// Functions are mentioned by name, called or not, evaluated or not.
pub fn functions_are_mentioned_by_name()
    ensures called { evaluated_mentions (CallOf (SourceFunction 1 16) NoValues int) ≡ Function 16 ∷ [] }
    ensures not_called { evaluated_mentions (FunctionAddress 1 16 int) ≡ Function 16 ∷ [] }
    ensures builtin { evaluated_mentions (CallOf (BuiltinFunction 1 Lock) (MoreValues one NoValues) int) ≡
        Function 4 ∷ [] }
    ensures unevaluated { unevaluated_mentions (AValue (CallOf (SourceFunction 1 16) NoValues int) ∷ []) ≡
        Function 16 ∷ [] }
{}

/// Where `main` is 17, it gives a function that it names system mode where that is of the interface, and else its own, also
/// where the function is named in the value of a global.
pub fn names_pass_modes_on()
    ensures crosses { MayRun (mentioned ([] ∷ (Function 16 ∷ []) ∷ []) []) (λ f. f == 16) 17 System 16 }
    ensures in_value { MayRun (mentioned ([] ∷ (Global 0 ∷ []) ∷ []) ((Function 16 ∷ []) ∷ []))
        (λ f. false) 17 Replay 16 }
{}
