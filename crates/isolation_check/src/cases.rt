//! A small case, computed.

ghost use Rattle.std.specs.Prelude.{◌≡◌, ◌∷◌, ◌++◌, [], false, map, replicate, true};
ghost use Rattle.cut_graph_rules.specs.declared.mention.Mention.TheVariants.{Global, Written};
ghost use Rattle.isolation_check_rules.specs.declared.area.Area.TheVariants.{Constants, Replay, System};
ghost use Rattle.isolation_check.specs.Areas.{area_at};

/// Of two functions the first may run above the cut, the second below it. Each global lies by who mentions it: the first above
/// alone, the next on both sides, below alone, on both and written, not at all, and below alone and written.
pub fn globals_lie_by_who_mentions_them()
    ensures { map (area_at ((Global 0 ∷ Global 1 ∷ Global 3 ∷ []) ∷ (Global 1 ∷ Global 2 ∷ Global 3 ∷
        Written 3 ∷ Global 5 ∷ Written 5 ∷ []) ∷ []) (replicate 16 false ++ true ∷ false ∷ [])
        (replicate 16 false ++ false ∷ true ∷ [])) (0 ∷ 1 ∷ 2 ∷ 3 ∷ 4 ∷ 5 ∷ []) ≡
        Replay ∷ Constants ∷ System ∷ Replay ∷ Replay ∷ System ∷ [] }
{}
