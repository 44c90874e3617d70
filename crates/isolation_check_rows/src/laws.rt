//! What first functions are.

ghost use Rattle.std.specs.Prelude.{◌≡◌, ◌↔◌, ◌+◌, ◌<◌, ◌≤◌, ℕ, Bool, true, List, Some, None, length, slice_index_or, []};
ghost use Rattle.std.specs.List.{Contains};
ghost use Rattle.cut_graph_rules.specs.declared.mention.Mention.{Mention};
ghost use Rattle.isolation_check_rows.specs.declared.kind.MentionKind.{MentionKind};
ghost use Rattle.isolation_check_rows.specs.Rows.{first_from, has, mention_of};
ghost use Rattle.isolation_check_rows.specs.Firsts.{IsFound, IsNowhere};

/// A law: the first function counts, mentions it, and has the least number of those; where there is none, none does.
pub fn first_functions_are_found()
    ensures found { (kind : MentionKind) (count : ℕ → Bool) (k number a : ℕ) (functions : List (List Mention)) →
        first_from kind count k number functions ≡ Some a → IsFound kind count k number functions a }
    ensures nowhere { (kind : MentionKind) (count : ℕ → Bool) (k number : ℕ) (functions : List (List Mention)) →
        first_from kind count k number functions ≡ None → IsNowhere kind count k number functions }
    ensures mentions { (kind : MentionKind) (k : ℕ) (ms : List Mention) →
        (has kind k ms ≡ true) ↔ Contains ms (mention_of kind k) }
{}
