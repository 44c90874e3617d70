//! What holds of accepted sources.

ghost use Rattle.std.specs.Prelude.{ℕ, ◌≤◌, List, length};
ghost use Rattle.source_limits.specs.Limits.{most_bytes};
ghost use Rattle.front_end.specs.declared.source.CheckedSource.{CheckedSource};
ghost use Rattle.front_end.specs.Answers.{IsAccepted};
ghost use Rattle.isolation_check.specs.Objects.{CanBePlaced};

use c_lexer_laws::strings_are_spelled;
use c_lower_laws::typed_programs_fit;
use isolation_check_laws::typed_globals_fit;

/// A law: the strings and globals of an accepted source of at most 1 MiB can be placed, in whatever cut.
pub fn accepted_sources_can_be_placed()
    ensures { (bytes cut : List ℕ) (c : CheckedSource) → length bytes ≤ most_bytes → IsAccepted bytes cut c →
        CanBePlaced c.program }
{
    strings_are_spelled();
    typed_programs_fit();
    typed_globals_fit();
}
