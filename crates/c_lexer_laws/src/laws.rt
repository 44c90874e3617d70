//! How long the strings of a source are.

ghost use Rattle.std.specs.Prelude.{ℕ, ◌≤◌, List, length};
ghost use Rattle.c_lexer.specs.declared.token.Token.{Token};
ghost use Rattle.c_lexer.specs.Lexing.{IsTokens};
ghost use Rattle.c_lexer_laws.specs.Strings.{spelled, strings_among};

/// A law: the bytes of a source spell all its strings, each with its two quotes.
pub fn strings_are_spelled()
    ensures { (source : List ℕ) (ts : List Token) → IsTokens source ts →
        spelled (strings_among ts) ≤ length source }
{}
