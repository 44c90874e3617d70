// What holds of every token list.

ghost use Rattle.std.specs.Prelude.{◌≡◌};
ghost use Rattle.c_lexer.specs.declared.token.Token.{Token};
ghost use Rattle.c_syntax.specs.Sources.{Spells};
ghost use Rattle.c_syntax.specs.Syntax.{Decls};
ghost use Rattle.std.specs.Prelude.{List};

/// Tokens are those of one source at most.
pub fn one_tree()
    ensures { (ts : List Token) (x y : Decls) → Spells ts x → Spells ts y → x ≡ y }
{}
