//! Of what the annotations of a typed source speak.

ghost use Rattle.std.specs.Prelude.{◌≡◌};
ghost use Rattle.c_syntax.specs.Syntax.{Decls};
ghost use Rattle.c_types_rules.specs.Limits.{Typed, outcome};
ghost use Rattle.c_types_rules.specs.Sources.{Program};
ghost use Rattle.annot_reader_rules.specs.Cuts.{annotations};
ghost use Rattle.front_end_laws.specs.Annotations.{ReadOfAll};

/// A law: annotations that break no rule say something of each function and of each global of a typed source, in the order in which
/// the source declares them.
pub fn annotations_speak_of_all()
    ensures { (ds : Decls) (p : Program) → outcome ds ≡ Typed p → ReadOfAll p (annotations ds p) }
{}
