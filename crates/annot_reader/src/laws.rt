//! What holds of all interfaces.

ghost use Rattle.std.specs.Prelude.{◌≡◌, ◌+◌, ℕ, List, Option, Some, map, pos, is_some, length, slice_get};
ghost use Rattle.std.specs.Option.{option_map};
ghost use Rattle.c_builtins.specs.declared.builtin.Builtin.{Builtin};
ghost use Rattle.c_builtins.specs.Table.{first_source_function, number_of};
ghost use Rattle.annot_reader_rules.specs.Notes.{Annotated, Notes};
ghost use Rattle.annot_reader.specs.Builtins.{builtin_note};
ghost use Rattle.annot_reader.specs.Interface.{Interface};
ghost use Rattle.annot_reader.specs.Interfaces.{IsRead, SaysOf, annots_at, declared_at, guard_at, holds_at, is_face, notes_at};

/// A law: an interface says what the annotations say that were read, and of builtins what the table says.
pub fn interfaces_say_what_annotations_say()
    ensures faces { (cut : List ℕ) (a : Annotated) (i : Interface) (number : ℕ) → IsRead cut a i →
        is_some (annots_at i number) ≡ is_face cut a number }
    ensures declared { (cut : List ℕ) (a : Annotated) (i : Interface) (place : ℕ) (n : Notes) →
        IsRead cut a i → slice_get a.functions place ≡ Some n →
        SaysOf n (declared_at i (place + first_source_function)) }
    ensures holds { (cut : List ℕ) (a : Annotated) (i : Interface) (place : ℕ) (n : Notes) →
        IsRead cut a i → slice_get a.functions place ≡ Some n →
        holds_at i (place + first_source_function) ≡ map pos n.holds }
    ensures guards { (cut : List ℕ) (a : Annotated) (i : Interface) (place : ℕ) (m : Option ℕ) →
        IsRead cut a i → slice_get a.guards place ≡ Some m → guard_at i place ≡ option_map pos m }
    ensures builtins { (i : Interface) (b : Builtin) → notes_at i (number_of b) ≡ Some (builtin_note b) }
{}
