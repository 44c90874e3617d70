//! What holds of all interfaces that were read.

ghost use Rattle.std.specs.Prelude.{◌≡◌, ℕ, List, length};
ghost use Rattle.c_scopes.specs.Scopes.{Scope};
ghost use Rattle.c_types_rules.specs.Environment.{Meaning};
ghost use Rattle.c_types_program.specs.Declarations.{Declared};
ghost use Rattle.c_types_program.specs.Programs.{program_in};
ghost use Rattle.annot_reader_rules.specs.Notes.{Annotated};
ghost use Rattle.annot_reader.specs.Interface.{Interface};
ghost use Rattle.annot_reader.specs.Interfaces.{IsRead};
ghost use Rattle.lockset_check_rules.specs.Annotations.{guarded};
ghost use Rattle.lockset_check.specs.Answers.{guarded_by};

use annot_reader::interfaces_say_what_annotations_say;

/// A law: where annotations were read of each function and global of a program, the check rests on what they say.
pub fn guards_are_what_annotations_say()
    ensures { (cut : List ℕ) (a : Annotated) (p : Declared) (names : Scope Meaning) (i : Interface) →
        IsRead cut a i → length a.functions ≡ length p.functions → length a.guards ≡ length p.globals →
        guarded_by p i ≡ guarded (program_in p names) a }
{
    interfaces_say_what_annotations_say();
}
