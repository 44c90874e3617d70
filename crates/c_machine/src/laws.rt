//! What holds of the lists of marks that a thread makes, as contracts of functions that do nothing.

ghost use Rattle.std.specs.Prelude.{ℕ, List};
ghost use Rattle.c_code.specs.Machine.{Laid, Config};
ghost use Rattle.c_code.specs.MarkLists.{Reading};
ghost use Rattle.c_machine.specs.Follows.{EachMarkIsFollowed};
ghost use Rattle.c_machine.specs.Makes.{EachCallIsMarks};

/// A law: a thread that is where its code is after some marks may be told of each mark that can follow, and is where its code is
/// after that. What it is told is a function of what is wanted, of where it is and of the answer that the mark gives: of the event of a
/// call by `cross`, of the frame of the function of a call by `run` and `feed`, of an Up by `go_up` at a call by system code and else
/// by `begin`, of a fault nothing, and of all else by `feed`.
pub fn each_mark_is_followed()
    ensures { (r : Reading) (l : Laid) (c : Config) → EachMarkIsFollowed r l c }
{}

/// A law: each call of a thread makes marks of its code, as far as the reading of what is below the cut has it.
pub fn each_call_is_marks()
    ensures { (r : Reading) (l : Laid) (depth : ℕ) (c : Config) → EachCallIsMarks r l depth c }
{}
