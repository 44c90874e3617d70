//! What holds of the marks of every source.

ghost use Rattle.std.specs.Prelude.{◌≡◌, ℕ, true, List};
ghost use Rattle.marks.specs.declared.side.Side.{Side};
ghost use Rattle.marks.specs.declared.side.Side.TheVariants.{Replay};
ghost use Rattle.memory_map.specs.declared.placed.Placed.{Placed};
ghost use Rattle.c_syntax.specs.Syntax.{Decls};
ghost use Rattle.c_code.specs.MarkLists.{Reading, Split, Above};
ghost use Rattle.c_types_model.specs.Types.{CType};
ghost use Rattle.c_types_rules.specs.Limits.{Typed, outcome};
ghost use Rattle.c_types_rules.specs.Sources.{Program, params_of};
ghost use Rattle.c_semantics.specs.Calls.{behaviour, thread_above, thread_behaviour};
ghost use Rattle.c_semantics.specs.Context.{Source, shapes_of};
ghost use Rattle.c_code.specs.Frames.{are_values};
ghost use Rattle.c_semantics.specs.Laws.{EndIsLast, PrefixesAreRight, NextIsOne};
ghost use Rattle.c_semantics.specs.Parts.{ReplayPartIsRight, WantAboveIsOne};
ghost use Rattle.c_semantics.specs.Returned.{ResultsAreConverted, ReturnsGiveValues};
ghost use Rattle.c_semantics.specs.Arguments.{ArgumentsAreConverted, EndsWithValues, WantsCarryValues};

/// A law: a list of marks that a call, a thread, or a thread above the cut can make stays one when it is cut short.
pub fn prefixes_are_right()
    ensures calls { (r : Reading) (s : Source) (side : Side) (f : ℕ) (args : List ℕ) →
        PrefixesAreRight (behaviour r s side f args) }
    ensures threads { (s : Source) (t : CType) (address : ℕ) (args : List ℕ) →
        PrefixesAreRight (thread_behaviour s t address args) }
    ensures above { (s : Source) → PrefixesAreRight (thread_above s) }
{}

/// A law: what comes next is a function of the marks so far. Marks that may follow the same ones answer one want, and
/// what is answered is all that is free.
pub fn next_is_one()
    ensures calls { (r : Reading) (s : Source) (side : Side) (f : ℕ) (args : List ℕ) →
        NextIsOne (behaviour r s side f args) }
    ensures threads { (s : Source) (t : CType) (address : ℕ) (args : List ℕ) →
        NextIsOne (thread_behaviour s t address args) }
    ensures above { (s : Source) → NextIsOne (thread_above s) }
{}

/// A law: nothing follows the end of a call or thread.
pub fn end_is_last()
    ensures calls { (r : Reading) (s : Source) (side : Side) (f : ℕ) (args : List ℕ) →
        EndIsLast (behaviour r s side f args) }
    ensures threads { (s : Source) (t : CType) (address : ℕ) (args : List ℕ) →
        EndIsLast (thread_behaviour s t address args) }
{}

/// A law: the part above the cut of what a call or a thread makes, where the code below the cut is its own, is right where the code
/// below may be any: it may call functions back, and then returns. The functions give values of their results' types.
pub fn replay_part_is_right_above()
    ensures calls { (s : Source) → ResultsAreConverted s → (f : ℕ) (args : List ℕ) →
        ReplayPartIsRight (behaviour Split s Replay f args) (behaviour Above s Replay f args) }
    ensures threads { (s : Source) → ResultsAreConverted s → (t : CType) (address : ℕ) (args : List ℕ) →
        ReplayPartIsRight (thread_behaviour s t address args) (thread_above s) }
{}

/// A law: what a thread wants above the cut is a function of its marks there so far, whatever its function, its arguments and its
/// marks below the cut.
pub fn want_above_is_one()
    ensures { (s : Source) → ResultsAreConverted s → (t u : CType) (address other : ℕ) (args bs : List ℕ) →
        WantAboveIsOne (thread_behaviour s t address args) (thread_behaviour s u other bs) }
{}

/// A law: the functions of a typed source give values of their results' types, since each `return` converts its value as if by
/// assignment (C11 6.8.6.4, 3).
pub fn results_are_converted()
    ensures { (ds : Decls) (p : Program) → outcome ds ≡ Typed p → (texts : List ℕ) (placed : Placed) →
        ResultsAreConverted (record { program = p; texts = texts; placed = placed }) }
{}

/// A law: what a function that replay code called below the cut gives back is a value of its result's type.
pub fn returns_give_values()
    ensures { (s : Source) → ResultsAreConverted s → (t : CType) (address : ℕ) (args : List ℕ) →
        ReturnsGiveValues s (thread_behaviour s t address args) }
{}

/// A law: where results and arguments are converted, what a thread wants carries values of their types: the arguments of each
/// function that is entered, called or called back, and each result. So does the end of a thread.
pub fn wants_carry_values()
    ensures wants { (s : Source) → ResultsAreConverted s → ArgumentsAreConverted s →
        (t : CType) (address : ℕ) (args : List ℕ) → are_values (shapes_of (params_of t)) args ≡ true →
        WantsCarryValues s (thread_behaviour s t address args) }
    ensures ends { (s : Source) → ResultsAreConverted s → ArgumentsAreConverted s →
        (t : CType) (address : ℕ) (args : List ℕ) → are_values (shapes_of (params_of t)) args ≡ true →
        EndsWithValues t (thread_behaviour s t address args) }
{}
