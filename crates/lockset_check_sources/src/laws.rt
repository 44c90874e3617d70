//! What the law of threads asks of a source, and that sources have it.

ghost use Rattle.std.specs.Prelude.{◌≡◌, ℕ, List};
ghost use Rattle.memory_map.specs.declared.placed.Placed.{Placed};
ghost use Rattle.c_syntax.specs.Syntax.{Decls};
ghost use Rattle.c_scopes.specs.Scopes.{Scope};
ghost use Rattle.c_types_rules.specs.Environment.{Meaning};
ghost use Rattle.c_types_rules.specs.Limits.{Typed, outcome};
ghost use Rattle.c_types_rules.specs.Sources.{Program};
ghost use Rattle.c_types_nodes.specs.Tables.{IsTable};
ghost use Rattle.c_types_program.specs.Declarations.{Declared, IsSound};
ghost use Rattle.c_types_program.specs.Programs.{program_in};
ghost use Rattle.annot_reader_rules.specs.Cuts.{annotations};
ghost use Rattle.annot_reader_rules.specs.Notes.{Annotated};
ghost use Rattle.lockset_check_sources.specs.Sources.{AcceptedSourcesAreGuarded, HoldsAreFit, IsFound};
ghost use Rattle.lockset_check_threads.specs.Laws.{CallsArePlain, ConstantsAreOfKinds};

/// A law: in a typed source each call by name is of a function by its own number, or of a builtin with a value for each parameter,
/// converted to its type (C11 6.5.2.2), and `break` and `continue` stand in loops (C11 6.8.6).
pub fn calls_are_plain()
    ensures { (ds : Decls) (p : Program) → outcome ds ≡ Typed p → (texts : List ℕ) (placed : Placed) →
        CallsArePlain (record { program = p; texts = texts; placed = placed }) }
{}

/// A law: in what stands for a program of a table, each integer constant in the argument of what locks or unlocks is a value of its
/// kind, and operators there stand over operands of one kind.
pub fn constants_are_of_kinds()
    ensures { (d : Declared) → IsTable d.table → IsSound d → (names : Scope Meaning) (texts : List ℕ) →
        (placed : Placed) →
        ConstantsAreOfKinds (record { program = program_in d names; texts = texts; placed = placed }) }
{}

/// A law: the mutexes of `holds` are values of int, and a function in the interface of a cut has none.
pub fn holds_are_fit()
    ensures { (ds : Decls) (p : Program) (a : Annotated) → IsFound a (annotations ds p) → HoldsAreFit p a }
{}

/// A law: the law of threads speaks of each accepted source with a guarded global, for each cut.
pub fn accepted_sources_are_guarded()
    ensures { AcceptedSourcesAreGuarded }
{}
