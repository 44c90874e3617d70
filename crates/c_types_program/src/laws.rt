//! What holds of all programs.

ghost use Rattle.std.specs.Prelude.{◌≡◌};
ghost use Rattle.c_types_nodes.specs.Tables.{Keeps, Table};
ghost use Rattle.c_types_program.specs.declared.statement.Statement.{Statement};
ghost use Rattle.c_types_program.specs.Statements.{IsStatement, statement_in};

/// A law: while a table grows, the statements that are made of what is in it keep what they stand for.
pub fn statements_keep_their_meaning()
    ensures meaning { (t u : Table) (s : Statement) → Keeps t u → IsStatement t s →
        statement_in u s ≡ statement_in t s }
    ensures inside { (t u : Table) (s : Statement) → Keeps t u → IsStatement t s → IsStatement u s }
{}
