//! Sources whose types are known.

ghost use Rattle.std.specs.Prelude.{◌≡◌};
ghost use Rattle.c_syntax.specs.Syntax.{Decls};
ghost use Rattle.c_types_rules.specs.Sources.{Program};
ghost use Rattle.c_types_program.specs.Programs.{IsProgram};
ghost use Rattle.c_types_source.specs.Sources.{IsRight, IsTypedSource};

use crate::parts::Parts;
use c_syntax::Tree;
use c_types_environment::Environment;
use c_types_program::{Function, TypedProgram};
use std::marker::Model;

/// A source that keeps all rules of types and exceeds no limit: its tree, what is declared at its end, its functions by number less 16,
/// its globals by place, and its strings in order, each once.
///
/// Contracts see its parts. They are always those of such a source.
#[derive(Drop)]
pub struct TypedSource {
    parts: Parts,
}

impl Model for TypedSource {
    ghost use Rattle.std.specs.Coded.{codes};
    ghost use Rattle.c_syntax.specs.contracts.declaration.Value as value;
    ghost use Rattle.c_types_environment.specs.TypeCodes.{type_code};
    ghost use Rattle.c_types_program.specs.contracts.global.Initial as initial;
    ghost use Rattle.c_types_program.specs.contracts.statement.Statement as statement;
    ghost use Rattle.c_types_source.specs.declared.parts.Parts.{Parts};

    ghost Value = { Parts };

    ghost coded = { Prim.hlevel (codes, type_code, value.the_row.coded, initial.the_row.coded, statement.the_row.coded) };

    ghost use Rattle.c_types_source.specs.Sources.{IsRight};

    ghost view = { λ s. s.parts };

    ghost invariant = { λ s. IsRight s.parts };
}

impl TypedSource {
    /// The source of these parts.
    pub fn new(parts: Parts) -> TypedSource
        requires { IsRight parts }
        ensures { result ≡ parts }
    {
        TypedSource { parts }
    }

    /// Its parts, so that more types may be put into its table. `new` makes a source of them again.
    pub fn into_parts(self) -> Parts
        ensures parts { result ≡ self }
        ensures right { IsRight self }
    {
        self.parts
    }

    /// Its tree.
    pub fn tree(&self) -> &Tree
        ensures tree { result.now ≡ self.now.tree }
        ensures right { IsRight self.now }
    {
        &self.parts.tree
    }

    /// What is declared at its end.
    pub fn env(&self) -> &Environment
        ensures env { result.now ≡ self.now.env }
        ensures right { IsRight self.now }
    {
        &self.parts.env
    }

    /// Its functions, by number less 16.
    pub fn functions(&self) -> &[Function]
        ensures functions { result.now ≡ self.now.functions }
        ensures right { IsRight self.now }
    {
        self.parts.functions.as_slice()
    }

    /// Its typed program, which has no tree. Types that were put into its table after it was checked stay there.
    pub fn into_program(self) -> TypedProgram
        ensures program { (ds : Decls) (p : Program) → IsTypedSource ds p self → IsProgram result p }
        ensures texts { result.texts ≡ self.texts }
    {
        let Parts {
            tree,
            env,
            functions,
            globals,
            texts,
        } = self.into_parts();
        drop(tree);
        let (table, structs) = env.into_parts();
        TypedProgram::new(table, structs, functions, globals, texts)
    }
}
