//! Programs.

ghost use Rattle.std.specs.Prelude.{◌≡◌};
ghost use Rattle.c_types_program.specs.Declarations.{IsSound, declared};

use crate::function::Function;
use crate::global::Global;
use crate::text::TextLiteral;
use c_syntax::Seq;
use c_types_nodes::TypedTable;
use c_types_structs::Structs;
use std::marker::Model;

/// What a source declares, with its expressions and types in one table. All numbers in it are those of values and types of
/// this table.
#[derive(Drop)]
pub struct TypedProgram {
    table: TypedTable,
    structs: Structs,
    functions: Seq<Function>,
    globals: Seq<Global>,
    texts: Seq<TextLiteral>,
}

impl Model for TypedProgram {
    ghost use Rattle.std.specs.Coded.{codes};
    ghost use Rattle.c_types_program.specs.Declarations.{Declared, IsSound, declared};
    ghost use Rattle.c_types_program.specs.contracts.global.Initial as initial;
    ghost use Rattle.c_types_program.specs.contracts.statement.Statement as statement;

    ghost Value = { Declared };

    ghost view = { λ p. declared p.table p.structs p.functions p.globals p.texts };

    ghost coded = { Prim.hlevel (codes, initial.the_row.coded, statement.the_row.coded) };

    ghost invariant = { λ p. IsSound (declared p.table p.structs p.functions p.globals p.texts) };
}

impl TypedProgram {
    /// The program of these declarations: structs by number, functions by number less 16, globals by place, and strings
    /// in the order of the source, each once.
    pub fn new(
        table: TypedTable,
        structs: Structs,
        functions: Seq<Function>,
        globals: Seq<Global>,
        texts: Seq<TextLiteral>,
    ) -> TypedProgram
        requires { IsSound (declared table structs functions globals texts) }
        ensures { result ≡ declared table structs functions globals texts }
    {
        TypedProgram {
            table,
            structs,
            functions,
            globals,
            texts,
        }
    }

    /// Its expressions and types.
    pub fn table(&self) -> &TypedTable
        ensures table { result.now ≡ self.now.table }
        ensures sound { IsSound self.now }
    {
        &self.table
    }

    /// Its structs, by number.
    pub fn structs(&self) -> &Structs
        ensures structs { result.now ≡ self.now.structs }
        ensures sound { IsSound self.now }
    {
        &self.structs
    }

    /// Its functions, by number less 16.
    pub fn functions(&self) -> &[Function]
        ensures functions { result.now ≡ self.now.functions }
        ensures sound { IsSound self.now }
    {
        self.functions.as_slice()
    }

    /// Its globals, by place.
    pub fn globals(&self) -> &[Global]
        ensures globals { result.now ≡ self.now.globals }
        ensures sound { IsSound self.now }
    {
        self.globals.as_slice()
    }

    /// Its strings, in the order of the source, each once.
    pub fn texts(&self) -> &[TextLiteral]
        ensures { result.now ≡ self.now.texts }
    {
        self.texts.as_slice()
    }
}
