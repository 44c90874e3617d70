//! What a walk reads.

ghost use Rattle.std.specs.Prelude.{◌≡◌};
ghost use Rattle.lockset_check_values.specs.Setting.{setting};

use crate::guards::Guards;
use c_types_nodes::TypedTable;
use c_types_program::TypedProgram;
use std::alloc::Global;
use std::marker::Model;

/// A program, and what it says of mutexes.
#[derive(Drop)]
pub struct Walker<'p, 'g> {
    alloc: Global,
    program: &'p TypedProgram,
    guards: &'g Guards,
}

impl<'p, 'g> Model for Walker<'p, 'g> {
    ghost use Rattle.std.specs.Coded.{codes};
    ghost use Rattle.c_types_program.specs.contracts.global.Initial as initial;
    ghost use Rattle.c_types_program.specs.contracts.statement.Statement as statement;
    ghost use Rattle.lockset_check_values.specs.Setting.{Setting, setting};

    ghost Value = { Setting };

    ghost view = { λ w. setting w.program.now w.guards.now };

    ghost coded = { Prim.hlevel (codes, initial.the_row.coded, statement.the_row.coded) };
}

impl<'p, 'g> Walker<'p, 'g> {
    /// That of a program.
    pub fn new(alloc: Global, program: &'p TypedProgram, guards: &'g Guards) -> Walker<'p, 'g>
        ensures { result ≡ setting program.now guards.now }
    {
        Walker {
            alloc,
            program,
            guards,
        }
    }

    /// Where names are copied to.
    pub(crate) fn alloc(&self) -> Global {
        self.alloc
    }

    /// The program.
    pub fn program(&self) -> &TypedProgram
        ensures { result.now ≡ self.now.program }
    {
        self.program
    }

    /// Its expressions.
    pub(crate) fn table(&self) -> &TypedTable
        ensures { result.now ≡ self.now.program.table }
    {
        self.program.table()
    }

    /// What it says of mutexes.
    pub fn guards(&self) -> &Guards
        ensures { result.now ≡ self.now.sayings }
    {
        self.guards
    }
}
